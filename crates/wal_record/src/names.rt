//! Forks and relations as they are written.

ghost use Rattle.std.specs.Prelude.{◌≡◌, []};
ghost use Rattle.wal_record.specs.Spelling.{fork_number, relation_bytes};

use lsn_core::{ForkKind, Rel};

/// The number of a fork (common/relpath.h, ForkNumber).
pub fn fork_number(kind: ForkKind) -> u8
    ensures { result ≡ fork_number kind }
{
    match kind {
        ForkKind::Main => 0,
        ForkKind::Init => 3,
    }
}

/// A relation of tablespace 1663, pg_default.
pub fn relation(rel: Rel) -> [u8; 12]
    ensures { result ≡ relation_bytes rel [] }
{
    let [a, b, c, d] = rel.db().to_le_bytes();
    let [e, f, g, h] = rel.rel().to_le_bytes();
    [0x7f, 0x06, 0, 0, a, b, c, d, e, f, g, h]
}

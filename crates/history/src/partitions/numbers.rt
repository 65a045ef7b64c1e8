//! Which partition a relation belongs to.

ghost use Rattle.std.specs.Prelude.{◌≡◌, ◌<◌};
ghost use Rattle.history.specs.partitions.Parts.{partition_of};

use lsn_core::Rel;

/// The partition to which a relation belongs, with all its forks: its number modulo 4, so 0 to 3
/// (profile).
pub fn partition_of(rel: Rel) -> u32
    ensures number { result ≡ partition_of rel }
    ensures below { result < 4 }
{
    rel.rel() % 4
}

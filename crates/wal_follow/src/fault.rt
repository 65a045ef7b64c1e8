//! Why a stream isn't followed.

ghost use Rattle.std.specs.Prelude.{◌≡◌};
ghost use Rattle.wal_follow.specs.declared.fault.FollowFault.TheVariants as follow;

use lsn_core::{Lsn, NoMemory};
use wal_archive::Damage;

/// Why a stream isn't followed.
#[derive(Clone, Copy, Debug, PartialEq, Eq)]
pub enum FollowFault {
    /// The archive of the stream is damaged, or an entry of it is of a kind or of a content that
    /// isn't taken.
    Damaged(Damage),
    /// The delta of the entry that starts there leaves a page with a bad header.
    BadDelta(Lsn),
    /// Memory ran out.
    NoMemory,
}

impl From<NoMemory> for FollowFault {
    ghost from_gives = { λ _ e. e ≡ follow.NoMemory };

    fn from(_: NoMemory) -> Self {
        FollowFault::NoMemory
    }
}

//! Where a WAL ends.

ghost use Rattle.std.specs.Prelude.{◌≡◌, ◌<◌, ◌^◌};
ghost use Rattle.wal_record.specs.Tips.{first_tip, is_redo_mark, tip_after, wal_limit};

use crate::record::{Kind, Record};
use lsn_core::{Lsn, MOST_SEGMENTS, SegSize, WalTip};

/// The end of a WAL without an entry: it begins with segment 1.
pub fn first_tip(size: SegSize) -> WalTip
    ensures { result ≡ first_tip size }
{
    WalTip {
        end: Lsn(size.bytes()),
        prev: Lsn(0),
        redo: Lsn(0),
        count: 0,
    }
}

/// The end of a WAL with one more entry. The latest redo point is the start of the latest redo
/// mark, or of the first entry.
pub fn tip_after(tip: WalTip, entry: &Record) -> WalTip
    requires { tip.count < 2 ^ 63 }
    ensures { result ≡ tip_after tip entry.now }
{
    WalTip {
        end: entry.end,
        prev: entry.start,
        redo: if tip.count == 0 || is_redo_mark(&entry.kind) {
            entry.start
        } else {
            tip.redo
        },
        count: tip.count + 1,
    }
}

/// Whether an entry is the start of a checkpoint.
fn is_redo_mark(kind: &Kind) -> bool
    ensures { result ≡ is_redo_mark kind.now }
{
    matches!(kind, Kind::RedoMark(_))
}

/// Where the room of a WAL ends: behind its last segment, of number 1,048,576.
pub fn wal_limit(size: SegSize) -> Lsn
    ensures { result.0 ≡ wal_limit size }
{
    Lsn((MOST_SEGMENTS + 1) * size.bytes())
}

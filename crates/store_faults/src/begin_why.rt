//! Why a store is not begun.

use lsn_core::StoreFault;
use recovery::RecoveryFault;

/// Why a store was not begun.
#[derive(Clone, Copy, Debug, PartialEq, Eq)]
pub enum BeginWhy {
    /// Its WAL can't be read or has no entry, or memory ran out before a data area was touched.
    Wal(RecoveryFault),
    /// Its WAL, which was read, can't be replayed: an entry has a bad delta, its area failed, or
    /// memory ran out. The data areas were cleared by then.
    Replay(RecoveryFault),
    /// A data area failed, or memory ran out, while the data areas were rebuilt.
    Data(StoreFault),
}

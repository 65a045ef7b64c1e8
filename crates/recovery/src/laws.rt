//! What holds of every WAL.

ghost use Rattle.recovery.specs.Laws.{HasOneWal};

/// A WAL is read in one way, or refused for one reason, whatever its area holds: so each refusal
/// that isn't a device's or want of memory comes exactly where its case holds.
pub fn wal_has_one_answer()
    ensures { HasOneWal }
{}

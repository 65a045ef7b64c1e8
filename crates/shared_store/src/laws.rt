//! Laws of a shared store: each is the contract of a function that does nothing.

ghost use Rattle.store_locks.specs.Copied.{RedoPointsStay, RedoPointsRun};
ghost use Rattle.store_locks.specs.Records.{RecordsEndAtEntries, PlacesStay};
ghost use Rattle.shared_store.specs.Shared.{CheckpointsLeaveRedoPoints, EndsComeBehind, PassesCountTheirEntries};

/// A checkpoint leaves its redo point, which stays as the history goes on. From there on a copy may
/// be taken while entries are written, and the end of a backup comes behind all that was seen.
pub fn copies_start_at_redo_points()
    ensures left { CheckpointsLeaveRedoPoints }
    ensures stays { RedoPointsStay }
    ensures runs { RedoPointsRun }
    ensures ends { EndsComeBehind }
{}

/// Where the passes of all workers counted as many entries as they made together, and none more
/// commands or marks than its worker has in the history, each counted just its worker's.
pub fn passes_count_their_entries()
    ensures { PassesCountTheirEntries }
{}

/// Each record that is answered ends where an entry does that was seen, so that the next piece can
/// be asked for from there; and this stays as the history goes on.
pub fn records_go_on()
    ensures end { RecordsEndAtEntries }
    ensures stays { PlacesStay }
{}

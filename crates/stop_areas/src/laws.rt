//! Laws of what a stop leaves: each is the contract of a function that does nothing.

ghost use Rattle.stop_areas.specs.Laws.{StopsKeepPages, PutsKeepPages, MakesKeepPages};
ghost use Rattle.stop_areas.specs.Laws.{CutsKeepPages, RemovalsKeepPages, CallsKeepInTurn};
ghost use Rattle.stop_areas.specs.Laws.{HeldIsLeft, LeftIsHeld, DurableIsLeft, MoreIsLeft};

/// While blocks are written that entries change, and files are cut and removed behind what stays, a
/// stop at any moment leaves what stays.
pub fn events_keep_what_stays()
    ensures { StopsKeepPages }
{}

/// So it does at any moment of a call on a store in segment files, whatever the call answers.
pub fn calls_keep_what_stays()
    ensures put { PutsKeepPages }
    ensures make { MakesKeepPages }
    ensures cut { CutsKeepPages }
    ensures removal { RemovalsKeepPages }
{}

/// And at any moment of two calls, one behind the other.
pub fn calls_keep_in_turn()
    ensures { CallsKeepInTurn }
{}

/// Files that hold a store of whole pages have what stays where the store has it.
pub fn held_stores_have_what_stays()
    ensures left { HeldIsLeft }
    ensures held { LeftIsHeld }
{}

/// After a sync a stop leaves what a read gives, and so what stays of it; with more entries flushed
/// less stays.
pub fn synced_files_have_what_stays()
    ensures durable { DurableIsLeft }
    ensures more { MoreIsLeft }
{}

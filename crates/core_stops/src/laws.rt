//! Laws of the core machine with stops: each is the contract of a function that does nothing.

ghost use Rattle.core_stops.specs.Laws.{AreasAreSafe, StopsLeaveWhatStays};
ghost use Rattle.core_stops.specs.Laws.{SurvivorsAreLeft, StopsLeaveSurvivors};
ghost use Rattle.core_stops.specs.Laws.{SurvivingRecordsAreLeft, StopsLeaveRecords};

/// Over every list of steps from a new store on, the areas of all partitions stay safe, and a
/// stop at any moment of a step leaves of each what stays.
pub fn areas_stay_safe()
    ensures safe { AreasAreSafe }
    ensures moments { StopsLeaveWhatStays }
{}

/// Whichever of the entries survive a stop, with all that are flushed: it leaves of each area
/// what the store had at the redo point that the last checkpoint among them names, or any of
/// them, unless one of them from there on changes it. So it is of the entries, and of the records
/// of the WAL that they are written as.
pub fn survivors_are_left()
    ensures now { SurvivorsAreLeft }
    ensures moments { StopsLeaveSurvivors }
    ensures records_now { SurvivingRecordsAreLeft }
    ensures records_moments { StopsLeaveRecords }
{}

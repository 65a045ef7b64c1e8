//! Laws of stops and restarts: each is the contract of a function that does nothing.

ghost use Rattle.stop_comebacks.specs.Laws.{EarlierPlacesAreLeft, CallsKeepOwnFiles};
ghost use Rattle.stop_comebacks.specs.Laws.{CleanPartitionsHaveOwnFiles, StopsLeaveParts};
ghost use Rattle.stop_comebacks.specs.Laws.{StopsLeaveWals, OpenStoresAreStopped};
ghost use Rattle.stop_comebacks.specs.Laws.{StopsLeaveRestorableAreas};
ghost use Rattle.stop_comebacks.specs.Laws.{WrittenRecordsFit, NewLogsFollow, FirstRecordsFollow};
ghost use Rattle.stop_comebacks.specs.Laws.{RunsKeepDeltasFollowing, StoppedStoresComeBack};
ghost use Rattle.stop_comebacks.specs.Restarts.{StoppedAreasAreRestorable};
ghost use Rattle.stop_comebacks.specs.Restarts.{RebuildingRestartsLeaveRestorableAreas};
ghost use Rattle.stop_comebacks.specs.Restarts.{RestartsKeepSurvivors};
ghost use Rattle.stop_comebacks.specs.Restarts.{BeginningsLeaveRestorableAreas};
ghost use Rattle.stop_comebacks.specs.Restarts.{RestorableAreasComeBack};

use vault::Vault;

/// What a stop left of a partition as of its point, it left as of each earlier place.
pub fn earlier_places_are_left()
    ensures { EarlierPlacesAreLeft }
{}

/// A stop at any moment of a partition's writing calls leaves files of its own forks alone, none of
/// them too long, where it did before.
pub fn calls_keep_own_files()
    ensures { CallsKeepOwnFiles }
{}

/// And it leaves them where a partition's files hold its pages, durably.
pub fn clean_partitions_have_own_files()
    ensures { CleanPartitionsHaveOwnFiles }
{}

/// What a stop leaves of a partition that follows a history, told by the records of its log.
pub fn stops_leave_parts()
    ensures { StopsLeaveParts }
{}

/// What a stop leaves of a WAL, whose log is flushed up to a place.
pub fn stops_leave_wals()
    ensures { StopsLeaveWals }
{}

/// Records that can be written make stores whose numbers, lengths and pages fit files.
pub fn written_records_fit()
    ensures { WrittenRecordsFit }
{}

/// What a stop leaves of a store that is open, told by its log and its partitions.
pub fn open_stores_are_stopped<V: Vault>()
    ensures { OpenStoresAreStopped V.Vault }
{}

/// A store can be brought back from what a stop left of it.
pub fn stops_leave_restorable_areas<V: Vault>()
    ensures { StopsLeaveRestorableAreas V.Vault }
{}

/// The log of a new store has no delta.
pub fn new_logs_follow()
    ensures { NewLogsFollow }
{}

/// So it is of the first records of a log where it is of all: a stop and a restart keep it.
pub fn first_records_follow()
    ensures { FirstRecordsFollow }
{}

/// Each delta that a run writes follows an image or a cut of its block, from where replay starts.
pub fn runs_keep_deltas_following()
    ensures { RunsKeepDeltasFollowing }
{}

/// A store that was stopped, and restarted with Ok, has the WAL of just the entries that survived,
/// the first of its history with all that were flushed, and in its data areas the files of just
/// what these make from nothing.
pub fn stopped_stores_come_back<V: Vault>()
    ensures { StoppedStoresComeBack V.Vault }
{}

/// A store can be brought back from what a stop left of it, and from what the next stop leaves of
/// that.
pub fn stopped_areas_are_restorable<V: Vault>()
    ensures { StoppedAreasAreRestorable V.Vault }
{}

/// A stop at any moment of a restart that makes the data areas anew leaves areas from which the
/// store can be brought back.
pub fn rebuilding_restarts_leave_restorable_areas<V: Vault>()
    ensures { RebuildingRestartsLeaveRestorableAreas V.Vault }
{}

/// A stop at any moment of a restart leaves no fewer survivors, where nothing of the WAL was
/// unsynced.
pub fn restarts_keep_survivors<V: Vault>()
    ensures { RestartsKeepSurvivors V.Vault }
{}

/// A stop at any moment of the rebuilding of data areas, when a store is begun, leaves areas from
/// which it can be brought back.
pub fn beginnings_leave_restorable_areas<V: Vault>()
    ensures { BeginningsLeaveRestorableAreas V.Vault }
{}

/// A restart of restorable areas whose first entry was flushed answers Ok, unless an area fails or
/// memory runs out.
pub fn restorable_areas_come_back<V: Vault>()
    ensures { RestorableAreasComeBack V.Vault }
{}

//! Laws of windows: each is the contract of a function that does nothing.

ghost use Rattle.stop_laws.specs.Laws.{HistoriesHaveWindows, FlushedWritesMayBeDone};
ghost use Rattle.stop_laws.specs.Laws.{CallsKeepWindows, CleanPartitionsBeginWindows};
ghost use Rattle.stop_laws.specs.Laws.{WindowsGrow, LeftStoresAgree};

/// A history that goes on tidily from a place has its window there, whatever of it is flushed.
pub fn histories_have_windows()
    ensures { HistoriesHaveWindows }
{}

/// What a partition has dirty or pending by flushed entries may be written: it changes nothing that
/// stays.
pub fn flushed_writes_may_be_done()
    ensures { FlushedWritesMayBeDone }
{}

/// So a stop at any moment of a call that writes some of it leaves what stays, where it did before.
pub fn calls_keep_windows()
    ensures { CallsKeepWindows }
{}

/// Once all is written and synced a stop leaves what stays of the store at the raised point.
pub fn clean_partitions_begin_windows()
    ensures { CleanPartitionsBeginWindows }
{}

/// With more entries flushed less stays.
pub fn windows_grow()
    ensures { WindowsGrow }
{}

/// What stands in files that a stop left agrees with the store at the place, but for what the
/// entries change: replay of these makes it good.
pub fn left_stores_agree()
    ensures { LeftStoresAgree }
{}

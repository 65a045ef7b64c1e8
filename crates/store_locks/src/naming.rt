//! What the proof of a program picks for an open store and its workers.

use journal::OfStore;
use std::marker::Brand;
use store_ledgers::OfLedgers;

/// Names what all that belongs to one open store has in common, wherever it lies: the store's
/// timeline and whether its areas tell their files (`OfStore`), its ledgers (`OfLedgers`), its
/// settings and its number of workers, the entries that its WAL was found to have, and how its
/// areas and that of the summaries were when the run began.
pub trait OfCrew: OfStore + OfLedgers {
    ghost use Rattle.std.specs.Prelude.{ℕ, List, Option};
    ghost use Rattle.lsn_core.specs.Files.{Files};
    ghost use Rattle.lsn_core.specs.Segment.{StoreSettings};
    ghost use Rattle.history.specs.Entry.{Entry};
    ghost use Rattle.store_locks.specs.Locked.{WalStart};

    /// The settings: a segment's size in MiB, the most blocks of a file, and the number of the
    /// system.
    ghost settings: { StoreSettings };

    /// The entries that the WAL was found to have, from the first one on. What comes behind them is
    /// of this run.
    ghost found: { List Entry };

    /// The WAL's area when the run began: its files, where it told them, and the place (a byte of
    /// the WAL) up to which it was flushed.
    ghost wal: { WalStart };

    /// The files of the area of the summaries when the run began, where it told them.
    ghost sums: { Option Files };

    /// How often calls of the areas had failed when the run began: 0 to 3 for the data areas, 4 for
    /// the WAL's, 5 for that of the summaries.
    ghost starts: { ℕ → ℕ };

    /// How many workers there are, each with a pass. They are numbered from 0 on.
    ghost workers: { ℕ };
}

impl OfCrew for Brand {
    ghost use Rattle.std.specs.Prelude.{[], None};
    ghost use Rattle.store_locks.specs.Locked.{WalStart};

    ghost settings = { record { segment = 1; relseg = 1; system = 0 } };

    ghost found = { [] };

    ghost wal = { record { files = None; flushed = 0 } };

    ghost sums = { None };

    ghost starts = { λ _. 0 };

    ghost workers = { 0 };
}

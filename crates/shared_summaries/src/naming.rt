//! What the names of an open store and its crew say of the summaries.

use std::marker::Brand;
use store_locks::OfCrew;

/// Names of a run that keeps summaries for some time.
pub trait OfRetention: OfCrew {
    ghost use Rattle.std.specs.Prelude.{ℕ};

    /// The moment (in seconds since 1970 UTC) before which a summary that was made then is old. 0
    /// where all are kept.
    ghost limit: { ℕ };
}

impl OfRetention for Brand {
    ghost limit = { 0 };
}

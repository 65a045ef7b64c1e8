//! Why a store answers no summary of a range.

use lsn_core::{Lsn, StoreFault};

/// Why no summary of a range is answered.
#[derive(Clone, Copy, Debug, PartialEq, Eq)]
pub enum AdvanceFault {
    /// No kept summary has this place, the least such of the range.
    Gap(Lsn),
    /// Summaries couldn't be published or read.
    Store(StoreFault),
}

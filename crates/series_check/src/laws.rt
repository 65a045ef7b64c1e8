//! Laws of the check: each is the contract of a function that changes nothing.

ghost use Rattle.series_check.specs.Series.{AcceptedSeriesIsNotRefused, SeriesRefusalsAreOne};

use chain_check::chains_have_one_answer;

/// A series that is accepted isn't refused, and one that isn't is refused for one fault of one
/// member.
pub fn series_have_one_answer()
    ensures apart { AcceptedSeriesIsNotRefused }
    ensures first { SeriesRefusalsAreOne }
{
    // known: a chain has one answer, in which the first member is a full backup
    chains_have_one_answer();
}

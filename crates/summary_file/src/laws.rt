//! Laws of summaries' files: each is the contract of a function that does nothing.

ghost use Rattle.summary_file.specs.Laws.{WrittenSummariesAreRead, ReadSummariesAreWritten};
ghost use Rattle.summary_file.specs.Laws.{NamesHaveOneRange};

/// What `encode_summary` gives is read as that summary and isn't refused, and what is read as a
/// summary is what is written of it, and of no other one.
pub fn summaries_are_read_again()
    ensures written { WrittenSummariesAreRead }
    ensures read { ReadSummariesAreWritten }
{}

/// A name is that of one range's file.
pub fn names_have_one_range()
    ensures { NamesHaveOneRange }
{}

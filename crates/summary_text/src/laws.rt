//! Laws of runs: each is the contract of a function that does nothing.

ghost use Rattle.summary_text.specs.Laws.{RunsHaveTheBlocks, RunsAreApart};

/// The runs of rising block numbers have these numbers and no others, and between two runs there is
/// a number that none has: so they are as few as can be.
pub fn runs_are_the_blocks()
    ensures same { RunsHaveTheBlocks }
    ensures apart { RunsAreApart }
{}

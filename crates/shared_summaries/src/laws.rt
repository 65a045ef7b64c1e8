//! Laws of an area of summaries that workers share: each is the contract of a function that does
//! nothing.

ghost use Rattle.shared_summaries.specs.Laws.{AnswersSumUp, CrewsKeepHonest};
ghost use Rattle.shared_summaries.specs.Laws.{RunsBeginGrown, PublishingGrows, GapsAreOld};

/// What a worker is answered for a range up to its own redo point is the summary up to there.
/// Behind the workers the area is honest for the finished history.
pub fn answers_sum_up()
    ensures up { AnswersSumUp }
    ensures honest { CrewsKeepHonest }
{}

/// What is kept of the area grows by neighbours, also where publishing failed, and loses old ones
/// alone, never the last one. So a place below what is kept that nothing covers is one that nothing
/// covered when the run began but what is old.
pub fn kept_summaries_grow()
    ensures begins { RunsBeginGrown }
    ensures grows { PublishingGrows }
    ensures gaps { GapsAreOld }
{}

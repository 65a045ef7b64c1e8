//! Laws of areas in which several workers publish summaries: each is the contract of a function
//! that does nothing.

ghost use Rattle.shared_summaries.specs.summary_publish.Laws.{RunsBeginTrue, TrueIsHonest, TrueStays};
ghost use Rattle.shared_summaries.specs.summary_publish.Laws.{PublishingKeepsTrue, CrewSumsUp};

/// An area that is honest when a run begins is true for it, and a true one is honest. It stays true
/// as workers add entries and publish there, whether their publishing came to its end or failed.
pub fn areas_stay_true()
    ensures begins { RunsBeginTrue }
    ensures honest { TrueIsHonest }
    ensures stays { TrueStays }
    ensures publishing { PublishingKeepsTrue }
{}

/// What covers a range up to a redo point of the run, whoever published it, is the summary up to
/// there.
pub fn crew_sums_up()
    ensures { CrewSumsUp }
{}

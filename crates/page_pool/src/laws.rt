//! Laws of a partition's frames and disk: each is the contract of a function that does nothing.

ghost use Rattle.page_pool.specs.Laws.{ActsAreEntered, WorksAreDone, PagesAreWritten, TornWritesStayUnwritten, MendedDisksLackNoMore, CleanDisksAreFrames, FramesLackNothing, CleanPartsFollow, CleanPartsHaveNoNext, OwnEntriesAreFollowed, OtherEntriesAreFollowed, PagesAreShown, OneWrittenIsWritten, WritesAreFollowed, CleaningIsFollowed, UnwrittenIsOfHistory, FollowersCover, PartsJudgeAlike, PartsCountAlike};

/// A tidy act done in frames: the disk lacks of them what it lacked before, and what the act
/// touched or entered.
pub fn acts_are_entered()
    ensures { ActsAreEntered }
{}

/// What was written isn't dirty or pending any more: the first pending work, or, where no work is
/// pending, any dirty page. What a failed write left unknown still is, also
/// where a short page is left out.
pub fn writes_leave_less()
    ensures works { WorksAreDone }
    ensures pages { PagesAreWritten }
    ensures torn { TornWritesStayUnwritten }
    ensures mended { MendedDisksLackNoMore }
{}

/// The pages in frames over an area's files are those of which the files lack only what is dirty or
/// pending.
pub fn pages_are_shown()
    ensures { PagesAreShown }
{}

/// Where nothing is dirty or pending the disk is what stands in frames, a disk that is so lacks
/// nothing, a partition that has a history's pages follows the history, and nothing is written
/// next; only there is nothing written next.
pub fn clean_partitions_lack_nothing()
    ensures frames { CleanDisksAreFrames }
    ensures nothing { FramesLackNothing }
    ensures followed { CleanPartsFollow }
    ensures next { CleanPartsHaveNoNext }
{}

/// A partition follows its history over entries of its own and of others that come behind it.
pub fn entries_are_followed()
    ensures own { OwnEntriesAreFollowed }
    ensures others { OtherEntriesAreFollowed }
{}

/// A partition follows its history still when some of it is written, one thing or more, and when
/// all is and its point is raised.
pub fn writes_are_followed()
    ensures one { OneWrittenIsWritten }
    ensures some { WritesAreFollowed }
    ensures all { CleaningIsFollowed }
{}

/// The entry of what is written next, and the newest of all that isn't written, are entries of the
/// history that the partition follows.
pub fn unwritten_is_of_history()
    ensures { UnwrittenIsOfHistory }
{}

/// The disk of a partition that follows its history covers it, so that replay from the partition's
/// point on makes good what isn't written.
pub fn followers_cover()
    ensures { FollowersCover }
{}

/// A command that concerns one partition alone is judged by the partition's pages as by those of
/// the whole store.
pub fn parts_judge_alike()
    ensures { PartsJudgeAlike }
{}

/// An act that concerns one partition alone adds and takes away as many of the partition's pages as
/// of the whole store's.
pub fn parts_count_alike()
    ensures { PartsCountAlike }
{}

//! Laws of summaries and of incremental copies: each is the contract of a function that does
//! nothing.

ghost use Rattle.history.specs.fuzzy_copies.CoverLaws.{SummariesMeet, LogsAreSummedAlike, LogsAreTidy, UnlistedBlocksStand, LimitsTellSettled, BlocksBelowLimitsAreThere, IncrementsAreSound};

/// The summary of a range is made of those of its two parts.
pub fn summaries_meet()
    ensures { SummariesMeet }
{}

/// The log of a history, as it is read back, has the history's summaries, range by range; and its
/// entries are tidy where the history's are.
pub fn logs_are_summed_alike()
    ensures alike { LogsAreSummedAlike }
    ensures tidy { LogsAreTidy }
{}

/// What a summary tells: blocks that are there and that it doesn't list were neither touched nor
/// cut; of a created fork the limit is 0; and blocks below a fork's limit are there.
pub fn summaries_tell_blocks()
    ensures unlisted { UnlistedBlocksStand }
    ensures created { LimitsTellSettled }
    ensures below { BlocksBelowLimitsAreThere }
{}

/// The law of incremental copies, by blocks: a copy whose blocks were copied, or kept from a sound
/// earlier copy where the summary allows it, is sound.
pub fn increments_are_sound()
    ensures { IncrementsAreSound }
{}

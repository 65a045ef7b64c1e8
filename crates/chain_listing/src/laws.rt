//! Laws of chains: contracts of functions that do nothing.

ghost use Rattle.chain_listing.specs.Laws.{ChainsAreLinked, FoundReaches, FoundIsNewest, FullAreFirst, PriorsAreBefore};

/// The names of a chain are those of a full backup and of others, each of which stands on the one
/// before it; the last is the one that the chain was asked for, and there are 64 at most.
pub fn chains_are_linked()
    ensures { ChainsAreLinked }
{}

/// The backup whose chain is told for a place is one of those that are listed, ends a chain, and at
/// or before the place; and none of those that do so ends behind it.
pub fn newest_chains_are_told()
    ensures reaches { FoundReaches }
    ensures newest { FoundIsNewest }
{}

/// `restore` and `combine` refuse no chain that is shown for versions or for what its labels tell:
/// a full backup may be the first member, and one that stands on another may come behind that. What
/// is left to them is whether the files are as listed, and fit those of the prior.
pub fn shown_chains_are_taken()
    ensures first { FullAreFirst }
    ensures behind { PriorsAreBefore }
{}

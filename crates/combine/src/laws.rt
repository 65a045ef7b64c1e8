//! Laws of combining: each is the contract of a function that changes nothing.

ghost use Rattle.combine.specs.Laws.{CombinedHoldsTheSame, CombinedIsAsListed};
ghost use Rattle.combine.specs.Laws.{FullMembersAreChains};

/// What a chain is combined to stands for the same segment files as the chain.
pub fn combined_directories_hold_the_same()
    ensures { CombinedHoldsTheSame }
{}

/// What a chain is combined to is as its manifest lists it, under any name: its label is the newest
/// member's without its prior, and it lists the range of the WAL that the newest member lists.
/// Where the chain was accepted, it is a chain of one that is accepted too.
pub fn combined_directories_are_chains()
    ensures listed { CombinedIsAsListed }
    ensures accepted { FullMembersAreChains }
{}

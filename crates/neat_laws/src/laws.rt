//! Laws of neat segment files: each is the contract of a function that does nothing.

ghost use Rattle.neat_laws.specs.Laws.{NeatFilesHoldStores, NeateningKeepsOwnFiles};
ghost use Rattle.neat_laws.specs.Laws.{NeatAreasHoldStores};

use vault::Vault;

/// Neat segment files hold a store of whole pages, where no fork is longer than a fork may be.
pub fn neat_files_hold_stores()
    ensures { NeatFilesHoldStores }
{}

/// Segment files that are made neat keep their room, and have no forks of other partitions. So four
/// areas of such files hold the parts of a store once they are neat.
pub fn neat_areas_hold_stores<V: Vault>()
    ensures kept { NeateningKeepsOwnFiles V.Vault }
    ensures held { NeatAreasHoldStores V.Vault }
{}

//! The pages of a store in the segment files of its data areas.

ghost use Rattle.std.specs.Prelude.{◌≡◌, ℕ, IsSome, map};
ghost use Rattle.std.specs.FinMap.{empty};
ghost use Rattle.lsn_core.specs.Segment.{IsRelseg};
ghost use Rattle.rel_files.specs.Kept.{ghosts_of};
ghost use Rattle.data_areas.specs.Areas.{area_of, data_fault, listed};
ghost use Rattle.data_areas.specs.Clearing.{AreBare};
ghost use Rattle.data_areas.specs.Stored.{ShowsParts, AreForksOf, KeepsAll, CountsFault};
ghost use Rattle.data_areas.specs.Kept.{all_none, all_on};

use crate::areas::DataAreas;
use crate::fault::data_fault;
use history::partitions::partition_of;
use lsn_core::{AreaFault, BlockId, ForkId, Pages, StoreFault};
use rel_files::Forks;
use std::alloc::Global;
use vault::Vault;

/// The pages of a store, in the segment files of its four data areas: a relation belongs to the
/// partition of its number modulo 4, with all its forks. It knows which area failed last.
#[derive(Drop)]
pub struct StoreForks<V: Vault> {
    parts: [Forks<V>; 4],
    faults: AreaFaults,
}

/// How many calls on areas failed, and the number of the area of the last one.
#[derive(Drop)]
pub struct AreaFaults {
    count: u64,
    last: u32,
}

impl AreaFaults {
    /// Counts a call on an area, where it failed.
    fn note(&mut self, q: u32, why: Option<AreaFault>)
        ensures { CountsFault q self.old self.new why }
    {
        if why == Some(AreaFault::Failed) {
            self.count = self.count.saturating_add(1);
            self.last = q;
        }
    }
}

impl<V: Vault> StoreForks<V> {
    /// The pages in cleared areas, `relseg` blocks of a fork in each file: none.
    pub fn new(alloc: Global, areas: DataAreas<V>, relseg: u32) -> StoreForks<V>
        requires relseg { IsRelseg relseg }
        requires bare { AreBare V.Vault areas }
        ensures areas { AreForksOf relseg areas result }
        ensures shown { ((q : ℕ) → IsSome (V.files (area_of areas q)))
            → ShowsParts V.Vault result empty }
        ensures none { result.faults.count ≡ 0 }
    {
        StoreForks {
            parts: [
                Forks::new(alloc, areas.data0, relseg),
                Forks::new(alloc, areas.data1, relseg),
                Forks::new(alloc, areas.data2, relseg),
                Forks::new(alloc, areas.data3, relseg),
            ],
            faults: AreaFaults { count: 0, last: 0 },
        }
    }

    /// What a fault of a call was: of the area that failed last, or want of memory.
    pub fn fault(&self, why: AreaFault) -> StoreFault
        ensures { result ≡ data_fault self.now.faults.last why }
    {
        data_fault(self.faults.last, why)
    }

    /// The areas again.
    pub fn into_areas(self) -> DataAreas<V>
        ensures { map (λ f. f.area) self.parts ≡ listed result }
    {
        let [part0, part1, part2, part3] = self.parts;
        DataAreas {
            data0: part0.area(),
            data1: part1.area(),
            data2: part2.area(),
            data3: part3.area(),
        }
    }
}

/// It shows the store of which its areas hold the parts. Of the areas only segment files of forks
/// change.
impl<V: Vault> Pages for StoreForks<V> {
    ghost shows = { λ forks store. ShowsParts V.Vault forks store };

    ghost keeps = { λ old new. KeepsAll V.Vault old new };

    ghost faults = { λ forks. forks.faults.count };

    ghost keeps_refl = { λ forks. all_none (ghosts_of V.files V.faults V.past) forks };

    ghost keeps_trans = { λ a b c first second.
        all_on (ghosts_of V.files V.faults V.past) a b c first second };

    fn blocks(&mut self, fork: ForkId) -> Result<Option<u32>, AreaFault> {
        let q = partition_of(fork.rel);
        let answer = self.parts[q as usize].blocks(fork);
        self.faults.note(q, answer.err());
        answer
    }

    fn read_block(&mut self, at: BlockId, into: &mut [u8; 8192]) -> Result<bool, AreaFault> {
        let fork = at.fork;
        let q = partition_of(fork.rel);
        let answer = self.parts[q as usize].read_block(at, into);
        self.faults.note(q, answer.err());
        answer
    }

    fn write_block(&mut self, at: BlockId, from: &[u8; 8192]) -> Result<(), AreaFault> {
        let fork = at.fork;
        let q = partition_of(fork.rel);
        let answer = self.parts[q as usize].write_block(at, from);
        self.faults.note(q, answer.err());
        answer
    }

    fn make(&mut self, fork: ForkId) -> Result<(), AreaFault> {
        let q = partition_of(fork.rel);
        let answer = self.parts[q as usize].make(fork);
        self.faults.note(q, answer.err());
        answer
    }

    fn cut(&mut self, fork: ForkId, to: u32) -> Result<(), AreaFault> {
        let q = partition_of(fork.rel);
        let answer = self.parts[q as usize].cut(fork, to);
        self.faults.note(q, answer.err());
        answer
    }

    fn remove(&mut self, fork: ForkId) -> Result<(), AreaFault> {
        let q = partition_of(fork.rel);
        let answer = self.parts[q as usize].remove(fork);
        self.faults.note(q, answer.err());
        answer
    }
}

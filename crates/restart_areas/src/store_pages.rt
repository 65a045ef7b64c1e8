//! The pages of a store in the segment files of its data areas.

ghost use Rattle.std.specs.Prelude.{◌≡◌, map};
ghost use Rattle.lsn_core.specs.Segment.{IsRelseg};
ghost use Rattle.lsn_core.specs.Store.{Store};
ghost use Rattle.rel_files.specs.Kept.{ghosts_of};
ghost use Rattle.data_areas.specs.Areas.{data_fault, listed};
ghost use Rattle.data_areas.specs.Stored.{AreForksOf};
ghost use Rattle.data_areas.specs.Kept.{all_none, all_on};
ghost use Rattle.restart_areas.specs.Pages.{HoldParts, ShowsPages, KeepsPages, seen};
ghost use Rattle.restart_areas.specs.Inside.{CountsCall};

use crate::calls::fault_of_data;
use data_areas::DataAreas;
use history::partitions::partition_of;
use lsn_core::{AreaFault, BlockId, ForkId, Pages, StoreFault};
use rel_files::Forks;
use std::alloc::Global;
use vault::Vault;

/// The pages of a store, in the segment files of its four data areas: a relation belongs to the
/// partition of its number modulo 4, with all its forks. It knows which area failed last.
#[derive(Drop)]
pub struct StorePages<V: Vault> {
    pub(crate) parts: [Forks<V>; 4],
    pub(crate) faults: CallFaults,
}

/// How many calls on areas failed, and the number of the area of the last one.
#[derive(Drop)]
pub struct CallFaults {
    count: u64,
    last: u32,
}

impl CallFaults {
    /// Counts a call on an area, where it failed.
    pub(crate) fn note(&mut self, q: u32, why: Option<AreaFault>)
        ensures { CountsCall q self.old self.new why }
    {
        if why == Some(AreaFault::Failed) {
            self.count = self.count.saturating_add(1);
            self.last = q;
        }
    }
}

impl<V: Vault> StorePages<V> {
    /// The pages that the segment files of these areas hold, `relseg` blocks of a fork in each
    /// file.
    pub fn new(alloc: Global, areas: DataAreas<V>, relseg: u32) -> StorePages<V>
        requires relseg { IsRelseg relseg }
        ensures areas { AreForksOf relseg areas (seen result) }
        ensures shown { (store : Store) → HoldParts V.Vault relseg areas store
            → ShowsPages V.Vault result store }
        ensures none { result.faults.count ≡ 0 }
    {
        StorePages {
            parts: [
                Forks::new(alloc, areas.data0, relseg),
                Forks::new(alloc, areas.data1, relseg),
                Forks::new(alloc, areas.data2, relseg),
                Forks::new(alloc, areas.data3, relseg),
            ],
            faults: CallFaults { count: 0, last: 0 },
        }
    }

    /// What a fault of a call was: of the area that failed last, or want of memory.
    pub fn fault(&self, why: AreaFault) -> StoreFault
        ensures { result ≡ data_fault self.now.faults.last why }
    {
        fault_of_data(self.faults.last, why)
    }

    /// The areas again.
    pub fn into_areas(self) -> DataAreas<V>
        ensures { map (λ f. f.area) self.parts ≡ listed result }
    {
        let [part0, part1, part2, part3] = self.parts;
        DataAreas {
            data0: part0.area(),
            data1: part1.area(),
            data2: part2.area(),
            data3: part3.area(),
        }
    }
}

/// It shows the store of which its areas hold the parts. Of the areas only segment files of forks
/// change.
impl<V: Vault> Pages for StorePages<V> {
    ghost shows = { λ pages store. ShowsPages V.Vault pages store };

    ghost keeps = { λ old new. KeepsPages V.Vault old new };

    ghost faults = { λ pages. pages.faults.count };

    ghost keeps_refl = { λ pages. all_none (ghosts_of V.files V.faults V.past) (seen pages) };

    ghost keeps_trans = { λ a b c first second.
        all_on (ghosts_of V.files V.faults V.past) (seen a) (seen b) (seen c) first second };

    fn blocks(&mut self, fork: ForkId) -> Result<Option<u32>, AreaFault> {
        let q = partition_of(fork.rel);
        let answer = self.parts[q as usize].blocks(fork);
        self.faults.note(q, answer.err());
        answer
    }

    fn read_block(&mut self, at: BlockId, into: &mut [u8; 8192]) -> Result<bool, AreaFault> {
        let fork = at.fork;
        let q = partition_of(fork.rel);
        let answer = self.parts[q as usize].read_block(at, into);
        self.faults.note(q, answer.err());
        answer
    }

    fn write_block(&mut self, at: BlockId, from: &[u8; 8192]) -> Result<(), AreaFault> {
        let fork = at.fork;
        let q = partition_of(fork.rel);
        let answer = self.parts[q as usize].write_block(at, from);
        self.faults.note(q, answer.err());
        answer
    }

    fn make(&mut self, fork: ForkId) -> Result<(), AreaFault> {
        let q = partition_of(fork.rel);
        let answer = self.parts[q as usize].make(fork);
        self.faults.note(q, answer.err());
        answer
    }

    fn cut(&mut self, fork: ForkId, to: u32) -> Result<(), AreaFault> {
        let q = partition_of(fork.rel);
        let answer = self.parts[q as usize].cut(fork, to);
        self.faults.note(q, answer.err());
        answer
    }

    fn remove(&mut self, fork: ForkId) -> Result<(), AreaFault> {
        let q = partition_of(fork.rel);
        let answer = self.parts[q as usize].remove(fork);
        self.faults.note(q, answer.err());
        answer
    }
}

//! A store of pages in segment files.

ghost use Rattle.std.specs.Prelude.{◌≡◌, ◌-◌, ◌<◌, ◌^◌, IfOk, OnOk, OnErr};
ghost use Rattle.lsn_core.specs.Causes.{HasCause};
ghost use Rattle.lsn_core.specs.Segment.{IsRelseg};
ghost use Rattle.lsn_core.specs.Store.{Store};
ghost use Rattle.lsn_core.specs.Blocks.{page_put, with_fork, with_cut, without_fork};
ghost use Rattle.lsn_core.specs.Shown.{Turns, CountsBlocks, ReadsBlock};
ghost use Rattle.vault.specs.Frame.{OnlyReads};
ghost use Rattle.vault.specs.Stops.{synced, Notes};
ghost use Rattle.rel_files.specs.Forks.{mended, page_over, IsTornPut, IsTornCut, IsTornRemoval};
ghost use Rattle.rel_files.specs.Shown.{AreFilesOf, HoldsStore, ShowsStore, KeepsOthers, Leaves};
ghost use Rattle.rel_files.specs.Shown.{CountsWhole, ReadsWhole, IsTornMake, HoldAlike};
ghost use Rattle.rel_files.specs.Shown.{AddsPut, AddsMake, AddsCut, AddsRemoval};
ghost use Rattle.rel_files.specs.Kept.{ghosts_of, keeps_none, keeps_on};

use crate::raw_calls::RawCalls;
use crate::relseg::Relseg;
use lsn_core::{AreaFault, BlockId, ForkId, Pages};
use std::alloc::Global;
use std::collections::BTreeMap;
use vault::Vault;

/// A store of pages kept as segment files in an area (PostgreSQL manual, Database File Layout). A
/// page that a failed write left short isn't counted, and the next write goes over it.
#[derive(Drop)]
pub struct Forks<V: Vault> {
    pub(crate) area: V,
    pub(crate) relseg: Relseg,
    /// The numbers of whole pages of forks that are there, as far as they were looked up.
    pub(crate) known: BTreeMap<ForkId, u32>,
    pub(crate) alloc: Global,
}

impl<V: Vault> Forks<V> {
    /// The store in an area's files, `relseg` blocks of a fork in each file.
    pub fn new(alloc: Global, area: V, relseg: u32) -> Forks<V>
        requires { IsRelseg relseg }
        ensures area { result.area ≡ area }
        ensures relseg { result.relseg ≡ relseg }
        ensures held { (s : Store) → AreFilesOf relseg (V.files area) s
            → HoldsStore V.Vault result s }
    {
        Forks {
            area,
            relseg: Relseg::new(relseg),
            known: BTreeMap::new(alloc),
            alloc,
        }
    }

    /// Files that hold a store may hold others, by how a short page is counted. The lengths that
    /// are known are right of all of them, where they are of one.
    pub fn know_all(&self)
        ensures { HoldAlike V.Vault self.now }
    {
        // known: a file has some blocks
        let _some = self.relseg.blocks();
    }

    /// Makes durable what was written since the last sync.
    pub fn sync(&mut self) -> Result<(), AreaFault>
        ensures held { Turns (HoldsStore V.Vault) self.old self.new (λ s. s) }
        ensures kept { KeepsOthers V.Vault self.old self.new }
        ensures same { V.files self.new.area ≡ V.files self.old.area }
        ensures noted { Notes (synced (V.files self.old.area))
            (V.past self.old.area) (V.past self.new.area) result }
        ensures tried { OnErr result (V.past self.new.area ≡ V.past self.old.area) }
        ensures cause { HasCause (V.faults self.old.area) (V.faults self.new.area) result }
    {
        self.area.sync()
    }

    /// The area again.
    pub fn area(self) -> V
        ensures { result ≡ self.area }
    {
        self.area
    }
}

impl<V: Vault> Pages for Forks<V> {
    ghost shows = { λ forks store. ShowsStore V.Vault forks store };

    ghost keeps = { λ old new. KeepsOthers V.Vault old new };

    ghost faults = { λ forks. V.faults forks.area };

    ghost keeps_refl = { λ forks. keeps_none (ghosts_of V.files V.faults V.past) forks };

    ghost keeps_trans = { λ a b c first second.
        keeps_on (ghosts_of V.files V.faults V.past) a b c first second };

    /// A page that a failed write left short isn't counted.
    fn blocks(&mut self, fork: ForkId) -> Result<Option<u32>, AreaFault>
        ensures blocks { IfOk result (CountsBlocks (ShowsStore V.Vault self.old) fork) }
        ensures same { Turns (ShowsStore V.Vault) self.old self.new (λ s. s) }
        ensures kept { KeepsOthers V.Vault self.old self.new }
        ensures cause { HasCause (V.faults self.old.area) (V.faults self.new.area) result }
        ensures reads { OnlyReads V.Vault self.old.area self.new.area }
        ensures whole { IfOk result (CountsWhole (HoldsStore V.Vault self.old) fork) }
        ensures held { Turns (HoldsStore V.Vault) self.old self.new (λ s. s) }
    {
        self.count(&fork)
    }

    /// Costs one call of the area where the fork's length is known.
    fn read_block(&mut self, at: BlockId, into: &mut [u8; 8192]) -> Result<bool, AreaFault>
        ensures read { IfOk result (ReadsBlock (ShowsStore V.Vault self.old) at into.old into.new) }
        ensures same { Turns (ShowsStore V.Vault) self.old self.new (λ s. s) }
        ensures kept { KeepsOthers V.Vault self.old self.new }
        ensures cause { HasCause (V.faults self.old.area) (V.faults self.new.area) result }
        ensures reads { OnlyReads V.Vault self.old.area self.new.area }
        ensures whole { IfOk result
            (ReadsWhole (HoldsStore V.Vault self.old) at into.old into.new) }
        ensures held { Turns (HoldsStore V.Vault) self.old self.new (λ s. s) }
    {
        self.read(&at, into)
    }

    /// Costs one call of the area where the fork's length is known, and one more for each page of
    /// zeros. After a failed write the whole pages that were there are as before, but for the one
    /// at the block; what stands behind them, up to the block, may be anything.
    fn write_block(&mut self, at: BlockId, from: &[u8; 8192]) -> Result<(), AreaFault>
        requires { at.block < 2 ^ 32 - 1 }
        ensures written { OnOk result
            (Turns (ShowsStore V.Vault) self.old self.new (page_put at from.now)) }
        ensures kept { KeepsOthers V.Vault self.old self.new }
        ensures cause { HasCause (V.faults self.old.area) (V.faults self.new.area) result }
        ensures put { OnOk result
            (Turns (HoldsStore V.Vault) self.old self.new (page_over at from.now)) }
        ensures torn { OnErr result
            (Leaves (HoldsStore V.Vault) self.old self.new (IsTornPut at)) }
        ensures events { AddsPut V.Vault at self.old self.new }
    {
        self.put(&at, from)
    }

    /// After a failed call the fork is there, empty, or isn't.
    fn make(&mut self, fork: ForkId) -> Result<(), AreaFault>
        ensures made { OnOk result
            (Turns (ShowsStore V.Vault) self.old self.new (λ s. with_fork s fork)) }
        ensures kept { KeepsOthers V.Vault self.old self.new }
        ensures cause { HasCause (V.faults self.old.area) (V.faults self.new.area) result }
        ensures there { OnOk result
            (Turns (HoldsStore V.Vault) self.old self.new (λ s. with_fork s fork)) }
        ensures torn { OnErr result
            (Leaves (HoldsStore V.Vault) self.old self.new (IsTornMake fork)) }
        ensures events { AddsMake V.Vault fork self.old self.new }
    {
        self.make_empty(&fork)
    }

    /// After a failed call at least the pages that were to stay are there.
    fn cut(&mut self, fork: ForkId, to: u32) -> Result<(), AreaFault>
        ensures cut { OnOk result
            (Turns (ShowsStore V.Vault) self.old self.new (λ s. with_cut s fork to)) }
        ensures kept { KeepsOthers V.Vault self.old self.new }
        ensures cause { HasCause (V.faults self.old.area) (V.faults self.new.area) result }
        ensures left { OnOk result
            (Turns (HoldsStore V.Vault) self.old self.new
            (λ s. with_cut (mended s fork) fork to)) }
        ensures torn { OnErr result
            (Leaves (HoldsStore V.Vault) self.old self.new (IsTornCut fork to)) }
        ensures events { AddsCut V.Vault fork to self.old self.new }
    {
        self.cut_to(&fork, to)
    }

    /// After a failed call the fork's first pages are there, so many, or the fork is gone.
    fn remove(&mut self, fork: ForkId) -> Result<(), AreaFault>
        ensures gone { OnOk result
            (Turns (ShowsStore V.Vault) self.old self.new (λ s. without_fork s fork)) }
        ensures kept { KeepsOthers V.Vault self.old self.new }
        ensures cause { HasCause (V.faults self.old.area) (V.faults self.new.area) result }
        ensures away { OnOk result
            (Turns (HoldsStore V.Vault) self.old self.new (λ s. without_fork s fork)) }
        ensures torn { OnErr result
            (Leaves (HoldsStore V.Vault) self.old self.new (IsTornRemoval fork)) }
        ensures events { AddsRemoval V.Vault fork self.old self.new }
    {
        self.take_away(&fork)
    }
}

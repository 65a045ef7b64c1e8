//! The calls of a store in segment files, as they are for every store that the files hold.

ghost use Rattle.std.specs.Prelude.{◌≡◌, ◌-◌, ◌<◌, ◌^◌, IfOk, OnOk, OnErr};
ghost use Rattle.lsn_core.specs.Causes.{HasCause};
ghost use Rattle.lsn_core.specs.Blocks.{with_fork, with_cut, without_fork};
ghost use Rattle.lsn_core.specs.Shown.{Turns};
ghost use Rattle.vault.specs.Frame.{OnlyReads};
ghost use Rattle.rel_files.specs.Shown.{AddsPut, AddsMake, AddsCut, AddsRemoval};
ghost use Rattle.rel_files.specs.Forks.{mended, page_over, IsTornPut, IsTornCut, IsTornRemoval};
ghost use Rattle.rel_files.specs.Shown.{HoldsStore, KeepsOthers, Leaves, IsTornMake};
ghost use Rattle.rel_files.specs.Shown.{CountsWhole, ReadsWhole};
ghost use Rattle.rel_files.specs.Inside.{Learns};

use crate::cutting::Cutting;
use crate::finding::Finding;
use crate::forks::Forks;
use crate::known::{find, forget, note};
use crate::one_file::OneFile;
use crate::putting::Putting;
use lsn_core::{AreaFault, BlockId, ForkId};
use vault::Vault;

/// The calls of a store in segment files.
pub(crate) trait RawCalls {
    /// How many whole pages a fork has. None where it isn't there.
    fn count(&mut self, fork: &ForkId) -> Result<Option<u32>, AreaFault>;

    /// Reads a whole page. False where there is none at the block.
    fn read(&mut self, at: &BlockId, into: &mut [u8; 8192]) -> Result<bool, AreaFault>;

    /// Puts a page at a block.
    fn put(&mut self, at: &BlockId, from: &[u8; 8192]) -> Result<(), AreaFault>
        requires { at.now.block < 2 ^ 32 - 1 };

    /// Makes a fork that isn't there.
    fn make_empty(&mut self, fork: &ForkId) -> Result<(), AreaFault>;

    /// Cuts a fork to so many pages, and a short page behind them too.
    fn cut_to(&mut self, fork: &ForkId, to: u32) -> Result<(), AreaFault>;

    /// Removes a fork.
    fn take_away(&mut self, fork: &ForkId) -> Result<(), AreaFault>;
}

impl<V: Vault> RawCalls for Forks<V> {
    fn count(&mut self, fork: &ForkId) -> Result<Option<u32>, AreaFault>
        ensures whole { IfOk result (CountsWhole (HoldsStore V.Vault self.old) fork.now) }
        ensures held { Turns (HoldsStore V.Vault) self.old self.new (λ s. s) }
        ensures kept { KeepsOthers V.Vault self.old self.new }
        ensures reads { OnlyReads V.Vault self.old.area self.new.area }
        ensures cause { HasCause (V.faults self.old.area) (V.faults self.new.area) result }
        ensures known { IfOk result (λ told. Learns fork.now told self.old.known self.new.known) }
    {
        if let Some(count) = find(&self.known, fork) {
            return Ok(Some(count));
        }
        let count = self.area.count_pages(self.alloc, self.relseg, fork)?;
        if let Some(count) = count {
            note(&mut self.known, fork, count)?;
        }
        Ok(count)
    }

    fn read(&mut self, at: &BlockId, into: &mut [u8; 8192]) -> Result<bool, AreaFault>
        ensures whole { IfOk result
            (ReadsWhole (HoldsStore V.Vault self.old) at.now into.old into.new) }
        ensures held { Turns (HoldsStore V.Vault) self.old self.new (λ s. s) }
        ensures kept { KeepsOthers V.Vault self.old self.new }
        ensures reads { OnlyReads V.Vault self.old.area self.new.area }
        ensures cause { HasCause (V.faults self.old.area) (V.faults self.new.area) result }
    {
        let count = self.count(&at.fork)?.unwrap_or(0);
        if at.block >= count {
            return Ok(false);
        }
        self.area.read_page(self.alloc, self.relseg, at, into)
    }

    fn put(&mut self, at: &BlockId, from: &[u8; 8192]) -> Result<(), AreaFault>
        requires { at.now.block < 2 ^ 32 - 1 }
        ensures put { OnOk result
            (Turns (HoldsStore V.Vault) self.old self.new (page_over at.now from.now)) }
        ensures torn { OnErr result
            (Leaves (HoldsStore V.Vault) self.old self.new (IsTornPut at.now)) }
        ensures events { AddsPut V.Vault at.now self.old self.new }
        ensures kept { KeepsOthers V.Vault self.old self.new }
        ensures cause { HasCause (V.faults self.old.area) (V.faults self.new.area) result }
    {
        let count = self.count(&at.fork)?.unwrap_or(0);
        forget(&mut self.known, &at.fork);
        self.area
            .put_page(self.alloc, self.relseg, count, at, from)?;
        // without memory the number is looked up again
        note(&mut self.known, &at.fork, count.max(at.block + 1)).ok();
        Ok(())
    }

    fn make_empty(&mut self, fork: &ForkId) -> Result<(), AreaFault>
        ensures there { OnOk result
            (Turns (HoldsStore V.Vault) self.old self.new (λ s. with_fork s fork.now)) }
        ensures torn { OnErr result
            (Leaves (HoldsStore V.Vault) self.old self.new (IsTornMake fork.now)) }
        ensures events { AddsMake V.Vault fork.now self.old self.new }
        ensures kept { KeepsOthers V.Vault self.old self.new }
        ensures cause { HasCause (V.faults self.old.area) (V.faults self.new.area) result }
    {
        if self.count(fork)?.is_some() {
            return Ok(());
        }
        forget(&mut self.known, fork);
        self.area.make_first(self.alloc, self.relseg, fork)?;
        // without memory the number is looked up again
        note(&mut self.known, fork, 0).ok();
        Ok(())
    }

    fn cut_to(&mut self, fork: &ForkId, to: u32) -> Result<(), AreaFault>
        ensures left { OnOk result
            (Turns (HoldsStore V.Vault) self.old self.new
            (λ s. with_cut (mended s fork.now) fork.now to)) }
        ensures torn { OnErr result
            (Leaves (HoldsStore V.Vault) self.old self.new (IsTornCut fork.now to)) }
        ensures events { AddsCut V.Vault fork.now to self.old self.new }
        ensures kept { KeepsOthers V.Vault self.old self.new }
        ensures cause { HasCause (V.faults self.old.area) (V.faults self.new.area) result }
    {
        let Some(count) = self.count(fork)? else {
            return Ok(());
        };
        forget(&mut self.known, fork);
        self.area
            .cut_pages(self.alloc, self.relseg, count, fork, to)?;
        // without memory the number is looked up again
        note(&mut self.known, fork, count.min(to)).ok();
        Ok(())
    }

    fn take_away(&mut self, fork: &ForkId) -> Result<(), AreaFault>
        ensures away { OnOk result
            (Turns (HoldsStore V.Vault) self.old self.new (λ s. without_fork s fork.now)) }
        ensures torn { OnErr result
            (Leaves (HoldsStore V.Vault) self.old self.new (IsTornRemoval fork.now)) }
        ensures events { AddsRemoval V.Vault fork.now self.old self.new }
        ensures kept { KeepsOthers V.Vault self.old self.new }
        ensures cause { HasCause (V.faults self.old.area) (V.faults self.new.area) result }
    {
        let Some(count) = self.count(fork)? else {
            return Ok(());
        };
        forget(&mut self.known, fork);
        self.area.remove_pages(self.alloc, self.relseg, count, fork)
    }
}

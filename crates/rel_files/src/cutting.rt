//! Forks cut and removed, from the last file down.

ghost use Rattle.std.specs.Prelude.{◌≤◌, min, OnOk, OnErr};
ghost use Rattle.lsn_core.specs.Causes.{HasCause};
ghost use Rattle.vault.specs.Frame.{ChangesOnly, Adds};
ghost use Rattle.rel_files.specs.Events.{IsFileRemoval, IsForkCut};
ghost use Rattle.rel_files.specs.Forks.{IsForkPath};
ghost use Rattle.rel_files.specs.Inside.{RemovesFrom, TearsFrom, Cuts, TearsCut, Removes};
ghost use Rattle.rel_files.specs.Inside.{TearsRemoval};

use crate::one_file::OneFile;
use crate::relseg::Relseg;
use lsn_core::{AreaFault, ForkId};
use std::alloc::Global;
use vault::Vault;

/// Forks cut and removed, from the last file down.
pub trait Cutting: Vault {
    /// Cuts a fork of so many whole pages to the first ones, and a short page behind them too.
    fn cut_pages(
        &mut self,
        alloc: Global,
        relseg: Relseg,
        count: u32,
        fork: &ForkId,
        to: u32,
    ) -> Result<(), AreaFault>;

    /// Removes a fork of so many whole pages.
    fn remove_pages(
        &mut self,
        alloc: Global,
        relseg: Relseg,
        count: u32,
        fork: &ForkId,
    ) -> Result<(), AreaFault>;

    /// Removes the files of a fork of at most so many from one on, the last one first.
    fn remove_files(
        &mut self,
        alloc: Global,
        relseg: Relseg,
        fork: &ForkId,
        first: u32,
        end: u32,
    ) -> Result<(), AreaFault>
        requires some { 1 ≤ first }
        requires order { first ≤ end };
}

impl<V: Vault> Cutting for V {
    fn cut_pages(
        &mut self,
        alloc: Global,
        relseg: Relseg,
        count: u32,
        fork: &ForkId,
        to: u32,
    ) -> Result<(), AreaFault>
        ensures cut { OnOk result (Cuts V.Vault relseg count fork.now to self.old self.new) }
        ensures torn { OnErr result (TearsCut V.Vault relseg count fork.now to self.old self.new) }
        ensures frame { ChangesOnly V.Vault IsForkPath self.old self.new }
        ensures events { Adds (IsForkCut relseg fork.now (min count to))
            (V.past self.old) (V.past self.new) }
        ensures cause { HasCause (V.faults self.old) (V.faults self.new) result }
    {
        let left = count.min(to);
        let end = relseg.file_of(count).saturating_add(1);
        self.remove_files(alloc, relseg, fork, relseg.last_file(left) + 1, end)?;
        self.cut_last(alloc, relseg, fork, left)
    }

    fn remove_pages(
        &mut self,
        alloc: Global,
        relseg: Relseg,
        count: u32,
        fork: &ForkId,
    ) -> Result<(), AreaFault>
        ensures gone { OnOk result (Removes V.Vault relseg count fork.now self.old self.new) }
        ensures torn { OnErr result (TearsRemoval V.Vault relseg count fork.now self.old self.new) }
        ensures frame { ChangesOnly V.Vault IsForkPath self.old self.new }
        ensures events { Adds (IsFileRemoval fork.now 0) (V.past self.old) (V.past self.new) }
        ensures cause { HasCause (V.faults self.old) (V.faults self.new) result }
    {
        let end = relseg.file_of(count).saturating_add(1);
        self.remove_files(alloc, relseg, fork, 1, end)?;
        self.remove_first(alloc, relseg, fork)
    }

    fn remove_files(
        &mut self,
        alloc: Global,
        relseg: Relseg,
        fork: &ForkId,
        first: u32,
        end: u32,
    ) -> Result<(), AreaFault>
        requires some { 1 ≤ first }
        requires order { first ≤ end }
        ensures gone { OnOk result
            (RemovesFrom V.Vault relseg fork.now first end self.old self.new) }
        ensures torn { OnErr result
            (TearsFrom V.Vault relseg fork.now first end self.old self.new) }
        ensures frame { ChangesOnly V.Vault IsForkPath self.old self.new }
        ensures events { Adds (IsFileRemoval fork.now first) (V.past self.old) (V.past self.new) }
        ensures cause { HasCause (V.faults self.old) (V.faults self.new) result }
    {
        let mut end = end;
        while end > first {
            end -= 1;
            self.remove_last(alloc, relseg, fork, end)?;
        }
        Ok(())
    }
}

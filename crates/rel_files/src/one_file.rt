//! One call on one segment file of a fork.

ghost use Rattle.std.specs.Prelude.{◌≡◌, ◌+◌, ◌-◌, ◌^◌, ◌<◌, ◌≤◌, false, IfOk, OnOk, OnErr};
ghost use Rattle.lsn_core.specs.Causes.{HasCause};
ghost use Rattle.lsn_core.specs.Names.{fork_path_bytes, IsNamed};
ghost use Rattle.vault.specs.Area.{IsSizeIn};
ghost use Rattle.vault.specs.Frame.{OnlyReads, ChangesOnly, Adds};
ghost use Rattle.rel_files.specs.Events.{IsPageWrite, IsMake, IsFileRemoval, IsFileCut};
ghost use Rattle.rel_files.specs.Forks.{IsForkPath};
ghost use Rattle.rel_files.specs.Inside.{ReadsPage, PutsNext, TearsNext, Makes, TearsMake};
ghost use Rattle.rel_files.specs.Inside.{RemovesFrom, TearsFrom, RemovesFirst, LeavesFirst};
ghost use Rattle.rel_files.specs.Inside.{CutsLast, LeavesLast};

use crate::relseg::Relseg;
use lsn_core::{AreaFault, BlockId, ForkId, NoMemory, Text, fork_path};
use std::alloc::Global;
use vault::Vault;

/// The path of a segment file of a fork.
fn segment_path(alloc: Global, fork: &ForkId, seg: u32) -> Result<Text, NoMemory>
    ensures named { IsNamed fork.now seg }
    ensures path { IfOk result (λ path. path ≡ fork_path_bytes fork.now seg false) }
{
    // known: the numbers of a relation fit, and aren't 0
    let _numbers = (fork.rel.db(), fork.rel.rel());
    fork_path(alloc, *fork, seg, false)
}

/// Calls on one segment file of a fork.
pub trait OneFile: Vault {
    /// How many bytes a segment file has. None where it isn't there.
    fn segment_size(
        &mut self,
        alloc: Global,
        fork: &ForkId,
        seg: u32,
    ) -> Result<Option<u64>, AreaFault>;

    /// Reads a page that is there.
    fn read_page(
        &mut self,
        alloc: Global,
        relseg: Relseg,
        at: &BlockId,
        into: &mut [u8; 8192],
    ) -> Result<bool, AreaFault>;

    /// Writes a page over one that is there, or right behind the last one.
    fn write_page(
        &mut self,
        alloc: Global,
        relseg: Relseg,
        at: &BlockId,
        from: &[u8; 8192],
    ) -> Result<(), AreaFault>
        requires { at.now.block < 2 ^ 32 - 1 };

    /// Makes the first file of a fork, of no bytes.
    fn make_first(&mut self, alloc: Global, relseg: Relseg, fork: &ForkId) -> Result<(), AreaFault>;

    /// Removes the last file of a fork, not its first one, where it has no more.
    fn remove_last(
        &mut self,
        alloc: Global,
        relseg: Relseg,
        fork: &ForkId,
        seg: u32,
    ) -> Result<(), AreaFault>
        requires { 1 ≤ seg };

    /// Removes the one file of a fork.
    fn remove_first(
        &mut self,
        alloc: Global,
        relseg: Relseg,
        fork: &ForkId,
    ) -> Result<(), AreaFault>;

    /// Cuts the last file of a fork, so that so many of the fork's whole pages are left.
    fn cut_last(
        &mut self,
        alloc: Global,
        relseg: Relseg,
        fork: &ForkId,
        left: u32,
    ) -> Result<(), AreaFault>;
}

impl<V: Vault> OneFile for V {
    fn segment_size(
        &mut self,
        alloc: Global,
        fork: &ForkId,
        seg: u32,
    ) -> Result<Option<u64>, AreaFault>
        ensures named { IsNamed fork.now seg }
        ensures size { IfOk result
            (IsSizeIn (V.files self.old) (fork_path_bytes fork.now seg false)) }
        ensures reads { OnlyReads V.Vault self.old self.new }
        ensures cause { HasCause (V.faults self.old) (V.faults self.new) result }
    {
        let path = segment_path(alloc, fork, seg)?;
        self.size(path.as_bytes())
    }

    fn read_page(
        &mut self,
        alloc: Global,
        relseg: Relseg,
        at: &BlockId,
        into: &mut [u8; 8192],
    ) -> Result<bool, AreaFault>
        ensures read { IfOk result (ReadsPage V.Vault relseg self.old at.now into.old into.new) }
        ensures reads { OnlyReads V.Vault self.old self.new }
        ensures cause { HasCause (V.faults self.old) (V.faults self.new) result }
    {
        let path = segment_path(alloc, &at.fork, relseg.file_of(at.block))?;
        let count = self.read_at(path.as_bytes(), relseg.place_of(at.block), into)?;
        Ok(count == 8192)
    }

    fn write_page(
        &mut self,
        alloc: Global,
        relseg: Relseg,
        at: &BlockId,
        from: &[u8; 8192],
    ) -> Result<(), AreaFault>
        requires { at.now.block < 2 ^ 32 - 1 }
        ensures put { OnOk result (PutsNext V.Vault relseg at.now from.now self.old self.new) }
        ensures torn { OnErr result (TearsNext V.Vault relseg at.now self.old self.new) }
        ensures frame { ChangesOnly V.Vault IsForkPath self.old self.new }
        ensures events { Adds (IsPageWrite relseg at.now.fork at.now.block)
            (V.past self.old) (V.past self.new) }
        ensures cause { HasCause (V.faults self.old) (V.faults self.new) result }
    {
        let path = segment_path(alloc, &at.fork, relseg.file_of(at.block))?;
        self.write_at(path.as_bytes(), relseg.place_of(at.block), from)
    }

    fn make_first(&mut self, alloc: Global, relseg: Relseg, fork: &ForkId) -> Result<(), AreaFault>
        ensures made { OnOk result (Makes V.Vault relseg fork.now self.old self.new) }
        ensures torn { OnErr result (TearsMake V.Vault relseg fork.now self.old self.new) }
        ensures frame { ChangesOnly V.Vault IsForkPath self.old self.new }
        ensures events { Adds (IsMake fork.now) (V.past self.old) (V.past self.new) }
        ensures cause { HasCause (V.faults self.old) (V.faults self.new) result }
    {
        // known: a file has some blocks
        let _some = relseg.blocks();
        let path = segment_path(alloc, fork, 0)?;
        self.write_at(path.as_bytes(), 0, &[])
    }

    fn remove_last(
        &mut self,
        alloc: Global,
        relseg: Relseg,
        fork: &ForkId,
        seg: u32,
    ) -> Result<(), AreaFault>
        requires { 1 ≤ seg }
        ensures gone { OnOk result
            (RemovesFrom V.Vault relseg fork.now seg (seg + 1) self.old self.new) }
        ensures torn { OnErr result
            (TearsFrom V.Vault relseg fork.now seg (seg + 1) self.old self.new) }
        ensures frame { ChangesOnly V.Vault IsForkPath self.old self.new }
        ensures events { Adds (IsFileRemoval fork.now seg) (V.past self.old) (V.past self.new) }
        ensures cause { HasCause (V.faults self.old) (V.faults self.new) result }
    {
        // known: a file has some blocks
        let _some = relseg.blocks();
        let path = segment_path(alloc, fork, seg)?;
        self.remove(path.as_bytes())
    }

    fn remove_first(
        &mut self,
        alloc: Global,
        relseg: Relseg,
        fork: &ForkId,
    ) -> Result<(), AreaFault>
        ensures gone { OnOk result (RemovesFirst V.Vault relseg fork.now self.old self.new) }
        ensures torn { OnErr result (LeavesFirst V.Vault relseg fork.now self.old self.new) }
        ensures frame { ChangesOnly V.Vault IsForkPath self.old self.new }
        ensures events { Adds (IsFileRemoval fork.now 0) (V.past self.old) (V.past self.new) }
        ensures cause { HasCause (V.faults self.old) (V.faults self.new) result }
    {
        // known: a file has some blocks
        let _some = relseg.blocks();
        let path = segment_path(alloc, fork, 0)?;
        self.remove(path.as_bytes())
    }

    fn cut_last(
        &mut self,
        alloc: Global,
        relseg: Relseg,
        fork: &ForkId,
        left: u32,
    ) -> Result<(), AreaFault>
        ensures cut { OnOk result (CutsLast V.Vault relseg fork.now left self.old self.new) }
        ensures torn { OnErr result (LeavesLast V.Vault relseg fork.now left self.old self.new) }
        ensures frame { ChangesOnly V.Vault IsForkPath self.old self.new }
        ensures events { Adds (IsFileCut relseg fork.now left) (V.past self.old) (V.past self.new) }
        ensures cause { HasCause (V.faults self.old) (V.faults self.new) result }
    {
        let seg = relseg.last_file(left);
        let before = u64::from(seg) * u64::from(relseg.blocks());
        let path = segment_path(alloc, fork, seg)?;
        self.cut(path.as_bytes(), (u64::from(left) - before) * 8192)
    }
}

//! An area of files in memory.

ghost use Rattle.std.specs.Prelude.{◌≡◌, ◌^◌, ◌≤◌, length, [], ◌∷◌, true, false, Option, Some, Ok, Err, IfOk, IfSome, OnOk, OnErr, refl};
ghost use Rattle.std.specs.Option.{option_map};
ghost use Rattle.std.specs.FinMap.{get, keys};
ghost use Rattle.lsn_core.specs.Causes.{HasCause};
ghost use Rattle.lsn_core.specs.declared.fault.AreaFault.TheVariants.{Failed, NoMemory};
ghost use Rattle.vault.specs.Area.{IsRead, after_write, after_cut, after_remove};
ghost use Rattle.vault.specs.Stops.{MayLeave};
ghost use Rattle.vault.specs.Record.{wrote, cut, removed, synced, told, files_by, seen_change, changes_of};
ghost use Rattle.memory_vault.specs.Stopped.{pick_of, left_by, IsRedone, IsFresh, IsSettled};
ghost use Rattle.memory_vault.specs.Memory.{new_area, read_count, IsCall, IsQuietCall, IsChange, IsMade, after_reading};

use crate::fails::FailList;
use crate::fuse::Fuse;
use crate::memory_files::{
    bytes_in, copy_from, count_in, count_read, cut_file, names_in, remove_file, size_in, write_file,
};
use crate::stopped::{Pick, durable_count};
use lsn_core::{AreaFault, NoMemory, Text};
use std::alloc::Global;
use std::collections::BTreeMap;
use std::marker::Model;
use vault::{Change, Vault};

/// An area of files in memory, which tells all that it holds and all that happened to it. It is
/// given the numbers of the calls that are to fail, counted from 1 over the calls of `Vault`. A
/// call whose number is not among them fails only for want of memory, or since the fuse that it
/// shares with other areas has burned. A call that fails changes nothing.
///
/// Files are written in place, so that a call costs what it moves. All that was ever written is
/// kept beside them, since a stop may undo it.
#[derive(Drop)]
pub struct MemVault {
    files: BTreeMap<Vec<u8>, Vec<u8>>,
    /// All changes and syncs, the oldest first.
    changes: Vec<Change>,
    /// How many bytes reads gave of each file.
    reads: BTreeMap<Vec<u8>, u64>,
    fails: FailList,
    fuse: Option<Fuse>,
    alloc: Global,
}

impl Model for MemVault {
    ghost use Rattle.std.specs.Prelude.{◌≡◌};
    ghost use Rattle.vault.specs.Record.{changes_of, files_by};
    ghost use Rattle.memory_vault.specs.Memory.{MemoryArea, memory_area_code, files_in, area_seen};

    ghost Value = { MemoryArea };

    ghost coded = { memory_area_code };

    ghost view = { λ v. area_seen v.files v.changes.items v.reads v.fails v.fuse };

    ghost invariant = { λ v. files_in v.files ≡ files_by (changes_of v.changes.items) };
}

impl MemVault {
    /// An area without files, and the numbers of the calls that are to fail.
    pub fn new(alloc: Global, fails: &[u64]) -> Result<MemVault, NoMemory>
        ensures { IfOk result (λ area. area ≡ new_area fails.now) }
    {
        Ok(MemVault {
            files: BTreeMap::new(alloc),
            changes: Vec::new(alloc),
            reads: BTreeMap::new(alloc),
            fails: FailList::new(alloc, fails)?,
            fuse: None,
            alloc,
        })
    }

    /// How many bytes reads gave of a file since the area was made, at most `u64::MAX`.
    pub fn bytes_read(&self, name: &[u8]) -> u64
        ensures { result ≡ read_count self.now.reads name.now }
    {
        count_in(&self.reads, name)
    }

    /// What a stop might leave of it at this moment, as a new area that holds nothing else, with no
    /// fuse and no call that is to fail. `pick` modulo 4 says what a stop keeps of what happened
    /// since the last sync: 0 nothing, 1 all, 2 of each write the first half, 3 of each write as
    /// many bytes 0xA5. Cuts and removals are kept but for 0.
    pub fn stopped(&self, pick: u64) -> Result<MemVault, NoMemory>
        ensures files { IfOk result (λ area. area.files ≡ left_by (pick_of pick) self.now.changes) }
        ensures left { IfOk result (λ area. MayLeave (told self.now.changes) area.files) }
        ensures settled { IfOk result IsSettled }
        ensures fresh { IfOk result IsFresh }
    {
        let (durable, since) = self.changes.split_at(durable_count(&self.changes));
        let mut area = MemVault::new(self.alloc, &[])?;
        area.redo_all(durable, Pick::All)?;
        area.redo_all(since, Pick::of(pick))?;
        area.settle()?;
        Ok(area)
    }

    /// How many calls failed.
    pub(crate) fn faults(&self) -> u64
        ensures { result ≡ self.now.faults }
    {
        self.fails.faults()
    }

    /// Gives the area a fuse, in place of the one that it had.
    pub(crate) fn set_fuse(&mut self, fuse: Fuse)
        ensures { self.new ≡ record self.old { fuse = Some fuse.burned } }
    {
        self.fuse = Some(fuse);
    }

    /// Counts a call, which fails where that is wanted or a fuse has burned.
    fn begin(&mut self) -> Result<(), AreaFault>
        ensures call { IsQuietCall self.old self.new result }
        ensures cause { HasCause self.old.faults self.new.faults result }
    {
        if self.fails.next() {
            return Err(AreaFault::Failed);
        }
        if let Some(fuse) = &mut self.fuse {
            if !fuse.passes() {
                self.fails.count_fault();
                return Err(AreaFault::Failed);
            }
        }
        Ok(())
    }

    /// Writes a piece over a file.
    fn write(&mut self, name: &[u8], at: u64, piece: &[u8]) -> Result<(), NoMemory>
        ensures { IsMade (wrote name.now at piece.now) self.old self.new result }
    {
        let change = Change::Wrote(name.to_vec(self.alloc)?, at, piece.to_vec(self.alloc)?);
        self.changes.push(change)?;
        if let Err(fault) = write_file(self.alloc, &mut self.files, name, at, piece) {
            self.changes.pop();
            return Err(fault);
        }
        Ok(())
    }

    /// Cuts a file to its first bytes.
    fn cut_to(&mut self, name: &[u8], size: u64) -> Result<(), NoMemory>
        ensures { IsMade (cut name.now size) self.old self.new result }
    {
        self.changes
            .push(Change::Cut(name.to_vec(self.alloc)?, size))?;
        cut_file(&mut self.files, name, size);
        Ok(())
    }

    /// Takes a file away.
    fn take_away(&mut self, name: &[u8]) -> Result<(), NoMemory>
        ensures { IsMade (removed name.now) self.old self.new result }
    {
        self.changes
            .push(Change::Removed(name.to_vec(self.alloc)?))?;
        remove_file(&mut self.files, name);
        Ok(())
    }

    /// Makes changes again, of each what a stop keeps.
    fn redo_all(&mut self, changes: &[Change], pick: Pick) -> Result<(), NoMemory>
        ensures { OnOk result (IsRedone pick (changes_of changes.now) self.old self.new) }
    {
        for change in changes {
            self.redo(change, pick)?;
        }
        Ok(())
    }

    /// Makes a change again, as far as a stop keeps it.
    fn redo(&mut self, change: &Change, pick: Pick) -> Result<(), NoMemory>
        ensures { OnOk result (IsRedone pick (seen_change change.now ∷ []) self.old self.new) }
    {
        if let Pick::Nothing = pick {
            return Ok(());
        }
        match change {
            Change::Wrote(name, at, piece) => self.write(name, *at, &pick.kept(self.alloc, piece)?),
            Change::Cut(name, size) => self.cut_to(name, *size),
            Change::Removed(name) => self.take_away(name),
            Change::Synced => Ok(()),
        }
    }

    /// Keeps that all changes so far are durable: the files are what these changes made.
    fn settle(&mut self) -> Result<(), NoMemory>
        ensures made { IsMade synced self.old self.new result }
        ensures settled { self.old.files ≡ files_by self.old.changes }
    {
        self.changes.push(Change::Synced)?;
        Ok(())
    }
}

impl Vault for MemVault {
    ghost files = { λ v. Some v.files };

    ghost faults = { λ v. v.faults };

    ghost past = { λ v. Some (told v.changes) };

    ghost tells_alike = { λ a b. refl };

    fn names(&mut self, alloc: Global) -> Result<Vec<Text>, AreaFault>
        ensures call { IsQuietCall self.old self.new result }
        ensures names { IfOk result (λ names. names.items ≡ keys self.old.files) }
        ensures cause { HasCause self.old.faults self.new.faults result }
    {
        self.begin()?;
        Ok(names_in(alloc, &self.files)?)
    }

    fn size(&mut self, name: &[u8]) -> Result<Option<u64>, AreaFault>
        ensures call { IsQuietCall self.old self.new result }
        ensures size { IfOk result (λ n. n ≡ option_map length (get self.old.files name.now)) }
        ensures cause { HasCause self.old.faults self.new.faults result }
    {
        self.begin()?;
        Ok(size_in(&self.files, name))
    }

    fn read_at(&mut self, name: &[u8], at: u64, into: &mut [u8]) -> Result<u32, AreaFault>
        requires { length into.old ≤ 2 ^ 20 }
        ensures call { IsCall (after_reading name.now) self.old self.new result }
        ensures count { IfOk result (λ count. count ≤ length into.old) }
        ensures read { IfOk result (IsRead self.old.files name.now at into.old into.new) }
        ensures cause { HasCause self.old.faults self.new.faults result }
    {
        self.begin()?;
        let count = copy_from(bytes_in(&self.files, name), at, into);
        count_read(self.alloc, &mut self.reads, name, count)?;
        Ok(count)
    }

    fn write_at(&mut self, name: &[u8], at: u64, piece: &[u8]) -> Result<(), AreaFault>
        ensures call { IsChange (wrote name.now at piece.now) self.old self.new result }
        ensures cause { HasCause self.old.faults self.new.faults result }
    {
        self.begin()?;
        Ok(self.write(name, at, piece)?)
    }

    fn cut(&mut self, name: &[u8], size: u64) -> Result<(), AreaFault>
        ensures call { IsChange (cut name.now size) self.old self.new result }
        ensures cause { HasCause self.old.faults self.new.faults result }
    {
        self.begin()?;
        Ok(self.cut_to(name, size)?)
    }

    fn remove(&mut self, name: &[u8]) -> Result<(), AreaFault>
        ensures call { IsChange (removed name.now) self.old self.new result }
        ensures cause { HasCause self.old.faults self.new.faults result }
    {
        self.begin()?;
        Ok(self.take_away(name)?)
    }

    fn sync(&mut self) -> Result<(), AreaFault>
        ensures call { IsChange synced self.old self.new result }
        ensures settled { OnOk result (self.old.files ≡ files_by self.old.changes) }
        ensures cause { HasCause self.old.faults self.new.faults result }
    {
        self.begin()?;
        Ok(self.settle()?)
    }
}

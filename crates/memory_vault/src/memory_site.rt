//! A site in memory.

ghost use Rattle.std.specs.Prelude.{◌≡◌, ◌≤◌, ℕ, List, [], false, true, bytes_eq, position};
ghost use Rattle.std.specs.Prelude.{Option, Some, None, IsSome, IfOk, OnOk, OnErr};
ghost use Rattle.std.specs.FinMap.{empty};
ghost use Rattle.lsn_core.specs.Causes.{HasCause};
ghost use Rattle.memory_vault.specs.Fails.{IsNew, HasCounted};
ghost use Rattle.vault.specs.Site.{AllHome};
ghost use Rattle.memory_vault.specs.MemorySite.{new_state, areas_of, IsAreaOf, LendsArea, KeepsArea};
ghost use Rattle.memory_vault.specs.MemorySite.{IsShareOf, IsMadeUnlessPlaced, is_failed};

use crate::fails::FailList;
use crate::fuse::Fuse;
use crate::memory::MemVault;
use lsn_core::{AreaFault, NoMemory};
use std::alloc::Global;
use vault::{Shelf, Shelved, Site};

/// A site in memory. An area that nobody placed is empty and at home, and none of its calls is to
/// fail. The site is given the numbers of the calls of `take` that are to fail, counted from 1;
/// another one fails only for want of memory.
#[derive(Drop)]
pub struct MemSite {
    shelf: Shelf<MemVault>,
    fails: FailList,
    /// The fuse that each area is given when it is taken.
    fuse: Option<Fuse>,
    alloc: Global,
}

impl MemSite {
    /// A site whose areas are all at home and empty, and the numbers of the calls of `take` that
    /// are to fail.
    pub fn new(alloc: Global, fails: &[u64]) -> Result<MemSite, NoMemory>
        ensures areas { IfOk result (λ site. (name : List ℕ) → areas_of site name ≡ new_state) }
        ensures home { IfOk result (λ site. AllHome (areas_of site)) }
        ensures fails { IfOk result (λ site. IsNew fails.now site.fails) }
        ensures fuse { IfOk result (λ site. site.fuse ≡ None) }
    {
        Ok(MemSite {
            shelf: Shelf::new(alloc),
            fails: FailList::new(alloc, fails)?,
            fuse: None,
            alloc,
        })
    }

    /// The same, with no call of `take` that is to fail, and a fuse that its areas share: so many
    /// calls on all of them together pass, and every later one fails.
    pub fn fused(alloc: Global, calls: u64) -> Result<MemSite, NoMemory>
        ensures areas { IfOk result (λ site. (name : List ℕ) → areas_of site name ≡ new_state) }
        ensures home { IfOk result (λ site. AllHome (areas_of site)) }
        ensures fails { IfOk result (λ site. IsNew [] site.fails) }
        ensures fuse { IfOk result (λ site. IsSome site.fuse) }
    {
        let mut site = MemSite::new(alloc, &[])?;
        site.fuse = Some(Fuse::new(alloc, calls)?);
        Ok(site)
    }

    /// Places an area at its home, in place of what the site had under this name.
    pub fn set(&mut self, name: &[u8], area: MemVault) -> Result<(), NoMemory>
        ensures placed { OnOk result (KeepsArea name.now area self.old self.new) }
        ensures same { OnErr result (areas_of self.new ≡ areas_of self.old) }
        ensures home { AllHome (areas_of self.old) → AllHome (areas_of self.new) }
        ensures fails { self.new.fails ≡ self.old.fails }
        ensures fuse { self.new.fuse ≡ self.old.fuse }
    {
        self.shelf.set(name, area)
    }

    /// Takes an area from its place, and makes it if it has none.
    fn take_or_make(&mut self, name: &[u8]) -> Result<MemVault, NoMemory>
        requires { (areas_of self.old name.now).home ≡ true }
        ensures taken { IfOk result (IsAreaOf self.old name.now) }
        ensures away { OnOk result (LendsArea name.now self.old self.new) }
        ensures same { OnErr result (areas_of self.new ≡ areas_of self.old) }
        ensures made { IfOk result (IsMadeUnlessPlaced self.old name.now None) }
        ensures fails { self.new.fails ≡ self.old.fails }
        ensures fuse { self.new.fuse ≡ self.old.fuse }
    {
        if let Some(area) = self.shelf.take(name) {
            return Ok(area);
        }
        let area = MemVault::new(self.alloc, &[])?;
        self.shelf.make_place(name)?;
        Ok(area)
    }
}

/// Another share of a fuse, where there is one.
fn share_of(fuse: &Option<Fuse>) -> Result<Option<Fuse>, NoMemory>
    ensures { IfOk result (IsShareOf fuse.now) }
{
    match fuse {
        Some(fuse) => Ok(Some(fuse.share()?)),
        None => Ok(None),
    }
}

impl Shelved for MemVault {
    ghost fresh = { Some empty };

    fn count(&self) -> u64 {
        self.faults()
    }
}

impl Site for MemSite {
    type Area = MemVault;

    ghost areas = { areas_of };

    ghost take_faults = { λ s. s.fails.faults };

    fn take(&mut self, name: &[u8]) -> Result<MemVault, AreaFault>
        requires { (areas_of self.old name.now).home ≡ true }
        ensures taken { IfOk result (IsAreaOf self.old name.now) }
        ensures away { OnOk result (LendsArea name.now self.old self.new) }
        ensures same { OnErr result (areas_of self.new ≡ areas_of self.old) }
        ensures cause { HasCause self.old.fails.faults self.new.fails.faults result }
        ensures fails { HasCounted self.old.fails self.new.fails (is_failed result) }
        ensures made { IfOk result (IsMadeUnlessPlaced self.old name.now self.old.fuse) }
        ensures fused { IfOk result (λ area. IsSome self.old.fuse → area.fuse ≡ Some false) }
        ensures fuse { self.new.fuse ≡ self.old.fuse }
    {
        if self.fails.next() {
            return Err(AreaFault::Failed);
        }
        let share = share_of(&self.fuse)?;
        let mut area = self.take_or_make(name)?;
        if let Some(fuse) = share {
            area.set_fuse(fuse);
        }
        Ok(area)
    }

    fn give(&mut self, name: &[u8], area: MemVault)
        requires taken { (areas_of self.old name.now).home ≡ false }
        requires later { (areas_of self.old name.now).faults ≤ area.faults }
        ensures areas { KeepsArea name.now area self.old self.new }
        ensures fails { self.new.fails ≡ self.old.fails }
        ensures fuse { self.new.fuse ≡ self.old.fuse }
    {
        self.shelf.give(name, area);
    }
}

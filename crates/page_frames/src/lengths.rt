//! How many blocks each fork has.

ghost use Rattle.std.specs.Prelude.{◌≡◌, ◌<◌, ◌^◌, min, [], None, Some, IsSome, OnOk, OnErr, List, ℕ, true, take};
ghost use Rattle.std.specs.FinMap.{empty, get, insert, remove};
ghost use Rattle.std.specs.Option.{unwrap_or};
ghost use Rattle.lsn_core.specs.declared.ids.BlockId.{BlockId};
ghost use Rattle.lsn_core.specs.declared.ids.ForkId.{ForkId};
ghost use Rattle.lsn_core.specs.Blocks.{block_count, with_fork, with_cut, without_fork};
ghost use Rattle.page_frames.specs.Marks.{fork_marks};
ghost use Rattle.page_frames.specs.Overlay.{own_pages, pages_over, marks_over, HasSlot};
ghost use Rattle.page_frames.specs.Inside.{lengths_in, slots_in};

use crate::frames::Frames;
use lsn_core::{ForkId, NoMemory};
use std::collections::BTreeMap;

impl Frames {
    /// How many blocks a fork has. None exactly where there is no such fork.
    pub fn blocks(&self, fork: &ForkId) -> Option<u32>
        ensures length { result ≡ get self.now.lengths fork.now }
        ensures count { result ≡ block_count (own_pages self.now) fork.now }
    {
        match self.lengths.get(fork) {
            Some(length) => *length,
            None => None,
        }
    }

    /// A fork has so many blocks, where no block has a frame yet. Fails where memory ran out, and
    /// then changes nothing.
    pub fn set_length(&mut self, fork: &ForkId, count: u32) -> Result<(), NoMemory>
        requires { self.old.held ≡ empty }
        ensures lengths { OnOk result (self.new.lengths ≡ insert self.old.lengths fork.now count) }
        ensures same { OnErr result (self.new ≡ self.old) }
        ensures held { self.new.held ≡ self.old.held }
        ensures limit { self.new.limit ≡ self.old.limit }
    {
        enter_length(&mut self.lengths, fork, count)
    }

    /// Keeps the memory for the length of a fork, which need not be there. Fails where memory ran
    /// out; what was kept stays.
    pub fn reserve_fork(&mut self, fork: &ForkId) -> Result<(), NoMemory>
        ensures slot { OnOk result (HasSlot self.new fork.now) }
        ensures kept { (other : ForkId) → HasSlot self.old other → HasSlot self.new other }
        ensures lengths { self.new.lengths ≡ self.old.lengths }
        ensures held { self.new.held ≡ self.old.held }
        ensures queue { self.new.queue ≡ self.old.queue }
        ensures limit { self.new.limit ≡ self.old.limit }
    {
        enter_slot(&mut self.lengths, fork)
    }

    /// Makes an empty fork, where there is none of that name and memory was kept for it. Takes no
    /// memory.
    pub fn create(&mut self, fork: &ForkId)
        requires slot { HasSlot self.old fork.now }
        requires missing { get self.old.lengths fork.now ≡ None }
        ensures pages { (behind : BlockId → List ℕ)
            → pages_over behind self.new ≡ with_fork (pages_over behind self.old) fork.now }
        ensures marks { marks_over self.new
            ≡ insert (marks_over self.old) fork.now (fork_marks (marks_over self.old) fork.now) }
        ensures lengths { self.new.lengths ≡ insert self.old.lengths fork.now 0 }
        ensures slots { self.new.slots ≡ self.old.slots }
        ensures held { self.new.held ≡ self.old.held }
        ensures queue { self.new.queue ≡ self.old.queue }
        ensures limit { self.new.limit ≡ self.old.limit }
    {
        write_length(&mut self.lengths, fork, 0);
    }

    /// Leaves the first blocks of a fork that is there alone, so many, and all where it has fewer.
    /// Takes no memory.
    pub fn cut(&mut self, fork: &ForkId, count: u32)
        requires { IsSome (get self.old.lengths fork.now) }
        ensures pages { (behind : BlockId → List ℕ)
            → pages_over behind self.new ≡ with_cut (pages_over behind self.old) fork.now count }
        ensures marks { marks_over self.new ≡ insert (marks_over self.old) fork.now
            (take count (fork_marks (marks_over self.old) fork.now)) }
        ensures lengths { self.new.lengths ≡ insert self.old.lengths fork.now
            (min (unwrap_or (get self.old.lengths fork.now) 0) count) }
        ensures slots { self.new.slots ≡ self.old.slots }
        ensures held { self.new.held ≡ self.old.held }
        ensures queue { self.new.queue ≡ self.old.queue }
        ensures limit { self.new.limit ≡ self.old.limit }
    {
        let found = self.blocks(fork).unwrap_or(0);
        write_length(&mut self.lengths, fork, found.min(count));
    }

    /// Takes a fork away, with the memory for its length. Takes no memory.
    pub fn remove(&mut self, fork: &ForkId)
        ensures pages { (behind : BlockId → List ℕ)
            → pages_over behind self.new ≡ without_fork (pages_over behind self.old) fork.now }
        ensures marks { marks_over self.new ≡ remove (marks_over self.old) fork.now }
        ensures lengths { self.new.lengths ≡ remove self.old.lengths fork.now }
        ensures slots { self.new.slots ≡ remove self.old.slots fork.now }
        ensures held { self.new.held ≡ self.old.held }
        ensures queue { self.new.queue ≡ self.old.queue }
        ensures limit { self.new.limit ≡ self.old.limit }
    {
        remove_length(&mut self.lengths, fork);
    }
}

/// Puts a length into a map of lengths.
fn enter_length(
    lengths: &mut BTreeMap<ForkId, Option<u32>>,
    fork: &ForkId,
    count: u32,
) -> Result<(), NoMemory>
    ensures lengths { OnOk result
        (lengths_in lengths.new ≡ insert (lengths_in lengths.old) fork.now count) }
    ensures same { OnErr result (lengths_in lengths.new ≡ lengths_in lengths.old) }
    ensures slots { OnErr result (slots_in lengths.new ≡ slots_in lengths.old) }
{
    lengths.insert(*fork, Some(count))?;
    Ok(())
}

/// Keeps a slot for a fork.
fn enter_slot(lengths: &mut BTreeMap<ForkId, Option<u32>>, fork: &ForkId) -> Result<(), NoMemory>
    ensures slot { OnOk result (IsSome (get (slots_in lengths.new) fork.now)) }
    ensures kept { (other : ForkId) → IsSome (get (slots_in lengths.old) other)
        → IsSome (get (slots_in lengths.new) other) }
    ensures lengths { lengths_in lengths.new ≡ lengths_in lengths.old }
{
    if lengths.contains_key(fork) {
        return Ok(());
    }
    lengths.insert(*fork, None)?;
    Ok(())
}

/// Writes the length of a fork that has a slot.
pub(crate) fn write_length(lengths: &mut BTreeMap<ForkId, Option<u32>>, fork: &ForkId, count: u32)
    requires { IsSome (get (slots_in lengths.old) fork.now) }
    ensures lengths { lengths_in lengths.new ≡ insert (lengths_in lengths.old) fork.now count }
    ensures slots { slots_in lengths.new ≡ slots_in lengths.old }
{
    let Some(length) = lengths.get_mut(fork) else {
        unreachable!()
    };
    *length = Some(count);
}

/// Takes a fork's length away.
fn remove_length(lengths: &mut BTreeMap<ForkId, Option<u32>>, fork: &ForkId)
    ensures lengths { lengths_in lengths.new ≡ remove (lengths_in lengths.old) fork.now }
    ensures slots { slots_in lengths.new ≡ remove (slots_in lengths.old) fork.now }
{
    lengths.remove(fork);
}

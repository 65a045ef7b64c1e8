//! Where the blocks of a rebuilt file stand.

ghost use Rattle.std.specs.Prelude.{◌≡◌, ◌<◌, ◌≤◌, length, replicate, IfOk};
ghost use Rattle.std.specs.List.{list_any};
ghost use Rattle.incr_file.specs.Form.{rebuilt_length};
ghost use Rattle.incr_file.specs.Head.{IsHead};
ghost use Rattle.incr_file.specs.Reading.{HasPlaces};
ghost use Rattle.chain_files.specs.declared.slot.Slot.TheVariants.{Open as StaysOpen};
ghost use Rattle.chain_files.specs.declared.form.FileForm.TheVariants.{Part as PartOf};
ghost use Rattle.chain_files.specs.Inside.{FitsForm, slot_in, settled_slot, AreSettled, is_open};

use crate::form::FileForm;
use incr_file::{HeadView, IncrHead, block_place};
use lsn_core::NoMemory;
use std::alloc::Global;

/// Where a block of a rebuilt file stands. Members count from the oldest one, 0, and places are in
/// bytes.
#[derive(Clone, Copy, Debug, Drop)]
pub(crate) enum Slot {
    /// With members that weren't asked yet; where there are none, it is zeros.
    Open,
    /// Nowhere: it is zeros.
    Zeros,
    /// In the plain file of this member, from this place on.
    Plain(usize, u32),
    /// In the incremental file of this member, from this place on.
    Part(usize, u32),
}

/// Where a block stands by the form of this member's file.
fn slot_in(form: &FileForm, member: usize, block: u32) -> Slot
    requires form { FitsForm form.now }
    requires block { block < 131072 }
    ensures { result ≡ slot_in form.now member block }
{
    match form {
        FileForm::Absent => Slot::Zeros,
        FileForm::Plain(pages) if u64::from(block) < *pages => Slot::Plain(member, block * 8192),
        FileForm::Plain(_) => Slot::Zeros,
        FileForm::Part(view) => match block_place(view, block) {
            Some(at) => Slot::Part(member, at as u32),
            None if block < view.head.truncation => Slot::Open,
            None => Slot::Zeros,
        },
    }
}

/// Where a block stands after this member was asked for it, if it was open before.
fn settled_slot(slot: Slot, form: &FileForm, member: usize, block: u32) -> Slot
    requires form { FitsForm form.now }
    requires block { block < 131072 }
    ensures { result ≡ settled_slot form.now member block slot }
{
    match slot {
        Slot::Open => slot_in(form, member, block),
        settled => settled,
    }
}

/// Asks this member for the blocks that are open.
pub(crate) fn settle(slots: &mut [Slot], form: &FileForm, member: usize)
    requires form { FitsForm form.now }
    requires few { length slots.old ≤ 131072 }
    ensures { AreSettled form.now member slots.old slots.new }
{
    for block in 0..slots.len() {
        slots[block] = settled_slot(slots[block], form, member, block as u32);
    }
}

/// Whether a block is open.
pub(crate) fn has_open(slots: &[Slot]) -> bool
    ensures { result ≡ list_any is_open slots.now }
{
    slots.iter().any(|slot| matches!(slot, Slot::Open))
}

/// How many blocks the file has that is rebuilt of one with this head and of older ones.
fn rebuilt_length(head: &IncrHead) -> u32
    requires { IsHead head.now }
    ensures length { result ≡ rebuilt_length head.now }
    ensures most { result ≤ 131072 }
{
    match head.blocks.as_slice().last() {
        Some(last) => head.truncation.max(*last + 1),
        None => head.truncation,
    }
}

/// So many open blocks.
fn open_slots(alloc: Global, count: u32) -> Result<Vec<Slot>, NoMemory>
    ensures { IfOk result (λ slots. slots.items ≡ replicate count StaysOpen) }
{
    Ok(vec![in alloc; Slot::Open; count as usize]?)
}

/// Where the blocks of a file stand of which the newest member has a file with this head, so far as
/// that tells.
pub(crate) fn slots_of(alloc: Global, view: HeadView, newest: usize) -> Result<Vec<Slot>, NoMemory>
    requires head { IsHead view.head }
    requires places { HasPlaces view }
    ensures slots { IfOk result (λ slots. AreSettled (PartOf view) newest
        (replicate (rebuilt_length view.head) StaysOpen) slots.items) }
    ensures most { IfOk result (λ slots. length slots.items ≤ 131072) }
{
    let mut slots = open_slots(alloc, rebuilt_length(&view.head))?;
    settle(&mut slots, &FileForm::Part(view), newest);
    Ok(slots)
}

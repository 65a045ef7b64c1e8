//! The clock: which frames are given up so that others are free.

ghost use Rattle.std.specs.Prelude.{◌≡◌, ◌<◌, ◌≤◌, ◌++◌, length, take, map, not, ◌&&◌, if◌then◌else◌};
ghost use Rattle.std.specs.List.{filter};
ghost use Rattle.std.specs.declared.ops.Bound.TheVariants.{Included, Excluded, Unbounded};
ghost use Rattle.std.specs.BTreeMap.Range.{entries_between};
ghost use Rattle.std.specs.FinMap.{entries};
ghost use Rattle.page_frames.specs.Framed.{block_cmp, HoldsAlike, IsAlike};
ghost use Rattle.page_frames.specs.Sweep.{is_among, round, victims, picked, hand_behind};
ghost use Rattle.page_frames.specs.Inside.{held_in};

use crate::few::Few;
use crate::frames::{Frame, Frames, set_used};
use lsn_core::BlockId;
use std::collections::BTreeMap;
use std::ops::Bound;

impl Frames {
    /// The blocks whose frames a sweep gives up so that so many are free, none of the blocks apart.
    pub fn victims(&self, apart: &[BlockId], count: usize) -> Few
        requires { count ≤ 4 }
        ensures { result ≡ victims apart.now count self.now }
    {
        let mut few = Few::none(self.hand);
        pick_round(&self.frames, &self.hand, apart, false, count, &mut few);
        pick_round(&self.frames, &self.hand, apart, true, count, &mut few);
        few
    }

    /// The same, and then the hand stands at the last of them, and the frames that it passed are
    /// unused.
    pub fn sweep(&mut self, apart: &[BlockId], count: usize) -> Few
        requires { count ≤ 4 }
        ensures victims { result ≡ victims apart.now count self.old }
        ensures hand { self.new.hand
            ≡ hand_behind (victims apart.now count self.old) self.old.hand }
        ensures alike { IsAlike self.old self.new }
    {
        let few = self.victims(apart, count);
        if let Some(last) = few.last() {
            let whole = is_used(&self.frames, &last);
            pass(&mut self.frames, &self.hand, &last, whole);
            self.hand = last;
        }
        few
    }
}

/// Whether the frame of a block was used since the hand passed it.
fn is_used(frames: &BTreeMap<BlockId, Frame>, at: &BlockId) -> bool {
    match frames.get(at) {
        Some(frame) => frame.used,
        None => false,
    }
}

/// The hand goes from a block to the frame of another one, or a whole round, and marks the frames
/// that it passes unused.
fn pass(frames: &mut BTreeMap<BlockId, Frame>, hand: &BlockId, last: &BlockId, whole: bool)
    ensures { HoldsAlike (held_in frames.old) (held_in frames.new) }
{
    let mut hand = *hand;
    for _ in 0..frames.len() {
        let Some(next) = next_frame(frames, &hand) else {
            return;
        };
        set_used(frames, &next, false);
        hand = next;
        if !whole && hand.cmp(last).is_eq() {
            return;
        }
    }
}

/// The block of the next frame that the hand comes to.
fn next_frame(frames: &BTreeMap<BlockId, Frame>, hand: &BlockId) -> Option<BlockId> {
    let mut behind = frames.range((Bound::Excluded(*hand), Bound::Unbounded));
    if let Some((at, _)) = behind.next() {
        return Some(*at);
    }
    let (at, _) = frames.first_key_value()?;
    Some(*at)
}

/// Adds the blocks that a round of the hand gives up, until there are so many.
fn pick_round(
    frames: &BTreeMap<BlockId, Frame>,
    hand: &BlockId,
    apart: &[BlockId],
    used: bool,
    count: usize,
    few: &mut Few,
)
    requires most { count ≤ 4 }
    requires few { length few.old ≤ count }
    ensures picked { few.new
        ≡ take count (few.old ++ round apart.now used hand.now (entries (held_in frames.now))) }
    ensures few { length few.new ≤ count }
{
    pick_behind(frames, hand, apart, used, count, few);
    pick_before(frames, hand, apart, used, count, few);
}

/// The same of the frames behind the hand.
fn pick_behind(
    frames: &BTreeMap<BlockId, Frame>,
    hand: &BlockId,
    apart: &[BlockId],
    used: bool,
    count: usize,
    few: &mut Few,
)
    requires most { count ≤ 4 }
    requires few { length few.old ≤ count }
    ensures picked { few.new ≡ take count (few.old ++ picked apart.now used
        (entries_between block_cmp (Excluded hand.now) Unbounded (entries (held_in frames.now)))) }
    ensures few { length few.new ≤ count }
{
    for (at, frame) in frames.range((Bound::Excluded(*hand), Bound::Unbounded)) {
        if few.len() >= count {
            return;
        }
        if may_go(at, frame, apart, used) {
            few.push(*at);
        }
    }
}

/// The same of the others.
fn pick_before(
    frames: &BTreeMap<BlockId, Frame>,
    hand: &BlockId,
    apart: &[BlockId],
    used: bool,
    count: usize,
    few: &mut Few,
)
    requires most { count ≤ 4 }
    requires few { length few.old ≤ count }
    ensures picked { few.new ≡ take count (few.old ++ picked apart.now used
        (entries_between block_cmp Unbounded (Included hand.now) (entries (held_in frames.now)))) }
    ensures few { length few.new ≤ count }
{
    for (at, frame) in frames.range(..=*hand) {
        if few.len() >= count {
            return;
        }
        if may_go(at, frame, apart, used) {
            few.push(*at);
        }
    }
}

/// Whether a frame may go in a round.
fn may_go(at: &BlockId, frame: &Frame, apart: &[BlockId], used: bool) -> bool
    ensures { result ≡ ((if used then frame.now.used else not frame.now.used)
        && not (is_among at.now apart.now)) }
{
    let fits = if used { frame.used } else { !frame.used };
    fits && !is_among(at, apart)
}

/// Whether a block is one of these.
fn is_among(at: &BlockId, blocks: &[BlockId]) -> bool
    ensures { result ≡ is_among at.now blocks.now }
{
    for block in blocks {
        if at.cmp(block).is_eq() {
            return true;
        }
    }
    false
}

//! Which frames are dirty.

ghost use Rattle.std.specs.Prelude.{◌≡◌, ◌<◌, ◌≤◌, [], None, Some, IsSome, IfSome, max, List, ℕ};
ghost use Rattle.std.specs.List.{reduce};
ghost use Rattle.std.specs.FinMap.{get, insert, remove, len};
ghost use Rattle.lsn_core.specs.declared.ids.BlockId.{BlockId};
ghost use Rattle.page_frames.specs.declared.frames.Frame.{Frame};
ghost use Rattle.page_frames.specs.Marks.{is_dirty, cleaned, IsFirstDirty, all_dirty_ends};
ghost use Rattle.page_frames.specs.Framed.{Held, HoldsMore, held_mark};
ghost use Rattle.page_frames.specs.Overlay.{pages_over, marks_over, IsBlockOf};
ghost use Rattle.page_frames.specs.Inside.{held_in, dirty_end};

use crate::frames::{Frame, Frames, leave_queue};
use lsn_core::BlockId;
use std::collections::BTreeMap;

/// A dirty page.
#[derive(Clone, Copy)]
pub struct Dirty {
    /// Its block.
    pub at: BlockId,
    /// Where the last entry ends that touched it, an LSN.
    pub end: u64,
}

impl Frames {
    /// Whether the page of a block is dirty. One that isn't there, or has no frame, isn't.
    pub fn is_dirty(&self, at: &BlockId) -> bool
        ensures { result ≡ is_dirty (marks_over self.now) at.now.fork at.now.block }
    {
        self.dirty_end(at).is_some()
    }

    /// The first dirty page, by fork and block. None exactly where no page is dirty.
    pub fn first_dirty(&self) -> Option<Dirty>
        ensures first { IfSome result (λ d. IsFirstDirty (marks_over self.now) d.at d.end) }
        ensures none { result ≡ None → all_dirty_ends (marks_over self.now) ≡ [] }
    {
        for at in self.queue.keys() {
            if let Some(end) = self.dirty_end(at) {
                return Some(Dirty { at: *at, end });
            }
        }
        None
    }

    /// The greatest end of an entry that touched a dirty page, an LSN. None exactly where no page
    /// is dirty.
    pub fn newest_dirty(&self) -> Option<u64>
        ensures { result ≡ reduce max (all_dirty_ends (marks_over self.now)) }
    {
        self.queue.keys().filter_map(|at| self.dirty_end(at)).max()
    }

    /// The page of a block that is there and has a frame is clean.
    pub fn clean(&mut self, at: &BlockId)
        requires there { IsBlockOf self.old.lengths at.now }
        requires held { IsSome (get self.old.held at.now) }
        ensures pages { (behind : BlockId → List ℕ)
            → pages_over behind self.new ≡ pages_over behind self.old }
        ensures marks { marks_over self.new ≡ cleaned (marks_over self.old) at.now }
        ensures held { (frame : Held) → get self.old.held at.now ≡ Some frame
            → self.new.held ≡ insert self.old.held at.now
            (record { page = frame.page; mark = None; used = frame.used }) }
        ensures count { len self.new.held ≡ len self.old.held }
        ensures queue { self.new.queue ≡ remove self.old.queue at.now }
        ensures shorter { IsSome (held_mark self.old.held at.now)
            → len self.new.queue < len self.old.queue }
        ensures lengths { self.new.lengths ≡ self.old.lengths }
        ensures slots { self.new.slots ≡ self.old.slots }
        ensures limit { self.new.limit ≡ self.old.limit }
    {
        clean_frame(&mut self.frames, at);
        leave_queue(&mut self.queue, at);
    }

    /// Drops the blocks at the front of the queue that aren't dirty.
    pub fn trim(&mut self)
        ensures shorter { len self.new.queue ≤ len self.old.queue }
        ensures lengths { self.new.lengths ≡ self.old.lengths }
        ensures slots { self.new.slots ≡ self.old.slots }
        ensures held { self.new.held ≡ self.old.held }
        ensures limit { self.new.limit ≡ self.old.limit }
    {
        for _ in 0..self.queue.len() {
            let Some(at) = self.first_queued() else {
                return;
            };
            if self.dirty_end(&at).is_some() {
                return;
            }
            leave_queue(&mut self.queue, &at);
        }
    }

    /// The first block of the queue.
    fn first_queued(&self) -> Option<BlockId> {
        let (at, _) = self.queue.first_key_value()?;
        Some(*at)
    }

    /// Where the last entry ends that touched a block that is there, since it was written.
    fn dirty_end(&self, at: &BlockId) -> Option<u64>
        ensures { result ≡ dirty_end self.now.lengths self.now.held at.now }
    {
        if self.has_block(at) {
            self.mark(at)
        } else {
            None
        }
    }
}

/// The frame of a block is clean.
fn clean_frame(frames: &mut BTreeMap<BlockId, Frame>, at: &BlockId)
    requires { IsSome (get (held_in frames.old) at.now) }
    ensures { (frame : Held) → get (held_in frames.old) at.now ≡ Some frame
        → held_in frames.new ≡ insert (held_in frames.old) at.now
        (record { page = frame.page; mark = None; used = frame.used }) }
{
    let Some(frame) = frames.get_mut(at) else {
        unreachable!()
    };
    frame.mark = None;
}

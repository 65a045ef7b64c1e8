//! Pages in frames.

ghost use Rattle.std.specs.Prelude.{◌≡◌, ◌<◌, ◌≤◌, ◌+◌, ◌⊎◌, true, None, Some, IsSome, IfOk, OnOk, OnErr, List, ℕ, box_value};
ghost use Rattle.std.specs.FinMap.{empty, get, insert, remove, len};
ghost use Rattle.std.specs.Option.{option_map, unwrap_or};
ghost use Rattle.lsn_core.specs.byte_words.Pieces.{zero_page};
ghost use Rattle.lsn_core.specs.declared.ids.BlockId.{BlockId};
ghost use Rattle.lsn_core.specs.Blocks.{page_put};
ghost use Rattle.history.specs.Apply.{page_at};
ghost use Rattle.page_frames.specs.Marks.{touched};
ghost use Rattle.page_frames.specs.Framed.{AreFramed, Held, HoldsMore, HoldsAlike, IsAlike, held_page, held_mark, lacks};
ghost use Rattle.page_frames.specs.Overlay.{own_pages, pages_over, marks_over, raised, HasPlace, IsBlockOf, IsReserved, KeepsReserved};
ghost use Rattle.page_frames.specs.Inside.{has_block, held_in, queue_in};

use crate::lengths::write_length;
use lsn_core::{BlockId, ForkId, ForkKind, NoMemory, Rel};
use pg_page::zero_page;
use std::alloc::Global;
use std::boxed::Box;
use std::collections::BTreeMap;
use std::marker::Model;

/// A frame with its page.
#[derive(Drop)]
pub(crate) struct Frame {
    pub page: Box<[u8; 8192]>,
    /// Where the last entry ends that touched the page since it was written. None where it is
    /// clean.
    pub mark: Option<u64>,
    /// Whether it was used since the hand passed it.
    pub used: bool,
}

/// Pages in at most so many frames. Contracts see a `Framed`.
#[derive(Drop)]
pub struct Frames {
    /// None at a fork that isn't there, for which memory is kept.
    pub(crate) lengths: BTreeMap<ForkId, Option<u32>>,
    pub(crate) frames: BTreeMap<BlockId, Frame>,
    /// The blocks among which all dirty ones are.
    pub(crate) queue: BTreeMap<BlockId, ()>,
    pub(crate) hand: BlockId,
    pub(crate) limit: u32,
    alloc: Global,
}

impl Model for Frames {
    ghost use Rattle.page_frames.specs.Framed.{Framed, framed_code, AreFramed};
    ghost use Rattle.page_frames.specs.Inside.{framed_in};

    ghost Value = { Framed };

    ghost coded = { framed_code };

    ghost view = { λ f. framed_in f.lengths f.frames f.queue f.hand f.limit };

    ghost invariant = { λ f. AreFramed (framed_in f.lengths f.frames f.queue f.hand f.limit) };
}

impl Frames {
    /// No fork and no frame yet, and at most so many frames.
    pub fn new(alloc: Global, limit: u32) -> Frames
        ensures lengths { result.lengths ≡ empty }
        ensures held { result.held ≡ empty }
        ensures limit { result.limit ≡ limit }
    {
        let lengths = BTreeMap::new(alloc);
        let frames = BTreeMap::new(alloc);
        let queue = BTreeMap::new(alloc);
        let hand = first_hand();
        Frames {
            lengths,
            frames,
            queue,
            hand,
            limit,
            alloc,
        }
    }

    /// That each page has 8192 bytes, that there are no more frames than there may be, that a fork
    /// has fewer blocks than a u32 counts, and that the queue has the dirty blocks.
    pub fn know(&self)
        ensures { AreFramed self.now }
    {
        let _frames = &self.frames;
    }

    /// How many frames there may be.
    pub fn limit(&self) -> u32
        ensures limit { result ≡ self.now.limit }
        ensures few { len self.now.held ≤ result }
    {
        self.limit
    }

    /// How many frames there are.
    pub fn count(&self) -> usize
        ensures { result ≡ len self.now.held }
    {
        self.frames.len()
    }

    /// The page of a block that has a frame.
    pub fn page(&self, at: &BlockId) -> Option<&[u8; 8192]>
        ensures { option_map (λ p. p.now) result ≡ held_page self.now.held at.now }
    {
        match self.frames.get(at) {
            Some(frame) => Some(page_of(frame)),
            None => None,
        }
    }

    /// The page of a block that is there and has a frame. What it answers None for is taken as a
    /// zero page.
    pub fn block(&self, at: &BlockId) -> Option<&[u8; 8192]>
        ensures { unwrap_or (option_map (λ p. p.now) result) zero_page
            ≡ page_at (own_pages self.now) at.now }
    {
        if self.has_block(at) {
            self.page(at)
        } else {
            None
        }
    }

    /// A copy of the page of a block, or of a zero page where the block isn't there or has no
    /// frame.
    pub fn page_copy(&self, alloc: Global, at: &BlockId) -> Result<Box<[u8; 8192]>, NoMemory>
        ensures { IfOk result (λ page. box_value page ≡ page_at (own_pages self.now) at.now) }
    {
        match self.block(at) {
            Some(page) => Ok(Box::new(alloc, *page)?),
            None => Ok(Box::new(alloc, zero_page())?),
        }
    }

    /// Where the last entry ends that touched a block's page since it was written. None where the
    /// page is clean, or has no frame.
    pub fn mark(&self, at: &BlockId) -> Option<u64>
        ensures { result ≡ held_mark self.now.held at.now }
    {
        match self.frames.get(at) {
            Some(frame) => frame.mark,
            None => None,
        }
    }

    /// Takes a clean page into a frame of its own, where there is one left. Fails where memory ran
    /// out, and then changes nothing.
    pub fn take_in(&mut self, at: &BlockId, page: Box<[u8; 8192]>) -> Result<(), NoMemory>
        requires { len self.old.held < self.old.limit }
        ensures held { OnOk result (self.new.held ≡ insert self.old.held at.now
            (record { page = box_value page; mark = None; used = true })) }
        ensures same { OnErr result (self.new.held ≡ self.old.held) }
        ensures lengths { self.new.lengths ≡ self.old.lengths }
        ensures limit { self.new.limit ≡ self.old.limit }
        ensures slots { self.new.slots ≡ self.old.slots }
        ensures queue { self.new.queue ≡ self.old.queue }
    {
        // Read here, so that it is known that the page has 8192 bytes.
        let _first = page[0];
        put_in(&mut self.frames, at, page)
    }

    /// Gives the frame of a block up, and its place in the queue.
    pub fn give_up(&mut self, at: &BlockId)
        ensures held { self.new.held ≡ remove self.old.held at.now }
        ensures lengths { self.new.lengths ≡ self.old.lengths }
        ensures limit { self.new.limit ≡ self.old.limit }
        ensures slots { self.new.slots ≡ self.old.slots }
        ensures queue { self.new.queue ≡ remove self.old.queue at.now }
    {
        take_out(&mut self.frames, at);
        leave_queue(&mut self.queue, at);
    }

    /// Keeps a frame for a block, and its place in the queue, so that a page may be put there
    /// without memory. Fails where memory ran out; what was kept stays.
    pub fn reserve(&mut self, at: &BlockId) -> Result<(), NoMemory>
        requires { IsSome (get self.old.held at.now)
            ⊎ ((IsBlockOf self.old.lengths at.now → ⊥) × len self.old.held < self.old.limit) }
        ensures reserved { OnOk result (IsReserved self.new at.now) }
        ensures kept { KeepsReserved self.old self.new }
        ensures lengths { self.new.lengths ≡ self.old.lengths }
        ensures limit { self.new.limit ≡ self.old.limit }
        ensures pages { (behind : BlockId → List ℕ)
            → pages_over behind self.new ≡ pages_over behind self.old }
        ensures marks { marks_over self.new ≡ marks_over self.old }
        ensures held { HoldsMore self.old.held self.new.held }
        ensures few { len self.new.held ≤ len self.old.held + lacks self.old.held at.now }
    {
        enter_queue(&mut self.queue, at)?;
        if self.frames.contains_key(at) {
            return Ok(());
        }
        let page = Box::new(self.alloc, zero_page())?;
        // Read here, so that it is known that the page has 8192 bytes.
        let _first = page[0];
        put_in(&mut self.frames, at, page)
    }

    /// Moves a page into the frame that was kept for it, over the page that is there or behind the
    /// last one. It is dirty, touched by an entry that ends there, an LSN. Takes no memory.
    pub fn put(&mut self, at: &BlockId, page: Box<[u8; 8192]>, end: u64)
        requires reserved { IsReserved self.old at.now }
        requires place { HasPlace self.old.lengths at.now }
        ensures pages { (behind : BlockId → List ℕ) → pages_over behind self.new
            ≡ page_put at.now (box_value page) (pages_over behind self.old) }
        ensures marks { marks_over self.new ≡ touched end (marks_over self.old) at.now }
        ensures kept { KeepsReserved self.old self.new }
        ensures lengths { self.new.lengths ≡ raised self.old.lengths at.now }
        ensures limit { self.new.limit ≡ self.old.limit }
        ensures held { self.new.held ≡ insert self.old.held at.now
            (record { page = box_value page; mark = Some end; used = true }) }
    {
        // Read here, so that it is known that the page has 8192 bytes.
        let _first = page[0];
        let count = self.blocks(&at.fork).unwrap_or(0);
        write_frame(&mut self.frames, at, page, end);
        write_length(&mut self.lengths, &at.fork, count.max(at.block + 1));
    }

    /// The frame of a block was used.
    pub fn note_use(&mut self, at: &BlockId)
        ensures used { (frame : Held) → get self.old.held at.now ≡ Some frame → self.new.held
            ≡ insert self.old.held at.now
            (record { page = frame.page; mark = frame.mark; used = true }) }
        ensures alike { IsAlike self.old self.new }
    {
        set_used(&mut self.frames, at, true);
    }

    /// Whether a fork has a block.
    pub(crate) fn has_block(&self, at: &BlockId) -> bool
        ensures { result ≡ has_block self.now.lengths at.now }
    {
        at.block < self.blocks(&at.fork).unwrap_or(0)
    }
}

/// Where the hand of a clock begins; any block does.
fn first_hand() -> BlockId {
    let Some(rel) = Rel::new(1, 1) else {
        unreachable!()
    };
    let fork = ForkId {
        rel,
        kind: ForkKind::Main,
    };
    BlockId { fork, block: 0 }
}

/// The page of a frame.
fn page_of(frame: &Frame) -> &[u8; 8192]
    ensures { result.now ≡ box_value frame.now.page }
{
    &frame.page
}

/// Puts a clean page into a map of frames.
fn put_in(
    frames: &mut BTreeMap<BlockId, Frame>,
    at: &BlockId,
    page: Box<[u8; 8192]>,
) -> Result<(), NoMemory>
    ensures held { OnOk result (held_in frames.new ≡ insert (held_in frames.old) at.now
        (record { page = box_value page; mark = None; used = true })) }
    ensures same { OnErr result (held_in frames.new ≡ held_in frames.old) }
{
    let frame = Frame {
        page,
        mark: None,
        used: true,
    };
    frames.insert(*at, frame)?;
    Ok(())
}

/// Takes a frame out of a map of frames.
fn take_out(frames: &mut BTreeMap<BlockId, Frame>, at: &BlockId)
    ensures { held_in frames.new ≡ remove (held_in frames.old) at.now }
{
    frames.remove(at);
}

/// Moves a dirty page into the frame of a block.
fn write_frame(frames: &mut BTreeMap<BlockId, Frame>, at: &BlockId, page: Box<[u8; 8192]>, end: u64)
    requires { IsSome (get (held_in frames.old) at.now) }
    ensures { held_in frames.new ≡ insert (held_in frames.old) at.now
        (record { page = box_value page; mark = Some end; used = true }) }
{
    let Some(frame) = frames.get_mut(at) else {
        unreachable!()
    };
    *frame = Frame {
        page,
        mark: Some(end),
        used: true,
    };
}

/// Notes whether the frame of a block was used, where it has one.
pub(crate) fn set_used(frames: &mut BTreeMap<BlockId, Frame>, at: &BlockId, used: bool)
    ensures used { (frame : Held) → get (held_in frames.old) at.now ≡ Some frame
        → held_in frames.new ≡ insert (held_in frames.old) at.now
        (record { page = frame.page; mark = frame.mark; used = used }) }
    ensures alike { HoldsAlike (held_in frames.old) (held_in frames.new) }
{
    if let Some(frame) = frames.get_mut(at) {
        frame.used = used;
    }
}

/// Gives a block a place in the queue.
fn enter_queue(queue: &mut BTreeMap<BlockId, ()>, at: &BlockId) -> Result<(), NoMemory>
    ensures entered { OnOk result (queue_in queue.new ≡ insert (queue_in queue.old) at.now true) }
    ensures same { OnErr result (queue_in queue.new ≡ queue_in queue.old) }
{
    queue.insert(*at, ())?;
    Ok(())
}

/// Takes a block out of the queue.
pub(crate) fn leave_queue(queue: &mut BTreeMap<BlockId, ()>, at: &BlockId)
    ensures { queue_in queue.new ≡ remove (queue_in queue.old) at.now }
{
    queue.remove(at);
}

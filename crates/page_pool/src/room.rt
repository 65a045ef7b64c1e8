//! Room made for a command: frames for its blocks.

ghost use Rattle.std.specs.Prelude.{◌≡◌, ◌<◌, ◌≤◌, max, false, true, [], None, IsSome, IfOk, IfSome, OnOk, map, length, box_value};
ghost use Rattle.std.specs.FinMap.{get, len};
ghost use Rattle.std.specs.List.{All, reduce};
ghost use Rattle.std.specs.Option.{option_map, is_some};
ghost use Rattle.lsn_core.specs.Causes.{HasCause};
ghost use Rattle.lsn_core.specs.Shown.{Turns};
ghost use Rattle.vault.specs.Frame.{OnlyReads};
ghost use Rattle.rel_files.specs.Shown.{HoldsStore};
ghost use Rattle.page_frames.specs.Framed.{held_page};
ghost use Rattle.page_frames.specs.Marks.{is_dirty, touch_end};
ghost use Rattle.page_frames.specs.Overlay.{marks_over, IsBlockOf};
ghost use Rattle.command_judging.specs.Refusals.{most_items};
ghost use Rattle.command_judging.specs.Refusals.{HasItems};
ghost use Rattle.page_pool.specs.Steps.{HasWritten};
ghost use Rattle.page_pool.specs.Calls.{ChangesForks, SameDisk, ReadsDisk, IsQuiet, SameBounds};
ghost use Rattle.page_pool.specs.Room.{blocks_of, missing, wanted, room_victims, ends_at, room_end, HasFrame, HasFrames};
ghost use Rattle.page_pool.specs.Stops.{KeepsWindow, WritesFlushed, MayMakeRoom, MayClearAll, MayClear};
ghost use Rattle.page_pool.specs.Writing.{AreClean, KeepsFrames, IsPageRead};

use crate::partition::{Partition, later, newest_work};
use history::{Item, Op, main_fork};
use lsn_core::{AreaFault, BlockId, ForkId, Lsn, Pages};
use page_frames::Few;
use pg_page::zero_page;
use rel_files::Forks;
use std::alloc::Global;
use std::boxed::Box;
use vault::Vault;
use wal_writer::Flushed;

impl<V: Vault, const Q: u32> Partition<V, Q> {
    /// Up to where the WAL has to be flushed before room is made for a command, which has 1 to 4
    /// items where it changes blocks. None exactly where nothing is written.
    pub fn room_lsn(&self, op: &Op) -> Option<Lsn>
        requires { HasItems op.now }
        ensures end { option_map (λ l. l.0) result
            ≡ room_end self.now.framed self.now.works (blocks_of op.now) }
        ensures marks { self.now.marks ≡ marks_over self.now.framed }
    {
        self.frames.know();
        let victims = self.victims(blocks_of(op).as_slice());
        let pages = self.newest_of(victims.as_slice())?;
        let works = newest_work(&self.works);
        Some(Lsn(later(works, Some(pages))?))
    }

    /// Makes room for a command, which has 1 to 4 items where it changes blocks: those of its
    /// blocks that are there get frames, and frames are left for the others. Frames are given up as
    /// the clock's hand comes to them, none of these blocks'; a dirty page is written first, after
    /// all pending works in their order. The pages are as before, whatever it answers.
    pub fn make_room(&mut self, alloc: Global, op: &Op, mark: &Flushed) -> Result<(), AreaFault>
        requires items { HasItems op.now }
        requires flushed { IfSome (room_end self.old.framed self.old.works (blocks_of op.now))
            (λ end. end ≤ mark.now.to.0) }
        ensures room { OnOk result (HasFrames self.new.framed (blocks_of op.now)) }
        ensures written { HasWritten self.old self.new }
        ensures none { room_end self.old.framed self.old.works (blocks_of op.now) ≡ None
            → IsQuiet self.old self.new }
        ensures bounds { SameBounds self.old self.new }
        ensures marked { self.new.flushed ≡ max self.old.flushed mark.now.to.0 }
        ensures moments { KeepsWindow mark.now.to.0 self.old self.new }
        ensures area { ChangesForks self.old self.new }
        ensures cause { HasCause self.old.faults self.new.faults result }
    {
        self.take_mark(mark);
        self.fill_room(alloc, op)
    }

    /// Gives frames up for the blocks of a command, and reads those of them that are there.
    fn fill_room(&mut self, alloc: Global, op: &Op) -> Result<(), AreaFault>
        requires { HasItems op.now }
        ensures room { OnOk result (HasFrames self.new.framed (blocks_of op.now)) }
        ensures written { HasWritten self.old self.new }
        ensures none { room_end self.old.framed self.old.works (blocks_of op.now) ≡ None
            → IsQuiet self.old self.new }
        ensures bounds { SameBounds self.old self.new }
        ensures moments { WritesFlushed (MayMakeRoom self.old
            (blocks_of op.now)) self.old self.new }
        ensures area { ChangesForks self.old self.new }
        ensures cause { HasCause self.old.faults self.new.faults result }
    {
        let blocks = blocks_of(op);
        self.free_frames(blocks.as_slice())?;
        self.hold_all(alloc, blocks.as_slice())?;
        let (count, limit) = (self.frames.count(), self.frames.limit() as usize);
        if count + self.missing(blocks.as_slice()) > limit {
            // never: the sweep has given enough up
            return Err(AreaFault::NoMemory);
        }
        Ok(())
    }

    /// Gives up as many frames as these blocks need, none of theirs.
    fn free_frames(&mut self, blocks: &[BlockId]) -> Result<(), AreaFault>
        requires { length blocks.now ≤ 4 }
        ensures written { HasWritten self.old self.new }
        ensures none { room_end self.old.framed self.old.works blocks.now ≡ None
            → IsQuiet self.old self.new }
        ensures bounds { SameBounds self.old self.new }
        ensures moments { WritesFlushed (MayMakeRoom self.old blocks.now) self.old self.new }
        ensures area { ChangesForks self.old self.new }
        ensures cause { HasCause self.old.faults self.new.faults result }
    {
        let victims = self.sweep(blocks);
        self.clear_all(victims.as_slice())?;
        Ok(())
    }

    /// How many frames are to be given up for these blocks.
    fn wanted(&self, blocks: &[BlockId]) -> usize
        requires { length blocks.now ≤ 4 }
        ensures wanted { result ≡ wanted self.now.framed blocks.now }
        ensures few { result ≤ 4 }
    {
        let free = (self.frames.limit() as usize).saturating_sub(self.frames.count());
        self.missing(blocks).saturating_sub(free)
    }

    /// The blocks whose frames are given up for these.
    fn victims(&self, blocks: &[BlockId]) -> Few
        requires { length blocks.now ≤ 4 }
        ensures { result ≡ room_victims self.now.framed blocks.now }
    {
        self.frames.victims(blocks, self.wanted(blocks))
    }

    /// The same, and the clock's hand moves on to the last of them.
    fn sweep(&mut self, blocks: &[BlockId]) -> Few
        requires { length blocks.now ≤ 4 }
        ensures victims { result ≡ room_victims self.old.framed blocks.now }
        ensures marks { self.new.marks ≡ marks_over self.old.framed }
        ensures written { HasWritten self.old self.new }
        ensures quiet { IsQuiet self.old self.new }
        ensures bounds { SameBounds self.old self.new }
        ensures area { SameDisk self.old self.new }
    {
        let wanted = self.wanted(blocks);
        self.frames.sweep(blocks, wanted)
    }

    /// How many of these blocks have no frame.
    fn missing(&self, blocks: &[BlockId]) -> usize
        ensures missing { result ≡ missing self.now.framed.held blocks.now }
        ensures most { result ≤ length blocks.now }
    {
        let mut count = 0;
        for at in blocks {
            if !self.has_frame(at) {
                count += 1;
            }
        }
        count
    }

    /// Whether a block has a frame.
    fn has_frame(&self, at: &BlockId) -> bool
        ensures { result ≡ is_some (held_page self.now.framed.held at.now) }
    {
        self.frames.page(at).is_some()
    }

    /// The greatest end of an entry that touched those of these blocks that are dirty. None exactly
    /// where none is.
    fn newest_of(&self, blocks: &[BlockId]) -> Option<u64>
        ensures { result ≡ reduce max (ends_at self.now.framed blocks.now) }
    {
        let mut newest = None;
        for at in blocks {
            newest = later(newest, self.dirty_end(at));
        }
        newest
    }

    /// Where the last entry ends that touched a block that is dirty.
    fn dirty_end(&self, at: &BlockId) -> Option<u64>
        ensures { result ≡ touch_end (marks_over self.now.framed) at.now.fork at.now.block }
    {
        if self.frames.is_dirty(at) {
            self.frames.mark(at)
        } else {
            None
        }
    }

    /// Gives the frames of these blocks up.
    fn clear_all(&mut self, victims: &[BlockId]) -> Result<(), AreaFault>
        ensures written { HasWritten self.old self.new }
        ensures quiet { AreClean self.old victims.now → IsQuiet self.old self.new }
        ensures bounds { SameBounds self.old self.new }
        ensures moments { WritesFlushed (MayClearAll self.old victims.now) self.old self.new }
        ensures area { ChangesForks self.old self.new }
        ensures cause { HasCause self.old.faults self.new.faults result }
    {
        for at in victims {
            self.clear(at)?;
        }
        Ok(())
    }

    /// Gives the frame of a block up; where its page is dirty, all pending works are done and the
    /// page is written before.
    fn clear(&mut self, at: &BlockId) -> Result<(), AreaFault>
        ensures written { HasWritten self.old self.new }
        ensures quiet { is_dirty self.old.marks at.now.fork at.now.block ≡ false
            → IsQuiet self.old self.new }
        ensures bounds { SameBounds self.old self.new }
        ensures moments { WritesFlushed (MayClear self.old at.now) self.old self.new }
        ensures area { ChangesForks self.old self.new }
        ensures cause { HasCause self.old.faults self.new.faults result }
    {
        if !self.frames.is_dirty(at) {
            self.give_up(at);
            return Ok(());
        }
        self.write_out(at)?;
        self.give_up(at);
        Ok(())
    }

    /// Does all pending works in their order, and writes a dirty page.
    fn write_out(&mut self, at: &BlockId) -> Result<(), AreaFault>
        requires { is_dirty self.old.marks at.now.fork at.now.block ≡ true }
        ensures clean { OnOk result
            (is_dirty self.new.marks at.now.fork at.now.block ≡ false) }
        ensures written { HasWritten self.old self.new }
        ensures bounds { SameBounds self.old self.new }
        ensures moments { WritesFlushed (MayClear self.old at.now) self.old self.new }
        ensures area { ChangesForks self.old self.new }
        ensures cause { HasCause self.old.faults self.new.faults result }
    {
        self.finish_works()?;
        self.write_page(at)?;
        Ok(())
    }

    /// Gives up the frame of a block that isn't dirty.
    fn give_up(&mut self, at: &BlockId)
        requires { is_dirty self.old.marks at.now.fork at.now.block ≡ false }
        ensures written { HasWritten self.old self.new }
        ensures quiet { IsQuiet self.old self.new }
        ensures bounds { SameBounds self.old self.new }
        ensures area { SameDisk self.old self.new }
    {
        self.frames.give_up(at);
    }

    /// Reads the pages of those of these blocks into frames that are there and have none.
    fn hold_all(&mut self, alloc: Global, blocks: &[BlockId]) -> Result<(), AreaFault>
        ensures held { OnOk result (All (HasFrame self.new.framed) blocks.now) }
        ensures written { HasWritten self.old self.new }
        ensures quiet { IsQuiet self.old self.new }
        ensures bounds { SameBounds self.old self.new }
        ensures area { ReadsDisk self.old self.new }
        ensures cause { HasCause self.old.faults self.new.faults result }
    {
        for at in blocks {
            self.hold(alloc, at)?;
        }
        Ok(())
    }

    /// Reads the page of a block into a frame, where it is there and has none.
    fn hold(&mut self, alloc: Global, at: &BlockId) -> Result<(), AreaFault>
        ensures held { OnOk result (HasFrame self.new.framed at.now) }
        ensures more { KeepsFrames self.old self.new }
        ensures written { HasWritten self.old self.new }
        ensures quiet { IsQuiet self.old self.new }
        ensures bounds { SameBounds self.old self.new }
        ensures area { ReadsDisk self.old self.new }
        ensures cause { HasCause self.old.faults self.new.faults result }
    {
        if self.has_frame(at) {
            self.note_use(at);
            return Ok(());
        }
        if !self.has_block(at) {
            return Ok(());
        }
        if self.frames.count() >= self.frames.limit() as usize {
            // never: the sweep has given enough up
            return Err(AreaFault::NoMemory);
        }
        self.fetch(alloc, at)
    }

    /// Whether a block is there.
    fn has_block(&self, at: &BlockId) -> bool
        ensures { result ≡ false → IsBlockOf self.now.framed.lengths at.now → ⊥ }
    {
        match self.frames.blocks(&at.fork) {
            Some(count) => at.block < count,
            None => false,
        }
    }

    /// The frame of a block was used.
    fn note_use(&mut self, at: &BlockId)
        ensures more { KeepsFrames self.old self.new }
        ensures written { HasWritten self.old self.new }
        ensures quiet { IsQuiet self.old self.new }
        ensures bounds { SameBounds self.old self.new }
        ensures area { ReadsDisk self.old self.new }
        ensures faults { self.new.faults ≡ self.old.faults }
    {
        self.frames.note_use(at);
    }

    /// Reads the page of a block into a frame. A block that the area doesn't give is taken as a
    /// zero page.
    fn fetch(&mut self, alloc: Global, at: &BlockId) -> Result<(), AreaFault>
        requires left { len self.old.framed.held < self.old.framed.limit }
        requires none { held_page self.old.framed.held at.now ≡ None }
        ensures held { OnOk result (IsSome (get self.new.framed.held at.now)) }
        ensures more { KeepsFrames self.old self.new }
        ensures written { HasWritten self.old self.new }
        ensures quiet { IsQuiet self.old self.new }
        ensures bounds { SameBounds self.old self.new }
        ensures area { ReadsDisk self.old self.new }
        ensures cause { HasCause self.old.faults self.new.faults result }
    {
        let page = read_page(alloc, &mut self.disk, at)?;
        self.frames.take_in(at, page)?;
        Ok(())
    }
}

/// Reads the page of a block of the area; one that it doesn't give is a zero page.
fn read_page<V: Vault>(
    alloc: Global,
    disk: &mut Forks<V>,
    at: &BlockId,
) -> Result<Box<[u8; 8192]>, AreaFault>
    ensures read { IfOk result
        (λ page. IsPageRead (HoldsStore V.Vault disk.old) at.now (box_value page)) }
    ensures held { Turns (HoldsStore V.Vault) disk.old disk.new (λ s. s) }
    ensures reads { OnlyReads V.Vault disk.old.area disk.new.area }
    ensures relseg { disk.new.relseg ≡ disk.old.relseg }
    ensures cause { HasCause (V.faults disk.old.area) (V.faults disk.new.area) result }
{
    let mut page = zero_page();
    let _found = disk.read_block(*at, &mut page)?;
    Ok(Box::new(alloc, page)?)
}

/// The blocks that a command looks at, which has 1 to 4 items where it changes blocks.
fn blocks_of(op: &Op) -> Few
    requires { HasItems op.now }
    ensures { result ≡ blocks_of op.now }
{
    match op {
        Op::Create(fork) => no_blocks(*fork),
        Op::Truncate(rel, _) => no_blocks(main_fork(*rel)),
        Op::Change(items) => blocks_in(items.as_slice()),
        Op::Drop(rel) => no_blocks(main_fork(*rel)),
    }
}

/// No block.
fn no_blocks(fork: ForkId) -> Few
    ensures { result ≡ [] }
{
    Few::none(BlockId { fork, block: 0 })
}

/// The blocks of these items.
fn blocks_in(items: &[Item]) -> Few
    requires { (1 ≤ length items.now) × (length items.now ≤ most_items) }
    ensures { result ≡ map (λ i. i.at) items.now }
{
    let mut few = no_blocks(items[0].at.fork);
    for item in items {
        few.push(item.at);
    }
    few
}

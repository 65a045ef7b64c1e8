//! Commands judged and made ready, and done.

ghost use Rattle.std.specs.Prelude.{◌≡◌, ◌+◌, ◌-◌, ◌<◌, ◌≤◌, [], ◌∷◌, ◌++◌, ℕ, List, IfOk, IfErr, OnOk, map, box_value, vec_len, vec_capacity};
ghost use Rattle.std.specs.List.{All};
ghost use Rattle.lsn_core.specs.declared.ids.BlockId.{BlockId};
ghost use Rattle.lsn_core.specs.Blocks.{page_put, without_fork};
ghost use Rattle.lsn_core.specs.Sizes.{most_blocks};
ghost use Rattle.pg_page.specs.Header.{with_lsn};
ghost use Rattle.history.specs.declared.op.Op.{Op};
ghost use Rattle.history.specs.Op.{act_of_op};
ghost use Rattle.page_frames.specs.Marks.{touched};
ghost use Rattle.page_frames.specs.Overlay.{own_pages, pages_over, marks_over, HasPlace, KeepsReserved, raised};
ghost use Rattle.command_judging.specs.Refusals.{IsRefusedOp};
ghost use Rattle.page_pool.specs.Ready.{HasRoomAt, HasRoomFor, CheckAnswer, IsReady, pages_put, done_at};
ghost use Rattle.command_judging.specs.Refusals.{HasItems};
ghost use Rattle.page_pool.specs.Room.{HasFrames, blocks_of};
ghost use Rattle.page_pool.specs.Steps.{HasApplied, marks_without, with_removal};
ghost use Rattle.page_pool.specs.Calls.{SameUnwritten, SameDisk};
ghost use Rattle.page_pool.specs.Inside.{blocks_done, MayBeDone, IsFound, ShowsAlike, ArePlaces, room_in, marks_done, works_done, pages_touched};

use crate::kinds::make;
use crate::partition::Partition;
use crate::ready::{Done, NewPage, Ready};
use crate::work::{Pending, Work};
use command_judging::OpFault;
use command_judging::judge::judge;
use history::{Op, init_fork, main_fork};
use lsn_core::{ForkId, Lsn, NoMemory};
use page_frames::Frames;
use pg_page::set_lsn;
use std::alloc::Global;
use vault::Vault;

impl<V: Vault, const Q: u32> Partition<V, Q> {
    /// Whether a command may be done, which has 1 to 4 items where it changes blocks, and for which
    /// there is room, behind the latest redo point: takes all memory that its doing needs, calls no
    /// device, and changes nothing. A refusal is the first one in order.
    pub fn check_op(&mut self, alloc: Global, op: &Op, redo: Lsn) -> Result<Ready, OpFault>
        requires items { HasItems op.now }
        requires room { HasFrames self.old.framed (blocks_of op.now) }
        ensures answer { CheckAnswer op.now redo.0 self.old self.new result }
        ensures same { SameUnwritten self.old self.new }
        ensures area { SameDisk self.old self.new }
    {
        check(alloc, &mut self.frames, &mut self.works, op, redo)
    }

    /// Does what `check_op` made ready, by an entry that ends there: pages, marks and pending works
    /// change, and no device is called.
    pub fn apply_op(&mut self, ready: Ready, end: Lsn)
        requires { (op : Op) × IsReady self.old op ready }
        ensures done { (op : Op) → IsReady self.old op ready
            → HasApplied end.0 (act_of_op op) self.old self.new }
        ensures area { SameDisk self.old self.new }
    {
        let Ready { done, .. } = ready;
        finish(&mut self.frames, &mut self.works, done, end);
    }
}

/// Whether a command may be done by the pages in frames alone, behind the latest redo point: takes
/// all memory that its doing needs, and changes neither pages nor marks nor works. A refusal is the
/// first one in order.
fn check(
    alloc: Global,
    frames: &mut Frames,
    works: &mut Vec<Pending>,
    op: &Op,
    redo: Lsn,
) -> Result<Ready, OpFault>
    requires items { HasItems op.now }
    requires room { HasFrames frames.old (blocks_of op.now) }
    ensures found { IfOk result (λ ready. IsFound (own_pages frames.old) frames.new
        (room_in works.new)
        op.now redo.0 ready) }
    ensures refused { IfErr result (IsRefusedOp (own_pages frames.old) op.now) }
    ensures alike { ShowsAlike frames.old frames.new }
    ensures works { works.new.items ≡ works.old.items }
{
    let counts = judge(frames, op)?;
    let made = make(alloc, frames, op, redo)?;
    reserve(frames, works, &made.done)?;
    Ok(Ready {
        kind: made.kind,
        added: counts.added,
        gone: counts.gone,
        done: made.done,
    })
}

/// Makes room for what a command does.
fn reserve(frames: &mut Frames, works: &mut Vec<Pending>, done: &Done) -> Result<(), NoMemory>
    requires frames { HasFrames frames.old (blocks_done done.now) }
    requires narrow { All (λ at. at.block < most_blocks) (blocks_done done.now) }
    ensures room { OnOk result (HasRoomFor frames.new (room_in works.new) done.now) }
    ensures alike { ShowsAlike frames.old frames.new }
    ensures works { works.new.items ≡ works.old.items }
{
    match done {
        Done::Created(fork) => {
            frames.reserve_fork(fork)?;
            works.reserve(1)?;
            Ok(())
        }
        Done::Cut(_, _) => {
            works.reserve(1)?;
            Ok(())
        }
        Done::Put(pages) => reserve_pages(frames, pages),
        Done::Dropped(_) => {
            works.reserve(2)?;
            Ok(())
        }
    }
}

/// Makes room for pages: a frame for each, which is there where its block is.
fn reserve_pages(frames: &mut Frames, pages: &[NewPage]) -> Result<(), NoMemory>
    requires frames { HasFrames frames.old (map (λ p. p.at) pages.now) }
    requires narrow { All (λ at. at.block < most_blocks) (map (λ p. p.at) pages.now) }
    ensures room { OnOk result (All (λ p. HasRoomAt frames.new p.at) pages.now) }
    ensures alike { ShowsAlike frames.old frames.new }
{
    for new in pages {
        frames.reserve(&new.at)?;
    }
    Ok(())
}

/// Does this to the pages, by an entry that ends there, where there is room for it. Takes no
/// memory.
fn finish(frames: &mut Frames, works: &mut Vec<Pending>, done: Done, end: Lsn)
    requires { MayBeDone frames.old (room_in works.old) done }
    ensures pages { (behind : BlockId → List ℕ)
        → pages_over behind frames.new ≡ done_at end.0 done (pages_over behind frames.old) }
    ensures marks { (behind : BlockId → List ℕ) → marks_over frames.new
        ≡ marks_done end.0 (pages_over behind frames.old) (marks_over frames.old) done }
    ensures works { (behind : BlockId → List ℕ) → works.new.items
        ≡ works_done end.0 (pages_over behind frames.old) works.old.items done }
{
    match done {
        Done::Created(fork) => {
            frames.create(&fork);
            enter(works, Work::Make(fork), end);
        }
        Done::Cut(rel, count) => {
            let fork = main_fork(rel);
            frames.cut(&fork, count);
            enter(works, Work::Cut(fork, count), end);
        }
        Done::Put(pages) => put_pages(frames, pages, end),
        Done::Dropped(rel) => {
            drop_fork(frames, works, &main_fork(rel), end);
            drop_fork(frames, works, &init_fork(rel), end);
        }
    }
}

/// Takes a fork away, where it is there, and enters its removal, where there is room for it.
fn drop_fork(frames: &mut Frames, works: &mut Vec<Pending>, fork: &ForkId, end: Lsn)
    requires { vec_len works.old < vec_capacity works.old }
    ensures pages { (behind : BlockId → List ℕ)
        → pages_over behind frames.new ≡ without_fork (pages_over behind frames.old) fork.now }
    ensures marks { (behind : BlockId → List ℕ) → marks_over frames.new
        ≡ marks_without (pages_over behind frames.old) (marks_over frames.old) fork.now }
    ensures works { (behind : BlockId → List ℕ) → works.new.items
        ≡ with_removal end.0 (pages_over behind frames.old) works.old.items fork.now }
    ensures room { room_in works.old ≤ room_in works.new + 1 }
{
    if frames.blocks(fork).is_some() {
        frames.remove(fork);
        enter(works, Work::Remove(*fork), end);
    }
}

/// Enters a pending work, where there is room for one more.
fn enter(works: &mut Vec<Pending>, work: Work, end: Lsn)
    requires { vec_len works.old < vec_capacity works.old }
    ensures items { works.new.items
        ≡ works.old.items ++ (record { work = work; end = end } ∷ []) }
    ensures room { room_in works.old ≤ room_in works.new + 1 }
{
    works.push_reserved(Pending { work, end });
}

/// Puts pages in turn, touched by an entry that ends there, where there is room for them.
fn put_pages(frames: &mut Frames, pages: Vec<NewPage>, end: Lsn)
    requires places { ArePlaces frames.old.lengths pages.items }
    requires room { All (λ p. HasRoomAt frames.old p.at) pages.items }
    ensures pages { (behind : BlockId → List ℕ)
        → pages_over behind frames.new ≡ pages_put end.0 pages.items
        (pages_over behind frames.old) }
    ensures marks { marks_over frames.new ≡ pages_touched end.0
        (marks_over frames.old) pages.items }
{
    for new in pages {
        put_page(frames, new, end);
    }
}

/// Puts a page at its block, touched by an entry that ends there.
fn put_page(frames: &mut Frames, new: NewPage, end: Lsn)
    requires room { HasRoomAt frames.old new.at }
    requires place { HasPlace frames.old.lengths new.at }
    ensures pages { (behind : BlockId → List ℕ) → pages_over behind frames.new
        ≡ page_put new.at (with_lsn end.0 (box_value new.page)) (pages_over behind frames.old) }
    ensures marks { marks_over frames.new ≡ touched end.0 (marks_over frames.old) new.at }
    ensures lengths { frames.new.lengths ≡ raised frames.old.lengths new.at }
    ensures kept { KeepsReserved frames.old frames.new }
{
    let NewPage { at, mut page } = new;
    set_lsn(&mut page, end.0);
    frames.put(&at, page, end.0);
}

//! A backup by the machine of steps, while another worker changes pages: what each step answers,
//! and what the backup's copy has. The places of the first three entries are those of an
//! independent implementation of the formats, and the others follow from the entries' lengths.

ghost use Rattle.std.specs.Prelude.{◌≡◌, IfOk};

use crate::flushed::{PUT, page_of, settings};
use core_machine::Machine;
use history::{Edit, Item, Items, Op};
use lsn_core::{BlockId, Lsn, NoMemory};
use std::alloc::Global;
use std::test::Fail;
use store_core::{Asked, Reply, Step, Wrote};
use test_areas::{Wrong, main_fork};

/// What is done with the main fork of 5/16384 and its partition: changes by worker 0, and the
/// backup by worker 1.
#[derive(Clone, Copy)]
pub enum Does {
    Creates,
    /// A page with a hole, filled with this byte, is put at a block.
    Puts(u32, u8),
    /// The fork is cut to so many blocks.
    Cuts(u32),
    /// The relation is dropped.
    Drops,
    Writes,
    Cleans(u32),
    Starts,
    Begins,
    /// An incremental backup over the finished one of this number.
    BeginsOver(u32),
    Publishes,
    Lists(u32),
    Copies(u32),
    Ends,
}

/// What a step answers.
#[derive(Clone, Copy, PartialEq, Eq)]
pub enum Answer {
    Idle,
    /// The command became the entry of this number, which ends there.
    Accepted(u64, Lsn),
    Refused,
    Full,
    Made,
    Cut,
    Removed,
    Page(u32),
    Cleaned(Lsn),
    Started(Lsn),
    Completed(Lsn),
    Published(Lsn),
    /// The first fork has so many blocks.
    Listed(Option<u32>),
    Copied(bool),
    Ended(Lsn),
}

/// The block of this number.
pub fn block_of(block: u32) -> Result<BlockId, Wrong>
    ensures { IfOk result (λ at. at.block ≡ block) }
{
    let fork = main_fork(16384).ok_or(Wrong::Step(0))?;
    Ok(BlockId { fork, block })
}

fn change(alloc: Global, item: Item) -> Result<Op, NoMemory> {
    let mut items = Vec::new(alloc);
    items.push(item)?;
    Ok(Op::Change(Items::from_vec(items)))
}

/// The command that puts a page.
fn put(alloc: Global, block: u32, fill: u8) -> Result<Op, Wrong> {
    let page = page_of(alloc, fill)?.ok_or(Wrong::Step(0))?;
    let at = block_of(block)?;
    let edit = Edit::Put(page);
    Ok(change(alloc, Item { at, edit })?)
}

fn step_of(alloc: Global, does: Does) -> Result<Step, Wrong> {
    Ok(match does {
        Does::Creates => Step::Insert(0, Op::Create(block_of(0)?.fork)),
        Does::Puts(block, fill) => Step::Insert(0, put(alloc, block, fill)?),
        Does::Cuts(count) => Step::Insert(0, Op::Truncate(block_of(0)?.fork.rel, count)),
        Does::Drops => Step::Insert(0, Op::Drop(block_of(0)?.fork.rel)),
        Does::Writes => Step::WritePage(0),
        Does::Cleans(part) => Step::Clean(part),
        Does::Starts => Step::Redo(1),
        Does::Begins => Step::Begin(1, Asked::Full),
        Does::BeginsOver(number) => Step::Begin(1, Asked::Incr(number)),
        Does::Publishes => Step::Publish,
        Does::Lists(part) => Step::ListForks(1, part),
        Does::Copies(block) => Step::CopyBlock(1, block_of(block)?),
        Does::Ends => Step::End(1),
    })
}

fn answer_of(reply: &Reply) -> Answer {
    match reply {
        Reply::Idle => Answer::Idle,
        Reply::Accepted(receipt) => Answer::Accepted(receipt.number, receipt.place.end),
        Reply::Refused(_) => Answer::Refused,
        Reply::WalFull(_) => Answer::Full,
        Reply::Written(Wrote::Made(_)) => Answer::Made,
        Reply::Written(Wrote::Cut(_, _)) => Answer::Cut,
        Reply::Written(Wrote::Removed(_)) => Answer::Removed,
        Reply::Written(Wrote::Page(at)) => Answer::Page(at.block),
        Reply::Cleaned(redo) => Answer::Cleaned(*redo),
        Reply::Started(place) => Answer::Started(*place),
        Reply::Completed(place) => Answer::Completed(*place),
        Reply::Published(place) => Answer::Published(*place),
        Reply::Listed(list) => Answer::Listed(match list.as_slice().first() {
            Some(first) => Some(first.blocks),
            None => None,
        }),
        Reply::Copied(found) => Answer::Copied(*found),
        Reply::Ended(place) => Answer::Ended(*place),
    }
}

/// Where the checkpoint starts, behind the first page.
const REDO: Lsn = PUT;

/// Where the entry of the page that is put while the backup runs ends.
const AGAIN: Lsn = Lsn(0x1001D8);

/// Where the backup ends.
const END: Lsn = Lsn(0x100278);

/// A backup: a page is changed behind the listing and before it is copied, and one is added.
static BACKUP: [(Does, Answer); 29] = [
    (Does::Puts(0, 65), Answer::Refused),
    (Does::Creates, Answer::Accepted(1, Lsn(0x100090))),
    (Does::Puts(0, 65), Answer::Accepted(2, PUT)),
    (Does::Begins, Answer::Idle),
    (Does::Starts, Answer::Started(REDO)),
    (Does::Starts, Answer::Idle),
    (Does::Writes, Answer::Made),
    (Does::Begins, Answer::Idle),
    (Does::Cleans(0), Answer::Cleaned(REDO)),
    (Does::Cleans(1), Answer::Cleaned(REDO)),
    (Does::Cleans(2), Answer::Cleaned(REDO)),
    (Does::Begins, Answer::Idle),
    (Does::Cleans(3), Answer::Cleaned(REDO)),
    (Does::Copies(0), Answer::Idle),
    (Does::Begins, Answer::Completed(Lsn(0x100128))),
    (Does::Copies(0), Answer::Idle),
    (Does::Lists(0), Answer::Listed(Some(1))),
    (Does::Lists(0), Answer::Idle),
    (Does::Puts(0, 66), Answer::Accepted(5, AGAIN)),
    (Does::Puts(1, 67), Answer::Accepted(6, Lsn(0x100250))),
    (Does::Writes, Answer::Page(0)),
    (Does::Copies(0), Answer::Copied(true)),
    (Does::Copies(0), Answer::Idle),
    (Does::Copies(1), Answer::Idle),
    (Does::Lists(1), Answer::Listed(None)),
    (Does::Lists(2), Answer::Listed(None)),
    (Does::Ends, Answer::Idle),
    (Does::Lists(3), Answer::Listed(None)),
    (Does::Ends, Answer::Ended(END)),
];

fn push(steps: &mut Vec<Step>, step: Step) -> Result<(), NoMemory> {
    Ok(steps.push(step)?)
}

/// The steps in which these things are done.
fn steps_of(alloc: Global, table: &[(Does, Answer)]) -> Result<Vec<Step>, Wrong> {
    let mut steps = Vec::new(alloc);
    for (does, _) in table {
        push(&mut steps, step_of(alloc, *does)?)?;
    }
    Ok(steps)
}

/// Takes steps in turn. The first one that answers otherwise is the error.
pub fn take_in_turn(
    alloc: Global,
    machine: &mut Machine,
    table: &[(Does, Answer)],
) -> Result<(), Wrong> {
    let steps = steps_of(alloc, table)?;
    let replies = machine.run_steps(alloc, &steps)?;
    for at in 0..table.len() {
        let reply = replies.get(at).ok_or(Wrong::Step(at))?;
        if answer_of(reply) != table[at].1 {
            return Err(Wrong::Step(at));
        }
    }
    Ok(())
}

#[test]
fn a_backup_runs_beside_changes(rt: HostRuntime) -> Result<(), Fail> {
    let alloc = rt.alloc();
    let settings = settings().ok_or("no settings")?;
    let mut machine = Machine::new(alloc, &settings)?;
    take_in_turn(alloc, &mut machine, &BACKUP)?;
    assert_eq!(rt; machine.records().len(), 8);
    let backup = machine.finished().first().ok_or("no backup")?;
    assert!(rt; backup.start == REDO && backup.end == END);
    let at = block_of(0)?;
    assert!(rt; backup.copy.fork_count() == 1 && backup.copy.blocks(&at.fork) == Some(1));
    assert_eq!(rt; pg_page::lsn_of(&backup.copy.page_at(&at)), AGAIN.0);
    Ok(())
}

//! Passes of one open store, in one thread: what their calls answer, with the numbers of their
//! commands' entries in the history, and among those of each. Answers are expected by the rules of
//! commands, of writes and of checkpoints alone, from the steps that were taken before.

ghost use Rattle.std.specs.Prelude.{◌≡◌, true, IsSome};
ghost use Rattle.store_lifecycle.specs.Starts.{AreNamed, AreStarts};
ghost use Rattle.store_areas.specs.Begin.{IsStanding};

use crate::commands::{Does, op_of};
use lsn_core::NoMemory;
use memory_vault::MemVault;
use shared_store::{Pass, Store};
use std::alloc::Global;
use std::marker::Brand;
use std::sync::Wait;
use store_areas::{Found, StoreAreas};
use store_faults::InsertFault;
use store_finding::find;
use store_insertion::insert_command;
use store_ledgers::Blanks;
use store_lifecycle::{Began, begin};
use store_locks::OfCrew;
use test_areas::{NEW_WAL, SEGMENT, SETTINGS, Wrong};
use vault::Vault;

/// A call of a pass.
#[derive(Clone, Copy)]
enum Calls {
    /// It inserts this command.
    Inserts(Does),
    /// It writes what comes first in the partition of the fork.
    Writes,
    /// It makes a checkpoint.
    Marks,
    /// It looks at the history.
    Looks,
}

/// Which pass makes which call.
type Step = (usize, Calls);

/// What a call answers.
#[derive(Clone, Copy, Debug, PartialEq, Eq)]
enum Told {
    /// The command's entry has this number in the history, and this one among those of its pass.
    Accepted(u64, u64),
    Refused(InsertFault),
    /// Whether something was written.
    Wrote(bool),
    Marked,
    /// So many commands of the pass were accepted.
    Counts(u64),
}

/// The area of a new WAL.
fn wal_area(alloc: Global) -> Result<MemVault, Wrong> {
    let mut area = MemVault::new(alloc, &[])?;
    area.write_at(b"settings", 0, SETTINGS)?;
    area.write_at(SEGMENT, 0, &NEW_WAL)?;
    Ok(area)
}

/// The areas of a new store.
fn areas(alloc: Global) -> Result<StoreAreas<MemVault>, Wrong> {
    Ok(StoreAreas {
        wal: wal_area(alloc)?,
        data0: MemVault::new(alloc, &[])?,
        data1: MemVault::new(alloc, &[])?,
        data2: MemVault::new(alloc, &[])?,
        data3: MemVault::new(alloc, &[])?,
    })
}

/// What a call of a pass answers.
fn answer<J: OfCrew, V: Vault>(
    rt: &impl Wait,
    alloc: Global,
    store: &Store<J, V>,
    pass: &mut Pass<J>,
    call: Calls,
) -> Result<Told, Wrong> {
    match call {
        Calls::Inserts(does) => match insert_command(store, rt, alloc, pass, &op_of(alloc, does)?) {
            Ok(receipt) => Ok(Told::Accepted(receipt.number, receipt.seq)),
            Err(fault) => Ok(Told::Refused(fault)),
        },
        Calls::Writes => match store.write_page(rt, alloc, pass, 0) {
            Ok(turn) => Ok(Told::Wrote(turn.wrote().is_some())),
            Err(_) => Err(Wrong::Step(1)),
        },
        Calls::Marks => match store.checkpoint(rt, alloc, pass) {
            Ok(_) => Ok(Told::Marked),
            Err(_) => Err(Wrong::Step(2)),
        },
        Calls::Looks => {
            store.look(rt, pass);
            Ok(Told::Counts(pass.accepted()))
        }
    }
}

/// Keeps one more of a list.
fn keep<T: Drop>(list: &mut Vec<T>, one: T) -> Result<(), NoMemory> {
    Ok(list.push(one)?)
}

/// What the steps answer, taken in turn.
fn in_turn<J: OfCrew, V: Vault>(
    rt: &impl Wait,
    alloc: Global,
    began: Began<J, V>,
    steps: &[Step],
) -> Result<Vec<Told>, Wrong> {
    let Began { store, crew, .. } = began;
    let mut crew = crew;
    let mut told = Vec::new(alloc);
    for (pass, call) in steps {
        let Some(pass) = crew.get_mut(*pass) else {
            return Err(Wrong::Step(0));
        };
        let answer = answer(rt, alloc, &store, pass, *call)?;
        keep(&mut told, answer)?;
    }
    Ok(told)
}

/// The same on a store that was found, at the name that the call's proof picks.
fn on_found<J: OfCrew, V: Vault>(
    rt: &impl Wait,
    alloc: Global,
    found: Found<V>,
    blanks: Blanks,
    passes: u32,
    steps: &[Step],
) -> Result<Vec<Told>, Wrong>
    requires names { (found.opened.table ≡ J.table) × (found.opened.list ≡ J.found)
        × (found.settings ≡ J.settings) }
    requires ledgers { AreNamed J.entries_named J.faults_named J.made_named J.passes blanks }
    requires crew { (J.workers ≡ passes) × (J.passes ≡ J.workers) }
    requires starts { AreStarts V.Vault J.starts J.wal found }
    requires stands { IsStanding V.Vault found }
    requires told { J.tells ≡ true → IsSome (V.files found.wal) }
{
    match begin::<J, V>(alloc, found, blanks, passes) {
        Ok(began) => in_turn(rt, alloc, began, steps),
        Err(_) => Err(Wrong::Step(0)),
    }
}

/// The same, by the names of what was found and of the ledgers that are handed over.
fn on_named<V: Vault>(
    rt: &impl Wait,
    alloc: Global,
    found: Found<V>,
    blanks: Blanks,
    passes: u32,
    steps: &[Step],
) -> Result<Vec<Told>, Wrong>
    requires entries { (blanks.entries0.parts ≡ 1) × (blanks.entries1.parts ≡ 1)
        × (blanks.entries2.parts ≡ 1) × (blanks.entries3.parts ≡ 1) }
    requires made { blanks.made.parts ≡ passes }
    requires faults { (blanks.data0.parts ≡ passes) × (blanks.data1.parts ≡ passes)
        × (blanks.data2.parts ≡ passes) × (blanks.data3.parts ≡ passes)
        × (blanks.wal.parts ≡ passes) × (blanks.sums.parts ≡ passes) }
    requires stands { IsStanding V.Vault found }
{
    on_found::<Brand, V>(rt, alloc, found, blanks, passes, steps)
}

/// What the steps answer that so many passes of a new store take.
fn told_by(rt: &impl Wait, alloc: Global, passes: u32, steps: &[Step]) -> Result<Vec<Told>, Wrong> {
    let blanks = Blanks::new(u64::from(passes));
    match find(alloc, areas(alloc)?, 64) {
        Ok(found) => on_named(rt, alloc, found, blanks, passes, steps),
        Err(_) => Err(Wrong::Step(0)),
    }
}

/// The first pass creates the fork, the second one puts its block 0, and the first one patches
/// that.
static NUMBERED: [Step; 3] = [
    (0, Calls::Inserts(Does::Creates)),
    (1, Calls::Inserts(Does::Puts(0, 65))),
    (0, Calls::Inserts(Does::Patches(0, 100))),
];

#[test]
fn two_passes_number_their_commands(rt: HostRuntime) -> Result<(), Wrong> {
    let told = told_by(&rt, rt.alloc(), 2, &NUMBERED)?;
    let numbers = [
        Told::Accepted(1, 0),
        Told::Accepted(2, 0),
        Told::Accepted(3, 1),
    ];
    assert_eq!(rt; told.as_slice(), numbers.as_slice());
    Ok(())
}

/// What the rules say of a store by the steps so far: how many entries its history has, how many
/// commands of each pass were accepted, how many blocks the fork has where it is there, and whether
/// its creation, and its block 0, is still to be written.
#[derive(Clone, Copy)]
struct Ruled {
    entries: u64,
    accepted: [u64; 8],
    blocks: Option<u32>,
    made: bool,
    dirty: bool,
}

/// A new store: its history has the first entry alone.
const NEW: Ruled = Ruled {
    entries: 1,
    accepted: [0; 8],
    blocks: None,
    made: false,
    dirty: false,
};

impl Ruled {
    /// Why a command is refused, if it is.
    fn refusal(&self, does: Does) -> Option<InsertFault> {
        match (does, self.blocks) {
            (Does::Creates, None) => None,
            (Does::Creates, Some(_)) => Some(InsertFault::ForkExists(self.entries)),
            (_, None) => Some(InsertFault::NoFork(self.entries)),
            (Does::Patches(_, _), Some(0)) => Some(InsertFault::NoBlock(self.entries)),
            _ => None,
        }
    }

    /// An accepted command creates the fork, or it puts or patches its block 0.
    fn does(&mut self, does: Does) {
        if let Does::Creates = does {
            self.blocks = Some(0);
            self.made = true;
        } else {
            self.blocks = Some(1);
            self.dirty = true;
        }
    }

    /// What a command of a pass is answered.
    fn inserted(&mut self, pass: usize, does: Does) -> Option<Told> {
        if let Some(fault) = self.refusal(does) {
            return Some(Told::Refused(fault));
        }
        let accepted = self.accepted.get_mut(pass)?;
        let told = Told::Accepted(self.entries, *accepted);
        *accepted = accepted.saturating_add(1);
        self.entries = self.entries.saturating_add(1);
        self.does(does);
        Some(told)
    }

    /// Whether something is written: the creation, and the page behind it.
    fn wrote(&mut self) -> bool {
        let wrote = self.made || self.dirty;
        if self.made {
            self.made = false;
        } else {
            self.dirty = false;
        }
        wrote
    }

    /// A checkpoint writes all, and adds its start and its end.
    fn marks(&mut self) {
        self.made = false;
        self.dirty = false;
        self.entries = self.entries.saturating_add(2);
    }

    /// What a call of a pass is to answer.
    fn answer(&mut self, pass: usize, call: Calls) -> Option<Told> {
        match call {
            Calls::Inserts(does) => self.inserted(pass, does),
            Calls::Writes => Some(Told::Wrote(self.wrote())),
            Calls::Marks => {
                self.marks();
                Some(Told::Marked)
            }
            Calls::Looks => Some(Told::Counts(*self.accepted.get(pass)?)),
        }
    }
}

/// What steps over a new store are to answer, taken in turn.
fn expected(alloc: Global, steps: &[Step]) -> Result<Vec<Told>, Wrong> {
    let mut ruled = NEW;
    let mut told = Vec::new(alloc);
    for (pass, call) in steps {
        let answer = ruled.answer(*pass, *call).ok_or(Wrong::Step(*pass))?;
        keep(&mut told, answer)?;
    }
    Ok(told)
}

/// Each step is picked of those that are left by a digit of the number.
fn in_order(alloc: Global, steps: &[Step], number: usize) -> Result<Vec<Step>, NoMemory> {
    let mut left = Vec::from_slice(alloc, steps)?;
    let mut order = Vec::new(alloc);
    let mut number = number;
    for _ in 0..steps.len() {
        let count = left.len();
        if count == 0 {
            break;
        }
        order.push(left.remove(number % count))?;
        number /= count;
    }
    Ok(order)
}

/// The steps from this one on, and those before it behind them, twice.
fn turned(alloc: Global, steps: &[Step], first: usize) -> Result<Vec<Step>, NoMemory> {
    let mut order = Vec::new(alloc);
    if let Some((before, behind)) = steps.split_at_checked(first) {
        for part in [behind, before, behind, before] {
            order.extend_from_slice(part)?;
        }
    }
    Ok(order)
}

/// How many orders five steps have.
const ORDERS: usize = 120;

/// What two passes do.
static OF_TWO: [Step; 5] = [
    (0, Calls::Inserts(Does::Creates)),
    (1, Calls::Inserts(Does::Puts(0, 65))),
    (0, Calls::Inserts(Does::Patches(0, 100))),
    (1, Calls::Marks),
    (0, Calls::Writes),
];

#[test]
fn two_passes_are_answered_in_every_order(rt: HostRuntime) -> Result<(), Wrong> {
    for number in 0..ORDERS {
        let steps = in_order(rt.alloc(), &OF_TWO, number)?;
        let told = told_by(&rt, rt.alloc(), 2, &steps)?;
        assert_eq!(rt;
            told.as_slice(),
            expected(rt.alloc(), &steps)?.as_slice(),
            "{number}"
        );
    }
    Ok(())
}

/// What eight passes do.
static OF_EIGHT: [Step; 8] = [
    (0, Calls::Inserts(Does::Creates)),
    (1, Calls::Inserts(Does::Puts(0, 65))),
    (2, Calls::Writes),
    (3, Calls::Inserts(Does::Patches(0, 100))),
    (4, Calls::Marks),
    (5, Calls::Inserts(Does::Creates)),
    (6, Calls::Inserts(Does::Patches(0, 200))),
    (7, Calls::Looks),
];

#[test]
fn eight_passes_are_answered_from_each_step_on(rt: HostRuntime) -> Result<(), Wrong> {
    for first in 0..OF_EIGHT.len() {
        let steps = turned(rt.alloc(), &OF_EIGHT, first)?;
        let told = told_by(&rt, rt.alloc(), 8, &steps)?;
        assert_eq!(rt;
            told.as_slice(),
            expected(rt.alloc(), &steps)?.as_slice(),
            "{first}"
        );
    }
    Ok(())
}

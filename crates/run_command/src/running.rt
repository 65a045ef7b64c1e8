//! A script, run on the areas of a store.

ghost use Rattle.std.specs.Prelude.{◌≡◌, ◌≤◌, [], true, length, IfOk, IfErr, IsSome, box_value};
ghost use Rattle.store_lifecycle.specs.Starts.{AreBack, AreNamed, AreStarts, fresh_passes};
ghost use Rattle.store_areas.specs.Begin.{IsStanding};
ghost use Rattle.journal.specs.Lawful.{IsLawful};
ghost use Rattle.vault.specs.Lending.{AreLater, names_of};
ghost use Rattle.summary_store.specs.Expiry.{age_limit};
ghost use Rattle.crew.specs.Run.{basis_of};
ghost use Rattle.run_command.specs.Run.{tasks_told};
ghost use Rattle.run_command.specs.Inner.{AreNamesFor, EndsRun, HasRoom, HasRunOn, HaveParts, IsWork};
ghost use Rattle.run_command.specs.Inner.{RunsCrew, RunsOn, RunsShared, passes_for, tasks_of};
ghost use Rattle.run_command.specs.Inner.{tell_found, basis_found, wal_start, starts_of};

use crate::seats::{Work, raise_all, seat_all};
use backup_sending::Gate;
use crew::{Worker, run_crew};
use lsn_core::{Lsn, StoreFault};
use recovery::RecoveryFault;
use run_answers::{RunReport, ToldTasks};
use shared_store::{Pass, Store};
use shared_summaries::{OfRetention, Summaries};
use std::alloc::Global;
use std::boxed::Box;
use std::marker::Brand;
use std::sync::Wait;
use std::sync::ledger::Book;
use std::thread::Threads;
use store_areas::{Found, StoreAreas};
use store_faults::BeginWhy;
use store_finding::find;
use store_ledgers::{AreaFaults, Blanks};
use store_lifecycle::{Began, begin, close};
use vault::{Held, Vault};

/// Runs the lines of a crew's workers side by side on an open store, with the areas of their
/// backups, at this moment. There is room for the crew.
fn run_work<R: Threads + Wait + Sync, J: OfRetention + Send + Sync, V: Vault, G: Gate>(
    rt: &R,
    alloc: Global,
    store: &Store<J, V>,
    sums: &Summaries<J, V>,
    crew: Vec<Worker<J, V>>,
    passes: &mut Vec<Pass<J>>,
    held: &mut Vec<Held<V>>,
    work: Work<V>,
    gate: &G,
    when: u64,
) -> ToldTasks
    requires work { IsWork work }
    requires when { when ≤ 253402207199 }
    requires young { J.limit ≤ when }
    requires names { AreNamesFor work.seats.items (names_of held.old.items) }
    requires room { HasRoom crew (length work.seats.items) }
    requires passes { length work.seats.items ≤ length passes.old.items }
    ensures ran { RunsCrew V.Vault (J.tells ≡ true)
        (basis_of J.settings when J.found J.sums J.limit)
        passes.old.items passes.new.items held.old.items held.new.items result }
    ensures script { tasks_told result ≡ tasks_of work.seats.items }
    ensures later { AreLater V.Vault held.old.items held.new.items }
{
    let Work { seats, told } = work;
    let (mut crew, mut told) = (crew, told);
    seat_all(&mut crew, seats, passes, held);
    run_crew(rt, alloc, store, sums, &mut crew, gate, when);
    raise_all(crew, passes, held, &mut told);
    ToldTasks::from_vec(told)
}

/// Shares the area of the summaries on an open store, runs a script there, and takes the area back.
/// The first pass learns what was known of the summaries.
fn run_shared<R: Threads + Wait + Sync, J: OfRetention + Send + Sync, V: Vault, G: Gate>(
    rt: &R,
    alloc: Global,
    store: &Store<J, V>,
    sums: Box<V>,
    book: Book<AreaFaults<J, 5>>,
    crew: Vec<Worker<J, V>>,
    passes: &mut Vec<Pass<J>>,
    held: &mut Vec<Held<V>>,
    work: Work<V>,
    gate: &G,
    days: u32,
    when: u64,
) -> (V, Book<AreaFaults<J, 5>>, ToldTasks)
    requires work { IsWork work }
    requires when { when ≤ 253402207199 }
    requires limit { J.limit ≡ age_limit days when }
    requires names { AreNamesFor work.seats.items (names_of held.old.items) }
    requires room { HasRoom crew (length work.seats.items) }
    requires fresh { passes.old.items ≡ fresh_passes (passes_for work.seats.items) J.found }
    requires sums { (J.sums ≡ V.files (box_value sums))
        × (J.starts 5 ≡ V.faults (box_value sums)) }
    requires book { book.total ≡ 0 }
    ensures ran { RunsShared V.Vault (J.tells ≡ true)
        (basis_of J.settings when J.found J.sums J.limit)
        (J.starts 5) passes.new.items result.0 result.1.total held.old.items held.new.items
        result.2 }
    ensures script { tasks_told result.2 ≡ tasks_of work.seats.items }
    ensures later { AreLater V.Vault held.old.items held.new.items }
{
    let sums = Summaries::begin(sums, store, &mut passes[0], book, days, when);
    let told = run_work(
        rt, alloc, store, &sums, crew, passes, held, work, gate, when,
    );
    let (sums, book) = sums.close(store, &mut passes[0]);
    (sums, book, told)
}

/// Runs a script on a store that was begun for its workers, and closes it.
fn run_begun<R: Threads + Wait + Sync, J: OfRetention + Send + Sync, V: Vault, G: Gate>(
    rt: &R,
    alloc: Global,
    began: Began<J, V>,
    sums: Box<V>,
    crew: Vec<Worker<J, V>>,
    held: &mut Vec<Held<V>>,
    work: Work<V>,
    gate: &G,
    days: u32,
    when: u64,
) -> (StoreAreas<V>, V, ToldTasks, Result<Lsn, StoreFault>)
    requires work { IsWork work }
    requires when { when ≤ 253402207199 }
    requires limit { J.limit ≡ age_limit days when }
    requires names { AreNamesFor work.seats.items (names_of held.old.items) }
    requires room { HasRoom crew (length work.seats.items) }
    requires workers { (J.workers ≡ passes_for work.seats.items) × (J.passes ≡ J.workers) }
    requires sums { (J.sums ≡ V.files (box_value sums))
        × (J.starts 5 ≡ V.faults (box_value sums)) }
    requires book { began.sums.total ≡ 0 }
    requires fresh { began.crew.items ≡ fresh_passes (passes_for work.seats.items) J.found }
    ensures ran { HasRunOn V.Vault (J.tells ≡ true)
        (basis_of J.settings when J.found J.sums J.limit)
        J.wal J.starts result.0 result.1 held.old.items held.new.items result.2 result.3 }
    ensures script { tasks_told result.2 ≡ tasks_of work.seats.items }
    ensures later { AreLater V.Vault held.old.items held.new.items }
{
    let Began {
        store,
        crew: passes,
        sums: book,
    } = began;
    let mut passes = passes;
    let (sums, book, told) = run_shared(
        rt,
        alloc,
        &store,
        sums,
        book,
        crew,
        &mut passes,
        held,
        work,
        gate,
        days,
        when,
    );
    let mut book = book;
    let (areas, closed) = close(store, alloc, passes, &mut book);
    (areas, sums, told, closed)
}

/// The areas of a store that was found, as they were found.
fn areas_back<V: Vault>(found: Found<V>) -> StoreAreas<V>
    ensures { AreBack V.Vault found result }
{
    let Found { wal, parts, .. } = found;
    StoreAreas {
        wal,
        data0: Box::into_inner(parts.part0.into_area().area),
        data1: Box::into_inner(parts.part1.into_area().area),
        data2: Box::into_inner(parts.part2.into_area().area),
        data3: Box::into_inner(parts.part3.into_area().area),
    }
}

/// Begins a store that was found, at the name that the call's proof picks, with so many passes and
/// room for a crew. It errs where there is no memory, and hands the areas back as they were found.
fn begin_crew<J: OfRetention, V: Vault>(
    alloc: Global,
    found: Found<V>,
    blanks: Blanks,
    passes: u32,
) -> Result<(Began<J, V>, Vec<Worker<J, V>>), StoreAreas<V>>
    requires names { (found.opened.table ≡ J.table) × (found.opened.list ≡ J.found)
        × (found.settings ≡ J.settings) }
    requires ledgers { AreNamed J.entries_named J.faults_named J.made_named J.passes blanks }
    requires crew { (passes ≡ J.workers) × (J.passes ≡ J.workers) }
    requires starts { AreStarts V.Vault J.starts J.wal found }
    requires stands { IsStanding V.Vault found }
    requires told { J.tells ≡ true → IsSome (V.files found.wal) }
    ensures crew { IfOk result (λ made. made.0.crew.items ≡ fresh_passes passes J.found) }
    ensures room { IfOk result (λ made. HasRoom made.1 passes) }
    ensures sums { IfOk result (λ made. made.0.sums.total ≡ 0) }
    ensures back { IfErr result (AreBack V.Vault found) }
{
    let Ok(crew) = Vec::with_capacity(alloc, passes as usize) else {
        return Err(areas_back(found));
    };
    match begin::<J, V>(alloc, found, blanks, passes) {
        Ok(began) => Ok((began, crew)),
        Err(areas) => Err(areas),
    }
}

/// Begins a store that was found, at the name that the call's proof picks, for the workers of a
/// script, runs it there, and closes the store.
fn run_found<R: Threads + Wait + Sync, J: OfRetention + Send + Sync, V: Vault, G: Gate>(
    rt: &R,
    alloc: Global,
    found: Found<V>,
    blanks: Blanks,
    sums: Box<V>,
    held: &mut Vec<Held<V>>,
    work: Work<V>,
    gate: &G,
    days: u32,
    when: u64,
) -> (StoreAreas<V>, V, Result<RunReport, BeginWhy>)
    requires work { IsWork work }
    requires when { when ≤ 253402207199 }
    requires limit { J.limit ≡ age_limit days when }
    requires names { AreNamesFor work.seats.items (names_of held.old.items) }
    requires found { (found.opened.table ≡ J.table) × (found.opened.list ≡ J.found)
        × (found.settings ≡ J.settings) }
    requires ledgers { AreNamed J.entries_named J.faults_named J.made_named J.passes blanks }
    requires crew { (J.workers ≡ passes_for work.seats.items) × (J.passes ≡ J.workers) }
    requires starts { AreStarts V.Vault J.starts J.wal found }
    requires sums { (J.sums ≡ V.files (box_value sums))
        × (J.starts 5 ≡ V.faults (box_value sums)) }
    requires stands { IsStanding V.Vault found }
    requires told { J.tells ≡ true → IsSome (V.files found.wal) }
    ensures runs { EndsRun V.Vault (J.tells ≡ true)
        (basis_of J.settings when J.found J.sums J.limit)
        J.wal J.starts found (box_value sums) result.0 result.1 held.old.items held.new.items
        result.2 }
    ensures script { IfOk result.2
        (λ report. tasks_told report.told ≡ tasks_of work.seats.items) }
    ensures later { AreLater V.Vault held.old.items held.new.items }
{
    let opened = found.tip.end;
    let (began, crew) = match begin_crew::<J, V>(alloc, found, blanks, work.passes()) {
        Ok(began) => began,
        Err(areas) => {
            let why = BeginWhy::Data(StoreFault::NoMemory);
            return (areas, Box::into_inner(sums), Err(why));
        }
    };
    let (areas, sums, told, closed) = run_begun(
        rt, alloc, began, sums, crew, held, work, gate, days, when,
    );
    let report = RunReport {
        opened,
        told,
        closed,
    };
    (areas, sums, Ok(report))
}

/// The same, by the names of what was found and of the ledgers that are handed over.
fn run_named<R: Threads + Wait + Sync, V: Vault, G: Gate>(
    rt: &R,
    alloc: Global,
    found: Found<V>,
    blanks: Blanks,
    sums: Box<V>,
    held: &mut Vec<Held<V>>,
    work: Work<V>,
    gate: &G,
    days: u32,
    when: u64,
) -> (StoreAreas<V>, V, Result<RunReport, BeginWhy>)
    requires work { IsWork work }
    requires when { when ≤ 253402207199 }
    requires names { AreNamesFor work.seats.items (names_of held.old.items) }
    requires ledgers { HaveParts (passes_for work.seats.items) blanks }
    requires stands { IsStanding V.Vault found }
    ensures runs { EndsRun V.Vault (tell_found V.Vault found ≡ true)
        (basis_found V.Vault found (box_value sums) when (age_limit days when))
        (wal_start V.Vault found) (starts_of V.Vault found (box_value sums)) found
        (box_value sums) result.0 result.1
        held.old.items held.new.items result.2 }
    ensures script { IfOk result.2
        (λ report. tasks_told report.told ≡ tasks_of work.seats.items) }
    ensures later { AreLater V.Vault held.old.items held.new.items }
{
    run_found::<R, Brand, V, G>(rt, alloc, found, blanks, sums, held, work, gate, days, when)
}

/// Finds a store on areas, with so many frames of each partition, begins it, runs a script on it,
/// and closes it.
fn run_store<R: Threads + Wait + Sync, V: Vault, G: Gate>(
    rt: &R,
    alloc: Global,
    areas: StoreAreas<V>,
    sums: Box<V>,
    frames: u32,
    held: &mut Vec<Held<V>>,
    work: Work<V>,
    gate: &G,
    days: u32,
    when: u64,
) -> (StoreAreas<V>, V, Result<RunReport, BeginWhy>)
    requires work { IsWork work }
    requires when { when ≤ 253402207199 }
    requires names { AreNamesFor work.seats.items (names_of held.old.items) }
    ensures runs { RunsOn V.Vault when (age_limit days when) areas result.0
        (box_value sums) result.1
        held.old.items held.new.items result.2 }
    ensures script { IfOk result.2
        (λ report. tasks_told report.told ≡ tasks_of work.seats.items) }
    ensures later { AreLater V.Vault held.old.items held.new.items }
{
    let blanks = Blanks::new(u64::from(work.passes()));
    match find(alloc, areas, frames) {
        Ok(found) => run_named(rt, alloc, found, blanks, sums, held, work, gate, days, when),
        Err(fault) => (fault.areas, Box::into_inner(sums), Err(fault.why)),
    }
}

/// The same, with the area of summaries on the heap, and with those of the backups as they are
/// handed on.
pub fn run_areas<R: Threads + Wait + Sync, V: Vault, G: Gate>(
    rt: &R,
    alloc: Global,
    areas: StoreAreas<V>,
    sums: V,
    frames: u32,
    held: Vec<Held<V>>,
    work: Work<V>,
    gate: &G,
    days: u32,
    when: u64,
) -> (Vec<Held<V>>, V, StoreAreas<V>, Result<RunReport, BeginWhy>)
    requires work { IsWork work }
    requires when { when ≤ 253402207199 }
    requires names { AreNamesFor work.seats.items (names_of held.items) }
    ensures runs { RunsOn V.Vault when (age_limit days when) areas result.2 sums result.1
        held.items result.0.items result.3 }
    ensures script { IfOk result.3
        (λ report. tasks_told report.told ≡ tasks_of work.seats.items) }
    ensures later { AreLater V.Vault held.items result.0.items }
{
    let mut held = held;
    let sums = match Box::new(alloc, sums) {
        Ok(sums) => sums,
        Err(refused) => {
            let why = BeginWhy::Wal(RecoveryFault::NoMemory);
            return (held, refused.value, areas, Err(why));
        }
    };
    let (areas, sums, answer) = run_store(
        rt, alloc, areas, sums, frames, &mut held, work, gate, days, when,
    );
    (held, sums, areas, answer)
}

//! Lines run on an open store that workers share.

ghost use Rattle.std.specs.Prelude.{◌≡◌, ◌+◌, ◌<◌, ◌≤◌, ◌==◌, ◌∷◌, ◌++◌, if◌then◌else◌};
ghost use Rattle.std.specs.Prelude.{[], true, false, length, IfOk};
ghost use Rattle.std.specs.Vec.{vec_len, vec_capacity};
ghost use Rattle.history.specs.declared.op.Op.{Op};
ghost use Rattle.scripts.specs.declared.script.Command.TheVariants as command;
ghost use Rattle.vault.specs.Lending.{AreLater};
ghost use Rattle.crew.specs.Backups.{area_asked, areas_asked, areas_of, AreHeld};
ghost use Rattle.scripts.specs.Named.{HasOtherPrior, HaveOtherPriors};
ghost use Rattle.crew.specs.Run.{RunsLines, basis_of};
ghost use Rattle.crew.specs.Running.{Inserts, CommandRuns, LineRuns};

use crate::backups::full;
use crate::increments::incr;
use crate::summaries::summarise;
use backup_sending::{Gate, StepKind};
use history::Op;
use lsn_core::{BlockId, Lsn, NoMemory, Place};
use run_answers::Answer;
use scripts::{Command, Line, Order, PageShape, grow_op};
use shared_store::{Pass, Store};
use shared_summaries::{OfRetention, Summaries};
use std::alloc::Global;
use std::sync::Wait;
use store_faults::InsertFault;
use store_insertion::insert_command;
use store_locks::OfCrew;
use vault::{Held, Vault};

/// Inserts a command, which is refused where there was no memory to make it.
fn insert_made<J: OfCrew, V: Vault>(
    rt: &impl Wait,
    alloc: Global,
    store: &Store<J, V>,
    pass: &mut Pass<J>,
    gate: &impl Gate,
    made: Result<Op, NoMemory>,
) -> Result<Place, InsertFault>
    ensures { (asked : Op) → IfOk made (λ op. op ≡ asked)
        → Inserts (J.tells ≡ true) J.settings.segment asked pass.old pass.new result }
{
    let Ok(op) = made else {
        // known: what the pass has seen is lawful
        pass.know();
        return Err(InsertFault::NoMemory);
    };
    match insert_command(store, rt, alloc, pass, &op) {
        Ok(receipt) => {
            gate.passed(pass.worker(), StepKind::Insert);
            Ok(receipt.place)
        }
        Err(fault) => Err(fault),
    }
}

/// Inserts the command of an order.
fn insert<J: OfCrew, V: Vault>(
    rt: &impl Wait,
    alloc: Global,
    store: &Store<J, V>,
    pass: &mut Pass<J>,
    gate: &impl Gate,
    order: &Order,
) -> Answer
    ensures { CommandRuns (J.tells ≡ true) J.settings (command.Insert order.now)
        pass.old pass.new result }
{
    match insert_made(rt, alloc, store, pass, gate, order.op(alloc)) {
        Ok(place) => Answer::Accepted(place),
        Err(fault) => Answer::Refused(fault),
    }
}

/// Where so many entries and one more behind them stand.
fn spanned(k: u32, span: Place, place: Place) -> Place
    ensures { result ≡ (if k == 0 then place
        else record { start = span.start; end = place.end }) }
{
    if k == 0 {
        place
    } else {
        Place {
            start: span.start,
            end: place.end,
        }
    }
}

/// Puts pages from a block on, by a command each, up to the first that is refused.
fn grow<J: OfCrew, V: Vault>(
    rt: &impl Wait,
    alloc: Global,
    store: &Store<J, V>,
    pass: &mut Pass<J>,
    gate: &impl Gate,
    at: &BlockId,
    count: u32,
    shape: PageShape,
) -> Answer
    ensures { CommandRuns (J.tells ≡ true) J.settings (command.Grow at.now count shape)
        pass.old pass.new result }
{
    let mut span = Place {
        start: Lsn(0),
        end: Lsn(0),
    };
    for k in 0..count {
        match insert_made(rt, alloc, store, pass, gate, grow_op(alloc, *at, shape, k)) {
            Ok(place) => span = spanned(k, span, place),
            Err(fault) => return Answer::Stopped(k, fault),
        }
    }
    Answer::Grown(count, span)
}

/// Does a checkpoint.
fn checkpoint<J: OfCrew, V: Vault>(
    rt: &impl Wait,
    alloc: Global,
    store: &Store<J, V>,
    pass: &mut Pass<J>,
    gate: &impl Gate,
) -> Answer
    ensures { CommandRuns (J.tells ≡ true) J.settings command.Checkpoint
        pass.old pass.new result }
{
    match store.checkpoint(rt, alloc, pass) {
        Ok((redo, _)) => {
            gate.passed(pass.worker(), StepKind::Begin);
            Answer::Redo(redo.redo)
        }
        Err(fault) => Answer::CheckpointRefused(fault),
    }
}

/// Writes pages back so many times, to the data areas in turn.
fn flush<J: OfCrew, V: Vault>(
    rt: &impl Wait,
    alloc: Global,
    store: &Store<J, V>,
    pass: &mut Pass<J>,
    gate: &impl Gate,
    count: u32,
) -> Answer
    ensures { CommandRuns (J.tells ≡ true) J.settings (command.Flush count)
        pass.old pass.new result }
{
    let mut wrote = 0;
    for k in 0..count {
        match store.write_page(rt, alloc, pass, k % 4) {
            Ok(turn) => {
                gate.passed(pass.worker(), StepKind::WritePage);
                if turn.wrote().is_some() {
                    wrote += 1;
                }
            }
            Err(fault) => return Answer::CallFailed(fault),
        }
    }
    Answer::Wrote(wrote)
}

/// Does what a line says, and gives the answer to it.
fn answer_to<J: OfRetention, V: Vault>(
    rt: &impl Wait,
    alloc: Global,
    store: &Store<J, V>,
    sums: &Summaries<J, V>,
    pass: &mut Pass<J>,
    held: &mut [Held<V>],
    gate: &impl Gate,
    when: u64,
    command: &Command,
) -> Answer
    requires when { when ≤ 253402207199 }
    requires young { J.limit ≤ when }
    requires held { AreHeld (area_asked command.now) held.old }
    requires prior { HasOtherPrior command.now }
    ensures runs { LineRuns (J.tells ≡ true) (basis_of J.settings when J.found J.sums J.limit)
        command.now false pass.old pass.new (areas_of V.Vault held.old)
        (areas_of V.Vault held.new) result }
    ensures later { AreLater V.Vault held.old held.new }
{
    match command {
        Command::Insert(order) => insert(rt, alloc, store, pass, gate, order),
        Command::Grow(at, count, shape) => {
            grow(rt, alloc, store, pass, gate, at, *count, *shape)
        }
        Command::Checkpoint => checkpoint(rt, alloc, store, pass, gate),
        Command::Flush(count) => flush(rt, alloc, store, pass, gate, *count),
        Command::Summarise => summarise(rt, alloc, store, sums, pass, gate, when),
        Command::Full(name) => full(rt, alloc, store, pass, held, gate, when, name),
        Command::Incr(name, prior) => {
            incr(rt, alloc, store, sums, pass, held, gate, when, name, prior)
        }
    }
}

/// Runs a line, unless the worker is stopped, and gives the answer to it.
fn run_line<J: OfRetention, V: Vault>(
    rt: &impl Wait,
    alloc: Global,
    store: &Store<J, V>,
    sums: &Summaries<J, V>,
    pass: &mut Pass<J>,
    held: &mut [Held<V>],
    gate: &impl Gate,
    when: u64,
    line: &Line,
    stopped: bool,
) -> Answer
    requires when { when ≤ 253402207199 }
    requires young { J.limit ≤ when }
    requires held { AreHeld (area_asked line.now.command) held.old }
    requires prior { HasOtherPrior line.now.command }
    ensures runs { LineRuns (J.tells ≡ true) (basis_of J.settings when J.found J.sums J.limit)
        line.now.command stopped pass.old pass.new (areas_of V.Vault held.old)
        (areas_of V.Vault held.new) result }
    ensures later { AreLater V.Vault held.old held.new }
{
    if stopped {
        Answer::NotRun
    } else {
        answer_to(
            rt,
            alloc,
            store,
            sums,
            pass,
            held,
            gate,
            when,
            &line.command,
        )
    }
}

/// Puts an answer where there is room for it.
fn put(answers: &mut Vec<Answer>, answer: Answer)
    requires { vec_len answers.old < vec_capacity answers.old }
    ensures items { answers.new.items ≡ answers.old.items ++ (answer ∷ []) }
    ensures len { vec_len answers.new ≡ vec_len answers.old + 1 }
    ensures capacity { vec_capacity answers.old ≤ vec_capacity answers.new }
{
    if answers.push(answer).is_err() {
        unreachable!()
    }
}

/// Runs the lines of a worker on an open store that workers share, each on what the store holds
/// then, and puts their answers where there is room for them. The areas of its backups are held by
/// their names; that of summaries lies under a lock that workers share. `when` is the moment of
/// what is written there, in seconds since 1970 UTC. After a device that failed or want of memory
/// the other lines aren't run. The gate is called, with no lock held, behind each step.
pub fn run_worker<J: OfRetention, V: Vault>(
    rt: &impl Wait,
    alloc: Global,
    store: &Store<J, V>,
    sums: &Summaries<J, V>,
    pass: &mut Pass<J>,
    held: &mut [Held<V>],
    gate: &impl Gate,
    when: u64,
    lines: &[Line],
    answers: &mut Vec<Answer>,
)
    requires when { when ≤ 253402207199 }
    requires young { J.limit ≤ when }
    requires held { AreHeld (areas_asked lines.now) held.old }
    requires priors { HaveOtherPriors lines.now }
    requires none { answers.old.items ≡ [] }
    requires empty { vec_len answers.old ≡ 0 }
    requires room { length lines.now ≤ vec_capacity answers.old }
    ensures run { RunsLines (J.tells ≡ true)
        (basis_of J.settings when J.found J.sums J.limit) lines.now
        pass.old pass.new (areas_of V.Vault held.old) (areas_of V.Vault held.new)
        answers.new.items }
    ensures later { AreLater V.Vault held.old held.new }
{
    let mut stopped = false;
    for line in lines {
        let answer = run_line(
            rt, alloc, store, sums, pass, held, gate, when, line, stopped,
        );
        stopped = answer.stops();
        put(answers, answer);
    }
}

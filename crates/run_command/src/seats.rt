//! The workers of a script: what each needs before areas are asked for, and how they are seated for
//! a run, each with its pass and the areas of its backups.

ghost use Rattle.std.specs.Prelude.{◌≡◌, ◌+◌, ◌<◌, ◌≤◌, ◌∷◌, ◌++◌, [], length, map, IfOk, OnOk};
ghost use Rattle.std.specs.List.{flat_map};
ghost use Rattle.std.specs.Vec.{vec_len, vec_capacity};
ghost use Rattle.scripts.specs.Named.{HaveOtherPriors};
ghost use Rattle.run_command.specs.Run.{NamePriors, run_workers};
ghost use Rattle.run_command.specs.Inner.{AddsSeat, AreNamesFor, AreReady, AreSeated, HasPlaces, HasRoom};
ghost use Rattle.run_command.specs.Inner.{IsReady, IsSeated, IsWork, SitOn, areas_counted};
ghost use Rattle.run_command.specs.Inner.{areas_held, passes_for, passes_of, tasks_of, told_of};

use crate::lending::{asked_areas, keep_names};
use crew::Worker;
use lsn_core::{NoMemory, Text};
use run_answers::{Answer, Answers, Told};
use scripts::{Script, Task};
use shared_store::Pass;
use shared_summaries::OfRetention;
use std::alloc::Global;
use vault::{Held, Vault};

/// A worker that isn't seated yet: its task, how many areas of backups its lines ask for, and room
/// for these and for the answers.
#[derive(Drop)]
pub struct Seat<V: Vault> {
    pub task: Task,
    pub count: usize,
    pub areas: Vec<Held<V>>,
    pub answers: Vec<Answer>,
}

/// What a run needs before it asks for areas: the seats of its workers, and room for what they are
/// told.
#[derive(Drop)]
pub struct Work<V: Vault> {
    pub seats: Vec<Seat<V>>,
    pub told: Vec<Told>,
}

impl<V: Vault> Work<V> {
    /// How many passes the run takes: one for each worker, and one where there is none.
    pub fn passes(&self) -> u32
        requires few { length self.now.seats.items ≤ run_workers }
        ensures { result ≡ passes_for self.now.seats.items }
    {
        self.seats.len().max(1) as u32
    }
}

/// Puts something where there is room for it.
fn put<T: Drop>(list: &mut Vec<T>, one: T)
    requires { vec_len list.old < vec_capacity list.old }
    ensures items { list.new.items ≡ list.old.items ++ (one ∷ []) }
    ensures len { vec_len list.new ≡ vec_len list.old + 1 }
    ensures capacity { vec_capacity list.old ≤ vec_capacity list.new }
{
    if list.push(one).is_err() {
        unreachable!()
    }
}

/// The seat of a task, whose areas are noted behind these names.
fn seat_of<V: Vault>(alloc: Global, task: Task, names: &mut Vec<Text>) -> Result<Seat<V>, NoMemory>
    requires priors { HaveOtherPriors task.lines }
    ensures ready { IfOk result IsReady }
    ensures task { IfOk result (λ seat. seat.task ≡ task) }
    ensures names { IfOk result (λ seat. AddsSeat seat names.old.items names.new.items) }
{
    let asked = asked_areas(alloc, task.lines.as_slice())?;
    let count = asked.len();
    let areas = Vec::with_capacity(alloc, count)?;
    let answers = Vec::with_capacity(alloc, task.lines.as_slice().len())?;
    keep_names(names, asked)?;
    Ok(Seat {
        task,
        count,
        areas,
        answers,
    })
}

/// The seats of a script's workers, and the names of the areas that these ask for, a worker's
/// behind those of the one before it.
pub fn work_of<V: Vault>(alloc: Global, script: Script) -> Result<(Work<V>, Vec<Text>), NoMemory>
    requires few { length script ≤ run_workers }
    requires priors { NamePriors script }
    ensures work { IfOk result (λ made. IsWork made.0) }
    ensures script { IfOk result (λ made. tasks_of made.0.seats.items ≡ script) }
    ensures names { IfOk result (λ made. AreNamesFor made.0.seats.items made.1.items) }
{
    let workers = script.into_workers();
    let told = Vec::with_capacity(alloc, workers.len())?;
    let mut seats = Vec::new(alloc);
    let mut names = Vec::new(alloc);
    for task in workers {
        seats.push(seat_of(alloc, task, &mut names)?)?;
    }
    Ok((Work { seats, told }, names))
}

/// Takes so many areas off the end of those that are held.
fn take_last<V: Vault>(held: &mut Vec<Held<V>>, count: usize, areas: &mut Vec<Held<V>>)
    requires many { count ≤ length held.old.items }
    requires room { HasRoom areas.old count }
    ensures held { held.old.items ≡ held.new.items ++ areas.new.items }
    ensures many { length areas.new.items ≡ count }
    ensures len { vec_len held.new + count ≡ vec_len held.old }
    ensures capacity { vec_capacity held.new ≡ vec_capacity held.old }
{
    for _ in 0..count {
        let Some(one) = held.pop() else {
            unreachable!()
        };
        put(areas, one);
    }
    areas.reverse();
}

/// A worker in its seat, with its pass and its areas, the last of those that are held.
fn seated<J: OfRetention, V: Vault>(
    seat: Seat<V>,
    pass: Pass<J>,
    held: &mut Vec<Held<V>>,
) -> Worker<J, V>
    requires many { seat.count ≤ length held.old.items }
    requires room { HasRoom seat.areas seat.count }
    ensures seated { IsSeated seat result }
    ensures pass { result.pass ≡ pass }
    ensures held { held.old.items ≡ held.new.items ++ result.areas.items }
    ensures len { vec_len held.new + seat.count ≡ vec_len held.old }
    ensures capacity { vec_capacity held.new ≡ vec_capacity held.old }
{
    let Seat {
        task,
        count,
        areas,
        answers,
    } = seat;
    let mut areas = areas;
    take_last(held, count, &mut areas);
    Worker {
        task,
        pass,
        areas,
        answers,
    }
}

/// Seats the workers of a crew, each on its pass.
pub fn seat_all<J: OfRetention, V: Vault>(
    crew: &mut Vec<Worker<J, V>>,
    seats: Vec<Seat<V>>,
    passes: &mut Vec<Pass<J>>,
    held: &mut Vec<Held<V>>,
)
    requires room { HasRoom crew.old (length seats.items) }
    requires ready { AreReady seats.items }
    requires passes { length seats.items ≤ length passes.old.items }
    requires held { areas_counted seats.items ≤ length held.old.items }
    ensures seated { AreSeated seats.items crew.new.items }
    ensures sit { SitOn crew.new.items passes.old.items passes.new.items held.old.items
        held.new.items }
    ensures passes_places { HasPlaces passes.new (length seats.items) }
    ensures held_places { HasPlaces held.new (areas_counted seats.items) }
{
    let mut seats = seats;
    while let Some(seat) = seats.pop() {
        let Some(pass) = passes.pop() else {
            unreachable!()
        };
        put(crew, seated(seat, pass, held));
    }
    crew.reverse();
}

/// Puts areas behind those that are held.
fn hand_back<V: Vault>(held: &mut Vec<Held<V>>, areas: Vec<Held<V>>)
    requires places { HasPlaces held.old (length areas.items) }
    ensures held { held.new.items ≡ held.old.items ++ areas.items }
    ensures len { vec_len held.new ≡ vec_len held.old + length areas.items }
    ensures capacity { vec_capacity held.old ≤ vec_capacity held.new }
{
    for one in areas {
        put(held, one);
    }
}

/// Takes the workers of a crew off their seats: their passes and areas go back where they came
/// from, and what each was told stands with its task.
pub fn raise_all<J: OfRetention, V: Vault>(
    crew: Vec<Worker<J, V>>,
    passes: &mut Vec<Pass<J>>,
    held: &mut Vec<Held<V>>,
    told: &mut Vec<Told>,
)
    requires passes { HasPlaces passes.old (length crew.items) }
    requires held { HasPlaces held.old (length (areas_held crew.items)) }
    requires told { HasPlaces told.old (length crew.items) }
    ensures passes { passes.new.items ≡ passes.old.items ++ passes_of crew.items }
    ensures held { held.new.items ≡ held.old.items ++ areas_held crew.items }
    ensures told { told.new.items ≡ told.old.items ++ told_of crew.items }
{
    for worker in crew {
        let Worker {
            task,
            pass,
            areas,
            answers,
        } = worker;
        put(passes, pass);
        hand_back(held, areas);
        let answers = Answers::from_vec(answers);
        put(told, Told { task, answers });
    }
}

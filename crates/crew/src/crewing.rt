//! Workers that run their lines side by side on one store.

ghost use Rattle.std.specs.Prelude.{◌≡◌, ◌≤◌, true};
ghost use Rattle.std.specs.List.{All};
ghost use Rattle.crew.specs.Crewing.{AllRan, IsReady, HasRun};
ghost use Rattle.crew.specs.Run.{basis_of};

use crate::run::run_worker;
use backup_sending::Gate;
use run_answers::Answer;
use scripts::{MOST_WORKERS, Task};
use shared_store::{Pass, Store};
use shared_summaries::{OfRetention, Summaries};
use std::alloc::Global;
use std::sync::Wait;
use std::thread::{self, Threads};
use vault::{Held, Vault};

/// A worker: its task, its pass, the areas of the backups that its lines name, and the answers to
/// its lines.
#[derive(Drop)]
pub struct Worker<J: OfRetention, V: Vault> {
    pub task: Task,
    pub pass: Pass<J>,
    pub areas: Vec<Held<V>>,
    pub answers: Vec<Answer>,
}

/// Runs the lines of one worker.
fn run_one<J: OfRetention, V: Vault>(
    rt: &impl Wait,
    alloc: Global,
    store: &Store<J, V>,
    sums: &Summaries<J, V>,
    worker: &mut Worker<J, V>,
    gate: &impl Gate,
    when: u64,
)
    requires when { when ≤ 253402207199 }
    requires young { J.limit ≤ when }
    requires ready { IsReady worker.old }
    ensures { HasRun V.Vault (J.tells ≡ true) (basis_of J.settings when J.found J.sums J.limit)
        worker.old worker.new }
{
    run_worker(
        rt,
        alloc,
        store,
        sums,
        &mut worker.pass,
        &mut worker.areas,
        gate,
        when,
        worker.task.lines.as_slice(),
        &mut worker.answers,
    );
}

/// Runs the lines of all workers of a crew on an open store that they share, those of each in a
/// thread of its own where there are 8 at most. Each holds the areas of its backups, and has room
/// for an answer a line. `when` is the moment of what is written there, in seconds since 1970 UTC.
/// The gate is called, with no lock held, behind each step.
pub fn run_crew<R: Threads + Wait + Sync, J: OfRetention + Send + Sync, V: Vault, G: Gate>(
    rt: &R,
    alloc: Global,
    store: &Store<J, V>,
    sums: &Summaries<J, V>,
    crew: &mut [Worker<J, V>],
    gate: &G,
    when: u64,
)
    requires when { when ≤ 253402207199 }
    requires young { J.limit ≤ when }
    requires ready { All IsReady crew.old }
    ensures { AllRan V.Vault (J.tells ≡ true) (basis_of J.settings when J.found J.sums J.limit)
        crew.old crew.new }
{
    thread::for_each_mut(
        rt,
        crew,
        MOST_WORKERS,
        &|_, worker: &mut Worker<J, V>|
            requires { (when ≤ 253402207199) × (J.limit ≤ when) × IsReady worker.now }
        { run_one(rt, alloc, store, sums, worker, gate, when) },
    );
}

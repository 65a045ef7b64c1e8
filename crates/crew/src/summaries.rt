//! Summaries of the WAL, published into the area that workers share.

ghost use Rattle.std.specs.Prelude.{◌≡◌, ◌≤◌, true};
ghost use Rattle.scripts.specs.declared.script.Command.TheVariants as command;
ghost use Rattle.crew.specs.Run.{basis_of};
ghost use Rattle.crew.specs.Running.{RunsAlone};

use backup_sending::{Gate, StepKind};
use run_answers::Answer;
use shared_store::{Pass, Store};
use shared_summaries::{OfRetention, Summaries};
use std::alloc::Global;
use std::sync::Wait;
use vault::Vault;

/// Publishes the summaries that are finished of what the pass sees, and removes the old ones.
pub(crate) fn summarise<J: OfRetention, V: Vault>(
    rt: &impl Wait,
    alloc: Global,
    store: &Store<J, V>,
    sums: &Summaries<J, V>,
    pass: &mut Pass<J>,
    gate: &impl Gate,
    when: u64,
) -> Answer
    requires { J.limit ≤ when }
    ensures { RunsAlone (J.tells ≡ true) (basis_of J.settings when J.found J.sums J.limit)
        command.Summarise pass.old pass.new result }
{
    match sums.advance(rt, alloc, store, pass, when) {
        Ok(count) => {
            gate.passed(pass.worker(), StepKind::Publish);
            Answer::Published(count)
        }
        Err(why) => Answer::CallFailed(why),
    }
}

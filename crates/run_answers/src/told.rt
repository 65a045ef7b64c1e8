//! A script's workers with what their lines were answered.

ghost use Rattle.std.specs.Prelude.{◌≡◌};
ghost use Rattle.std.specs.Option.{option_map};
ghost use Rattle.run_answers.specs.Report.{first_stop, first_told};

use crate::answer::{Answers, Stop};
use scripts::{Line, Task};
use std::marker::Model;

/// A worker's task, and the answers to its lines, one each.
#[derive(Debug, Drop)]
pub struct Told {
    pub task: Task,
    pub answers: Answers,
}

impl Told {
    /// The first line by whose answer the worker was stopped, and by what.
    fn stop(&self) -> Option<(&Line, Stop)>
        ensures { option_map (λ x. (x.0.now, x.1)) result
            ≡ first_stop self.now.task.lines self.now.answers }
    {
        let lines = self.task.lines.as_slice();
        for (line, answer) in lines.iter().zip(self.answers.as_slice()) {
            if let Some(stop) = answer.stop() {
                return Some((line, stop));
            }
        }
        None
    }
}

/// The tasks of a script with their answers, in its order. Contracts see the list.
#[derive(Debug, Drop)]
pub struct ToldTasks {
    list: Vec<Told>,
}

impl Model for ToldTasks {
    ghost use Rattle.std.specs.Prelude.{List};
    ghost use Rattle.run_answers.specs.declared.told.Told.{Told};

    ghost Value = { List Told };

    ghost view = { λ t. t.list.items };
}

impl ToldTasks {
    /// These tasks. Takes no memory.
    pub fn from_vec(list: Vec<Told>) -> ToldTasks
        ensures { result ≡ list.items }
    {
        ToldTasks { list }
    }

    /// The tasks.
    pub fn as_slice(&self) -> &[Told]
        ensures { result.now ≡ self.now }
    {
        &self.list
    }

    /// The first line, in the order of the script, by whose answer a worker was stopped, and by
    /// what.
    pub fn stop(&self) -> Option<(&Line, Stop)>
        ensures { option_map (λ x. (x.0.now, x.1)) result ≡ first_told self.now }
    {
        for told in &self.list {
            if let Some(stop) = told.stop() {
                return Some(stop);
            }
        }
        None
    }
}

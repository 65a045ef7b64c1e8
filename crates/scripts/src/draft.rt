//! A script as far as it was read.

ghost use Rattle.std.specs.Prelude.{◌≡◌, ◌∷◌, ◌++◌, [], OnOk, Some};
ghost use Rattle.scripts.specs.Draft.{with_line};
ghost use Rattle.scripts.specs.Inside.{said, Keeps, KnowsTaken};

use crate::meaning::Said;
use crate::script::{Line, Lines, Task};
use crate::taken::add_last;
use lsn_core::{NoMemory, Text};
use std::alloc::Global;
use std::collections::BTreeSet;

/// The tasks of the lines so far, of which the last one is open, and the names of the backups that
/// the others name. After `NoMemory` it is of no use.
#[derive(Drop)]
pub struct Draft {
    pub tasks: Vec<Task>,
    pub taken: BTreeSet<Vec<u8>>,
}

/// One more line of the last task.
fn add(tasks: &mut [Task], line: Line) -> Result<(), NoMemory>
    ensures { OnOk result (tasks.new ≡ with_line tasks.old line) }
{
    match tasks.last_mut() {
        Some(task) => task.lines.push(line)?,
        None => (),
    }
    Ok(())
}

impl Draft {
    /// No line was read.
    pub fn new(alloc: Global) -> Draft
        ensures tasks { result.tasks.items ≡ [] }
        ensures knows { KnowsTaken result }
    {
        Draft {
            tasks: Vec::new(alloc),
            taken: BTreeSet::new(alloc),
        }
    }

    /// Begins the task of a worker of this name, behind the others.
    fn open(&mut self, alloc: Global, name: &[u8]) -> Result<(), NoMemory>
        requires { KnowsTaken self.old }
        ensures tasks { OnOk result (self.new.tasks.items
            ≡ self.old.tasks.items ++ (record { name = name.now; lines = [] } ∷ [])) }
        ensures knows { OnOk result (KnowsTaken self.new) }
    {
        let task = Task {
            name: Text::copied(alloc, name)?,
            lines: Lines::new(alloc),
        };
        add_last(alloc, &mut self.taken, &self.tasks)?;
        self.tasks.push(task)?;
        Ok(())
    }

    /// Keeps what a line of this number says.
    pub fn keep(&mut self, alloc: Global, number: u32, what: Said<'_>) -> Result<(), NoMemory>
        requires { KnowsTaken self.old }
        ensures { OnOk result (Keeps self.old self.new number (Some (said what.entry))) }
    {
        match what {
            Said::Nothing => (),
            Said::Worker(name) => self.open(alloc, name)?,
            Said::Does(command) => add(&mut self.tasks, Line { number, command })?,
        }
        Ok(())
    }
}

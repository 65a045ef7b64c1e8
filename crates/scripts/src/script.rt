//! A script that was taken: its workers and their commands.

ghost use Rattle.std.specs.Prelude.{◌≡◌, ◌∷◌, ◌++◌, [], OnOk};
ghost use Rattle.scripts.specs.Named.{backup_taken, prior_taken};

use crate::order::Order;
use crate::shape::PageShape;
use lsn_core::{BlockId, NoMemory, Text};
use std::alloc::Global;
use std::marker::Model;

/// How many bytes a script has at most (profile).
pub const SCRIPT_LIMIT: usize = 4_194_304;

/// How many workers a script has at most (profile).
pub const MOST_WORKERS: usize = 8;

/// What a line tells a worker to do (profile).
#[derive(Debug, Drop)]
pub enum Command {
    /// Insert a command into the store.
    Insert(Order),
    /// Put pages of this shape, 1 to 65,536 of them: the first at this block, each further one at
    /// the next, by a command each.
    Grow(BlockId, u32, PageShape),
    /// Write a checkpoint.
    Checkpoint,
    /// Write pages that wait back to the data area, at most so many, 1 to 1,000,000.
    Flush(u32),
    /// Publish the summaries of the WAL's ranges that are finished.
    Summarise,
    /// Take a full backup under this name.
    Full(Text),
    /// Take an incremental backup under the first name, on the prior backup of the second.
    Incr(Text, Text),
}

impl Command {
    /// The name of its backup; of a command that takes none, no bytes.
    pub fn backup(&self) -> &[u8]
        ensures { result.now ≡ backup_taken self.now }
    {
        match self {
            Command::Full(name) => name.as_bytes(),
            Command::Incr(name, _) => name.as_bytes(),
            Command::Insert(_)
            | Command::Grow(_, _, _)
            | Command::Checkpoint
            | Command::Flush(_)
            | Command::Summarise => b"",
        }
    }

    /// The name of the prior backup that its backup is taken on; where there is none, no bytes.
    pub fn prior(&self) -> &[u8]
        ensures { result.now ≡ prior_taken self.now }
    {
        match self {
            Command::Incr(_, prior) => prior.as_bytes(),
            Command::Insert(_)
            | Command::Grow(_, _, _)
            | Command::Checkpoint
            | Command::Flush(_)
            | Command::Summarise
            | Command::Full(_) => b"",
        }
    }
}

/// A command, and the number of its line in the script, counted from 1.
#[derive(Debug, Drop)]
pub struct Line {
    pub number: u32,
    pub command: Command,
}

/// Commands in the order of their lines. Contracts see the list.
#[derive(Debug, Drop)]
pub struct Lines {
    items: Vec<Line>,
}

impl Model for Lines {
    ghost use Rattle.std.specs.Prelude.{List};
    ghost use Rattle.scripts.specs.declared.script.Line.{Line};

    ghost Value = { List Line };

    ghost view = { λ l. l.items.items };
}

impl Lines {
    /// No commands.
    pub fn new(alloc: Global) -> Lines
        ensures { result ≡ [] }
    {
        Lines {
            items: Vec::new(alloc),
        }
    }

    /// One command more.
    pub fn push(&mut self, line: Line) -> Result<(), NoMemory>
        ensures { OnOk result (self.new ≡ self.old ++ (line ∷ [])) }
    {
        self.items.push(line)?;
        Ok(())
    }

    /// The commands.
    pub fn as_slice(&self) -> &[Line]
        ensures { result.now ≡ self.now }
    {
        &self.items
    }
}

/// A worker by its name, and its commands.
#[derive(Debug, Drop)]
pub struct Task {
    pub name: Text,
    pub lines: Lines,
}

/// A script that was taken: its workers, in the order of their lines. Contracts see their list.
#[derive(Debug, Drop)]
pub struct Script {
    workers: Vec<Task>,
}

impl Model for Script {
    ghost use Rattle.std.specs.Prelude.{List};
    ghost use Rattle.scripts.specs.declared.script.Task.{Task};

    ghost Value = { List Task };

    ghost view = { λ s. s.workers.items };
}

impl Script {
    /// The script of these workers. Takes no memory.
    pub fn from_vec(workers: Vec<Task>) -> Script
        ensures { result ≡ workers.items }
    {
        Script { workers }
    }

    /// The workers, as a vector.
    pub fn into_workers(self) -> Vec<Task>
        ensures { result.items ≡ self }
    {
        self.workers
    }

    /// The workers.
    pub fn workers(&self) -> &[Task]
        ensures { result.now ≡ self.now }
    {
        &self.workers
    }
}

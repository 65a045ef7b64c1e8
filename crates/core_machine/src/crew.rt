//! The workers of the machine.

ghost use Rattle.std.specs.Prelude.{◌≡◌, ◌||◌, OnOk, None};
ghost use Rattle.std.specs.Option.{option_map, is_some};
ghost use Rattle.core_machine.specs.Inside.{worker_at, commands_at, underway_in, HasReached, IsCrewWith, IsCrewTaken, IsCrewCounted};

use crate::backup::Underway;
use lsn_core::{Lsn, NoMemory};

/// A worker: its redo point, where the checkpoint's end isn't written yet, its backup under way,
/// and how many of its commands were accepted.
#[derive(Drop)]
pub(crate) struct Crewman {
    pub redo: Option<Lsn>,
    pub backup: Option<Underway>,
    pub commands: u64,
}

/// The workers by their numbers. One that did nothing yet need not be there.
#[derive(Drop)]
pub(crate) struct Crew {
    pub list: Vec<Crewman>,
}

impl Crew {
    /// A worker's redo point.
    pub fn redo(&self, number: u32) -> Option<Lsn>
        ensures { option_map (λ l. l.0) result ≡ (worker_at self.now.list.items number).redo }
    {
        match self.list.get(number as usize) {
            Some(man) => man.redo,
            None => None,
        }
    }

    /// A worker's backup under way.
    pub fn backup(&self, number: u32) -> Option<&Underway>
        ensures { option_map (λ b. underway_in b.now) result
            ≡ (worker_at self.now.list.items number).backup }
    {
        match self.list.get(number as usize) {
            Some(man) => man.backup.as_ref(),
            None => None,
        }
    }

    /// Whether a worker has a redo point or a backup.
    pub fn is_busy(&self, number: u32) -> bool
        ensures { result ≡ (is_some (worker_at self.now.list.items number).redo
            || is_some (worker_at self.now.list.items number).backup) }
    {
        match self.list.get(number as usize) {
            Some(man) => man.redo.is_some() || man.backup.is_some(),
            None => false,
        }
    }

    /// How many of a worker's commands were accepted.
    pub fn commands(&self, number: u32) -> u64
        ensures { result ≡ commands_at self.now.list.items number }
    {
        match self.list.get(number as usize) {
            Some(man) => man.commands,
            None => 0,
        }
    }

    /// Makes room for a worker of this number.
    fn reach(&mut self, number: u32) -> Result<(), NoMemory>
        ensures { OnOk result (HasReached self.old.list.items self.new.list.items number) }
    {
        let size = number as usize + 1;
        let have = self.list.len();
        for place in have..size {
            // known: the workers before this place are there
            let _ = place;
            self.list.push(idle())?;
        }
        Ok(())
    }

    /// Sets a worker's redo point and backup.
    pub fn set(
        &mut self,
        number: u32,
        redo: Option<Lsn>,
        backup: Option<Underway>,
    ) -> Result<(), NoMemory>
        ensures { OnOk result (IsCrewWith self.old.list.items self.new.list.items number
            (record {
              redo = option_map (λ l. l.0) redo;
              backup = option_map underway_in backup;
            })) }
    {
        self.reach(number)?;
        let at = number as usize;
        let commands = self.list[at].commands;
        self.list[at] = Crewman {
            redo,
            backup,
            commands,
        };
        Ok(())
    }

    /// Counts one more command of a worker.
    pub fn count(&mut self, number: u32) -> Result<(), NoMemory>
        ensures { OnOk result (IsCrewCounted self.old.list.items self.new.list.items number) }
    {
        self.reach(number)?;
        let at = number as usize;
        let commands = self.list[at].commands;
        if commands == u64::MAX {
            return Err(NoMemory);
        }
        self.list[at].commands = commands + 1;
        Ok(())
    }

    /// Takes a worker's backup away.
    pub fn take(&mut self, number: u32) -> Option<Underway>
        ensures backup { option_map underway_in result
            ≡ (worker_at self.old.list.items number).backup }
        ensures others { IsCrewTaken self.old.list.items self.new.list.items number }
    {
        let at = number as usize;
        if at >= self.list.len() {
            return None;
        }
        self.list[at].backup.take()
    }
}

/// A worker that did nothing yet.
fn idle() -> Crewman
    ensures worker { result.redo ≡ None }
    ensures backup { result.backup ≡ None }
    ensures commands { result.commands ≡ 0 }
{
    Crewman {
        redo: None,
        backup: None,
        commands: 0,
    }
}

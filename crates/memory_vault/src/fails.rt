//! Which calls of an object in memory fail.

ghost use Rattle.std.specs.Prelude.{◌≡◌, ◌≤◌, IfOk};
ghost use Rattle.memory_vault.specs.Fails.{IsNew, HasCounted, one_more};

use lsn_core::NoMemory;
use std::alloc::Global;

/// The calls of an object that are to fail, by their numbers from 1 on, and how many were made and
/// failed so far. Both counts stay at the end of their type.
#[derive(Debug, Drop)]
pub struct FailList {
    calls: Vec<u64>,
    made: u64,
    faults: u64,
}

impl FailList {
    /// A list of these calls, none made yet.
    pub fn new(alloc: Global, calls: &[u64]) -> Result<FailList, NoMemory>
        ensures { IfOk result (IsNew calls.now) }
    {
        Ok(FailList {
            calls: calls.to_vec(alloc)?,
            made: 0,
            faults: 0,
        })
    }

    /// How many calls failed.
    pub fn faults(&self) -> u64
        ensures { result ≡ self.now.faults }
    {
        self.faults
    }

    /// Counts one more call, and says whether it is to fail.
    pub fn next(&mut self) -> bool
        ensures { HasCounted self.old self.new result }
    {
        self.made = self.made.saturating_add(1);
        let fails = self.calls.contains(&self.made);
        if fails {
            self.count_fault();
        }
        fails
    }

    /// Counts a failure.
    pub fn count_fault(&mut self)
        ensures calls { self.new.calls ≡ self.old.calls }
        ensures made { self.new.made ≡ self.old.made }
        ensures faults { self.new.faults ≡ one_more self.old.faults }
        ensures later { self.old.faults ≤ self.new.faults }
    {
        self.faults = self.faults.saturating_add(1);
    }
}

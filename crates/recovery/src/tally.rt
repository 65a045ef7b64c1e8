//! How many forks and pages there are.

ghost use Rattle.std.specs.Prelude.{◌≡◌, None, OnOk};
ghost use Rattle.recovery.specs.Tally.{fork_tally, IsRecounted};

use lsn_core::NoMemory;

/// How many forks and pages there are.
#[derive(Clone, Copy, Debug, PartialEq, Eq)]
pub struct Tally {
    pub forks: u64,
    pub pages: u64,
}

/// What a fork of so many blocks counts, or a missing one.
fn fork_tally(blocks: Option<u32>) -> Tally
    ensures { result ≡ fork_tally blocks }
{
    match blocks {
        Some(count) => Tally {
            forks: 1,
            pages: count as u64,
        },
        None => Tally { forks: 0, pages: 0 },
    }
}

impl Tally {
    /// Of a store without forks.
    pub fn none() -> Tally
        ensures { result ≡ fork_tally None }
    {
        fork_tally(None)
    }

    /// Counts a fork that has so many blocks now, in place of so many before. Errs where a number
    /// would be 2^64 or more.
    pub fn recount(&mut self, before: Option<u32>, now: Option<u32>) -> Result<(), NoMemory>
        ensures { OnOk result (IsRecounted (fork_tally before) (fork_tally now) self.old self.new) }
    {
        let (before, now) = (fork_tally(before), fork_tally(now));
        let forks = self.forks.checked_add(now.forks).ok_or(NoMemory)?;
        let pages = self.pages.checked_add(now.pages).ok_or(NoMemory)?;
        self.forks = forks.saturating_sub(before.forks);
        self.pages = pages.saturating_sub(before.pages);
        Ok(())
    }
}

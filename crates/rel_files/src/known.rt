//! The numbers of pages of forks, as far as they were looked up.

ghost use Rattle.std.specs.Prelude.{◌≡◌, map, IfOk, OnOk};
ghost use Rattle.lsn_core.specs.Store.{fork_cmp};
ghost use Rattle.std.specs.BTreeMap.{IsOrdered};
ghost use Rattle.rel_files.specs.Inside.{known_length, Forgets, Notes, IsNoted, lengths_in};

use lsn_core::{ForkId, ForkLen, NoMemory};
use std::alloc::Global;
use std::collections::BTreeMap;

/// The number of a fork's pages, where it is known.
pub fn find(known: &BTreeMap<ForkId, u32>, fork: &ForkId) -> Option<u32>
    ensures { result ≡ known_length known.now fork.now }
{
    known.get(fork).copied()
}

/// Forgets a fork's number before it changes.
pub fn forget(known: &mut BTreeMap<ForkId, u32>, fork: &ForkId)
    ensures { Forgets fork.now known.old known.new }
{
    known.remove(fork);
}

/// Notes a fork's number.
pub fn note(known: &mut BTreeMap<ForkId, u32>, fork: &ForkId, blocks: u32) -> Result<(), NoMemory>
    ensures right { Notes fork.now blocks known.old known.new }
    ensures noted { OnOk result (IsNoted fork.now blocks known.old known.new) }
{
    known.insert(*fork, blocks)?;
    Ok(())
}

/// All forks whose numbers are known, in order.
pub fn lengths(alloc: Global, known: &BTreeMap<ForkId, u32>) -> Result<Vec<ForkLen>, NoMemory>
    ensures list { IfOk result (λ list. list.items ≡ lengths_in known.now) }
    ensures order { IsOrdered fork_cmp known.now }
{
    let list = known.iter().map(|(fork, blocks)| ForkLen {
        fork: *fork,
        blocks: *blocks,
    });
    Ok(list.collect(alloc)?)
}

//! The pages that a follower made, written into an area.

ghost use Rattle.std.specs.Prelude.{◌≡◌, ◌+◌, ◌-◌, ◌^◌, ◌<◌, IfOk, OnOk};
ghost use Rattle.lsn_core.specs.byte_words.Pieces.{zero_page};
ghost use Rattle.lsn_core.specs.Causes.{HasCause};
ghost use Rattle.lsn_core.specs.Segment.{IsRelseg};
ghost use Rattle.follow_command.specs.Output.{CopiesBlock, CopiesFork, CopiesStore, IsMade};
ghost use Rattle.rel_files.specs.Shown.{ShowsStore, KeepsOthers};
ghost use Rattle.vault.specs.Frame.{IsDurable};

use lsn_core::{AreaFault, BlockId, ForkLen, NoMemory, Pages};
use rel_files::Forks;
use std::alloc::Global;
use vault::Vault;
use wal_follow::Follower;

/// How many forks and pages were written.
#[derive(Clone, Copy, Debug, PartialEq, Eq)]
pub struct Written {
    pub forks: u64,
    pub pages: u64,
}

/// A page of zeros.
#[tactic(auto, unfolding(lsn_core::specs::byte_words::Pieces::zero_page))]
fn empty_page() -> [u8; 8192]
    ensures { result ≡ zero_page }
{
    [0; 8192]
}

/// Puts a block as the follower has it, where that has one.
fn copy_block<P: Pages>(follower: &Follower, at: &BlockId, target: &mut P) -> Result<(), AreaFault>
    requires { at.now.block < 2 ^ 32 - 1 }
    ensures copied { OnOk result
        (CopiesBlock P.shows follower.now.store at.now target.old target.new) }
    ensures kept { P.keeps target.old target.new }
    ensures cause { HasCause (P.faults target.old) (P.faults target.new) result }
{
    let mut page = empty_page();
    if !follower.read_page(*at, &mut page) {
        return Ok(());
    }
    target.write_block(*at, &page)
}

/// Puts a fork as the follower has it, where there is none of that name.
fn copy_fork<P: Pages>(follower: &Follower, len: &ForkLen, target: &mut P) -> Result<(), AreaFault>
    ensures copied { OnOk result
        (CopiesFork P.shows follower.now.store len.now len.now.blocks target.old target.new) }
    ensures kept { P.keeps target.old target.new }
    ensures cause { HasCause (P.faults target.old) (P.faults target.new) result }
{
    target.make(len.fork)?;
    for block in 0..len.blocks {
        let fork = len.fork;
        copy_block(follower, &BlockId { fork, block }, target)?;
    }
    Ok(())
}

/// So many pages more. It fails where a u64 doesn't count them, which no memory holds.
fn more_pages(pages: u64, blocks: u32) -> Result<u64, NoMemory>
    ensures { IfOk result (λ all. all ≡ pages + blocks) }
{
    pages.checked_add(u64::from(blocks)).ok_or(NoMemory)
}

/// Puts all forks that a follower's entries made, where there are none.
fn copy_store<P: Pages>(follower: &Follower, target: &mut P) -> Result<Written, AreaFault>
    ensures copied { IfOk result
        (CopiesStore P.shows follower.now.store target.old target.new) }
    ensures kept { P.keeps target.old target.new }
    ensures cause { HasCause (P.faults target.old) (P.faults target.new) result }
{
    let forks = follower.forks()?;
    let mut pages: u64 = 0;
    for len in &forks {
        copy_fork(follower, len, target)?;
        pages = more_pages(pages, len.blocks)?;
    }
    Ok(Written {
        forks: forks.len() as u64,
        pages,
    })
}

/// Puts all forks that a follower's entries made into those of an area, where there are none, and
/// makes them durable.
fn write_all<V: Vault>(follower: &Follower, forks: &mut Forks<V>) -> Result<Written, AreaFault>
    ensures copied { IfOk result
        (CopiesStore (ShowsStore V.Vault) follower.now.store forks.old forks.new) }
    ensures durable { OnOk result
        (IsDurable (V.files forks.new.area) (V.past forks.new.area)) }
    ensures kept { KeepsOthers V.Vault forks.old forks.new }
    ensures cause { HasCause (V.faults forks.old.area) (V.faults forks.new.area) result }
{
    let written = copy_store(follower, forks)?;
    forks.sync()?;
    Ok(written)
}

/// Writes the pages that a follower's entries made into an area, so many blocks of a fork in each
/// file, and makes them durable. Of an area without files it makes just the files of the follower's
/// store. Gives the area back.
pub fn write_pages<V: Vault>(
    alloc: Global,
    follower: &Follower,
    relseg: u32,
    out: V,
) -> (V, Result<Written, AreaFault>)
    requires { IsRelseg relseg }
    ensures made { IfOk result.1 (IsMade V.Vault relseg follower.now.store out result.0) }
    ensures cause { HasCause (V.faults out) (V.faults result.0) result.1 }
{
    let mut forks = Forks::new(alloc, out, relseg);
    let came = write_all(follower, &mut forks);
    (forks.area(), came)
}

//! The sum of the pages that an area's files hold.

ghost use Rattle.std.specs.Prelude.{◌≡◌, [], length, IfOk, IfSome, OnOk};
ghost use Rattle.sha2.specs.Hashers.{Holds256};
ghost use Rattle.lsn_core.specs.Causes.{HasCause};
ghost use Rattle.lsn_core.specs.Segment.{IsRelseg};
ghost use Rattle.lsn_core.specs.Shown.{Turns};
ghost use Rattle.vault.specs.Frame.{OnlyReads};
ghost use Rattle.rel_files.specs.Shown.{ShowsStore};
ghost use Rattle.pgbackup_cli.specs.drill_command.Contents.{IsSumOf};
ghost use Rattle.pgbackup_cli.specs.drill_command.Hashing.{HashesBlock, HashesFork, HashesAll, IsShownSum};

use lsn_core::byte_words::behind;
use lsn_core::{AreaFault, BlockId, ForkLen, Pages, Text};
use rel_files::Forks;
use sha2::{Digest, Sha256};
use std::alloc::Global;
use vault::Vault;

/// Hashes the page at a block, without its LSN.
fn hash_block<V: Vault>(
    forks: &mut Forks<V>,
    at: BlockId,
    hasher: &mut Sha256,
) -> Result<(), AreaFault>
    ensures hashed { OnOk result
        (HashesBlock (ShowsStore V.Vault forks.old) at hasher.old hasher.new) }
    ensures held { Turns (ShowsStore V.Vault) forks.old forks.new (λ s. s) }
    ensures reads { OnlyReads V.Vault forks.old.area forks.new.area }
    ensures cause { HasCause (V.faults forks.old.area) (V.faults forks.new.area) result }
{
    let mut page = [0; 8192];
    forks.read_block(at, &mut page)?;
    hasher.update(&[0; 8]);
    hasher.update(behind(&page, 8));
    Ok(())
}

/// Hashes the pages of a fork.
fn hash_fork<V: Vault>(
    forks: &mut Forks<V>,
    len: &ForkLen,
    hasher: &mut Sha256,
) -> Result<(), AreaFault>
    ensures hashed { OnOk result
        (HashesFork (ShowsStore V.Vault forks.old) len.now hasher.old hasher.new) }
    ensures held { Turns (ShowsStore V.Vault) forks.old forks.new (λ s. s) }
    ensures reads { OnlyReads V.Vault forks.old.area forks.new.area }
    ensures cause { HasCause (V.faults forks.old.area) (V.faults forks.new.area) result }
{
    for block in 0..len.blocks {
        let fork = len.fork;
        hash_block(forks, BlockId { fork, block }, hasher)?;
    }
    Ok(())
}

/// Hashes the pages of all forks, in order.
fn hash_all<V: Vault>(forks: &mut Forks<V>, hasher: &mut Sha256) -> Result<(), AreaFault>
    ensures hashed { OnOk result
        (HashesAll (ShowsStore V.Vault forks.old) hasher.old hasher.new) }
    ensures reads { OnlyReads V.Vault forks.old.area forks.new.area }
    ensures cause { HasCause (V.faults forks.old.area) (V.faults forks.new.area) result }
{
    let list = forks.list()?;
    for len in &list {
        hash_fork(forks, len, hasher)?;
    }
    Ok(())
}

/// The sum of the pages that an area's files hold, so many blocks of a fork in each file.
fn sum_in<V: Vault>(alloc: Global, forks: &mut Forks<V>) -> Result<Text, AreaFault>
    ensures sum { IfOk result (IsShownSum (ShowsStore V.Vault forks.old)) }
    ensures reads { OnlyReads V.Vault forks.old.area forks.new.area }
    ensures cause { HasCause (V.faults forks.old.area) (V.faults forks.new.area) result }
{
    let mut hasher = Sha256::new();
    hash_all(forks, &mut hasher)?;
    let digits = hex::encode(alloc, &hasher.finalize())?;
    Ok(Text::from_vec(digits.into_bytes()))
}

/// The sum of the pages that an area's files hold, so many blocks of a fork in each file. Gives the
/// area back.
pub fn contents_sum<V: Vault>(alloc: Global, area: V, relseg: u32) -> (V, Result<Text, AreaFault>)
    requires { IsRelseg relseg }
    ensures sum { IfOk result.1 (λ sum. IfSome (V.files area) (λ m. IsSumOf relseg m sum)) }
    ensures reads { OnlyReads V.Vault area result.0 }
    ensures cause { HasCause (V.faults area) (V.faults result.0) result.1 }
{
    let mut forks = Forks::new(alloc, area, relseg);
    let sum = sum_in(alloc, &mut forks);
    (forks.area(), sum)
}

//! The front of a file.

ghost use Rattle.std.specs.Prelude.{◌≡◌, ◌^◌, ◌≤◌, IfOk, length};
ghost use Rattle.lsn_core.specs.Causes.{HasCause};
ghost use Rattle.vault.specs.Frame.{OnlyReads};
ghost use Rattle.lsn_core.specs.Sizes.{page_size};
ghost use Rattle.wal_reader.specs.Inside.{IsFileFront, IsFrontIfThere, IsFrontRead};

use lsn_core::byte_words::zeros;
use lsn_core::{AreaFault, PAGE};
use std::alloc::Global;
use vault::Vault;

/// Reads the front of a file.
fn read_front<V: Vault>(wal: &mut V, name: &[u8], into: &mut [u8]) -> Result<u32, AreaFault>
    requires { length into.old ≤ 2 ^ 20 }
    ensures count { IfOk result (λ count. count ≤ length into.old) }
    ensures read { IfOk result (IsFrontRead (V.files wal.old) name.now (length into.old) into.new) }
    ensures reads { OnlyReads V.Vault wal.old wal.new }
    ensures cause { HasCause (V.faults wal.old) (V.faults wal.new) result }
{
    wal.read_at(name, 0, into)
}

/// The first 8192 bytes of a file, or all that it has.
pub fn front<V: Vault>(alloc: Global, wal: &mut V, name: &[u8]) -> Result<Vec<u8>, AreaFault>
    ensures bytes { IfOk result (λ page. IsFileFront (V.files wal.old) name.now page.items) }
    ensures size { IfOk result (λ page. length page.items ≤ page_size) }
    ensures reads { OnlyReads V.Vault wal.old wal.new }
    ensures cause { HasCause (V.faults wal.old) (V.faults wal.new) result }
{
    let mut page = zeros(alloc, PAGE as usize)?;
    let count = read_front(wal, name, &mut page)?;
    page.truncate(count as usize);
    Ok(page)
}

/// The first 8192 bytes of a file, or all that it has. None exactly where it isn't there.
pub fn front_if_there<V: Vault>(
    alloc: Global,
    wal: &mut V,
    name: &[u8],
) -> Result<Option<Vec<u8>>, AreaFault>
    ensures bytes { IfOk result (IsFrontIfThere (V.files wal.old) name.now) }
    ensures reads { OnlyReads V.Vault wal.old wal.new }
    ensures cause { HasCause (V.faults wal.old) (V.faults wal.new) result }
{
    match wal.size(name)? {
        Some(_) => Ok(Some(front(alloc, wal, name)?)),
        None => Ok(None),
    }
}

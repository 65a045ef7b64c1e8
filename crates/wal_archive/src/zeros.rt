//! Zeros in files.

ghost use Rattle.std.specs.Prelude.{◌≡◌, ◌^◌, ◌≤◌, IfOk, length};
ghost use Rattle.lsn_core.specs.Causes.{HasCause};
ghost use Rattle.vault.specs.Frame.{OnlyReads};
ghost use Rattle.wal_archive.specs.Scanning.{all_zero, RunsIn, TellsZeros};

use lsn_core::AreaFault;
use vault::Vault;

/// How many bytes are looked at at once.
pub const PIECE: u64 = 65_536;

/// Whether each byte is zero.
fn is_all_zero(bytes: &[u8]) -> bool
    ensures { result ≡ all_zero bytes.now }
{
    bytes.iter().all(|b| *b == 0)
}

/// Reads a piece of a file, and says how many bytes it has and whether each is zero.
fn zero_run<V: Vault>(
    area: &mut V,
    name: &[u8],
    at: u64,
    into: &mut [u8],
) -> Result<(u32, bool), AreaFault>
    requires { length into.old ≤ 2 ^ 20 }
    ensures run { IfOk result (λ run. RunsIn (V.files area.old) name.now at (length into.old) run) }
    ensures count { IfOk result (λ run. run.0 ≤ length into.old) }
    ensures reads { OnlyReads V.Vault area.old area.new }
    ensures cause { HasCause (V.faults area.old) (V.faults area.new) result }
{
    let count = area.read_at(name, at, into)?;
    Ok((count, is_all_zero(&into[..count as usize])))
}

/// Whether all bytes of a file between two offsets are zero, as far as it has them. It reads piece
/// by piece, up to the first byte other than zero.
pub fn are_zeros<V: Vault>(
    area: &mut V,
    name: &[u8],
    from: u64,
    limit: u64,
    piece: &mut [u8],
) -> Result<bool, AreaFault>
    requires order { from ≤ limit }
    requires piece { length piece.old ≡ 65536 }
    ensures zero { IfOk result (λ zero. TellsZeros (V.files area.old) name.now from limit zero) }
    ensures piece { length piece.new ≡ 65536 }
    ensures reads { OnlyReads V.Vault area.old area.new }
    ensures cause { HasCause (V.faults area.old) (V.faults area.new) result }
{
    let mut at = from;
    while at < limit {
        let wanted = (limit - at).min(PIECE) as usize;
        let (count, zero) = zero_run(area, name, at, &mut piece[..wanted])?;
        if !zero {
            return Ok(false);
        }
        if (count as usize) < wanted {
            return Ok(true);
        }
        at += u64::from(count);
    }
    Ok(true)
}

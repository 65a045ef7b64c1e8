//! Files that keep what they hold.

ghost use Rattle.std.specs.Prelude.{◌≡◌, ◌≢◌, ◌+◌, ◌^◌, ◌<◌, ◌≤◌, length, IfOk, IfErr, IfSome};
ghost use Rattle.vault.specs.Area.{bytes_of};
ghost use Rattle.backup_files.specs.Directory.{manifest_name};
ghost use Rattle.backup_files.specs.Area.{Lacks, SparesManifest};
ghost use Rattle.chain_files.specs.Told.{told_at, AllOnlyRead};
ghost use Rattle.directory_files.specs.Faults.{WriteCause};
ghost use Rattle.directory_files.specs.Written.{AddsPiece, IsMade};

use crate::fault::WriteFault;
use crate::growing::Growing;
use crate::reading::{piece_at, size_at};
use vault::{Held, Vault};

/// How many bytes are read at once: 64 KiB.
const PIECE: u64 = 65536;

/// Adds the piece of a member's file from a place on, at most so many bytes.
fn copy_piece<V: Vault>(
    areas: &mut [Held<V>],
    place: u32,
    path: &[u8],
    at: u64,
    most: usize,
    out: &mut V,
    file: &mut Growing,
    buffer: &mut [u8; 65536],
) -> Result<(), WriteFault>
    requires place { place < length areas.old }
    requires few { most ≤ 65536 }
    requires other { path.now ≢ manifest_name }
    requires fits { file.old.size + most < 2 ^ 64 }
    ensures added { IfOk result (λ done. AddsPiece (told_at V.Vault areas.old place) path.now at
        most path.now (V.files out.old) (V.files out.new) file.old file.new) }
    ensures reads { AllOnlyRead V.Vault areas.old areas.new }
    ensures spares { SparesManifest V.Vault out.old out.new }
    ensures cause { IfErr result (WriteCause V.Vault areas.old out.old areas.new out.new) }
{
    let count = piece_at(areas, place, path, at, most, buffer)? as usize;
    file.add(out, path, &buffer[..count])?;
    Ok(())
}

/// Copies a file of the area of this place into a file of the output, which isn't there.
pub fn copy_file<V: Vault>(
    areas: &mut [Held<V>],
    place: u32,
    path: &[u8],
    out: &mut V,
    buffer: &mut [u8; 65536],
) -> Result<Growing, WriteFault>
    requires place { place < length areas.old }
    requires other { path.now ≢ manifest_name }
    requires missing { Lacks (V.files out.old) path.now }
    ensures made { IfOk result (IsMade (λ bytes. IfSome (told_at V.Vault areas.old place) (λ m.
        bytes ≡ bytes_of m path.now)) path.now (V.files out.old) (V.files out.new)) }
    ensures reads { AllOnlyRead V.Vault areas.old areas.new }
    ensures spares { SparesManifest V.Vault out.old out.new }
    ensures cause { IfErr result (WriteCause V.Vault areas.old out.old areas.new out.new) }
{
    let size = size_at(areas, place, path)?.unwrap_or(0);
    let mut file = Growing::begin(out, path)?;
    let mut at = 0;
    while at < size {
        let most = PIECE.min(size - at);
        copy_piece(
            areas,
            place,
            path,
            at,
            most as usize,
            out,
            &mut file,
            buffer,
        )?;
        at += most;
    }
    Ok(file)
}

//! The form in which a member has a segment file.

ghost use Rattle.std.specs.Prelude.{◌≡◌, ◌<◌, length, IfOk, IfErr, IfSome};
ghost use Rattle.lsn_core.specs.Causes.{HasCause};
ghost use Rattle.chain_files.specs.Paths.{IsRelationFile};
ghost use Rattle.vault.specs.Area.{bytes_of};
ghost use Rattle.vault.specs.Frame.{OnlyReads};
ghost use Rattle.chain_files.specs.Segments.{form_at, HasForms};
ghost use Rattle.chain_files.specs.Told.{told_at, AllOnlyRead, FailsAt};
ghost use Rattle.series_files.specs.Inside.{IsHeadSeen, IsSeen};

use chain_files::{MemberFault, file_path, read_head};
use incr_file::IncrHead;
use lsn_core::AreaFault;
use std::alloc::Global;
use vault::{Held, Vault};

/// A file as a member has it, but for its pages.
#[derive(Debug, Drop)]
pub(crate) enum Seen {
    /// It isn't there.
    Absent,
    /// It is plain.
    Plain,
    /// It is incremental, and has this head.
    Part(IncrHead),
}

/// What the incremental file at a path is; where it has no head, it counts as absent.
fn head_at<V: Vault>(alloc: Global, area: &mut V, path: &[u8], size: u64) -> Result<Seen, AreaFault>
    ensures seen { IfOk result (λ seen. IfSome (V.files area.old) (λ m.
        IsHeadSeen (bytes_of m path.now) size seen)) }
    ensures reads { OnlyReads V.Vault area.old area.new }
    ensures cause { HasCause (V.faults area.old) (V.faults area.new) result }
{
    match read_head(alloc, area, path, size)? {
        Ok(view) => Ok(Seen::Part(view.head)),
        Err(_) => Ok(Seen::Absent),
    }
}

/// The form in which the directory in an area has a file. Where it stands in both
/// forms, that is the incremental one.
fn seen_in<V: Vault>(
    alloc: Global,
    area: &mut V,
    folder: &[u8],
    name: &[u8],
) -> Result<Seen, AreaFault>
    requires { IsRelationFile folder.now name.now }
    ensures seen { IfOk result (λ seen. IfSome (V.files area.old) (λ m.
        HasForms m → IsSeen (form_at folder.now name.now m) seen)) }
    ensures reads { OnlyReads V.Vault area.old area.new }
    ensures cause { HasCause (V.faults area.old) (V.faults area.new) result }
{
    let incr = file_path(alloc, folder, name, true)?;
    if let Some(size) = area.size(incr.as_bytes())? {
        return head_at(alloc, area, incr.as_bytes(), size);
    }
    let plain = file_path(alloc, folder, name, false)?;
    match area.size(plain.as_bytes())? {
        Some(_) => Ok(Seen::Plain),
        None => Ok(Seen::Absent),
    }
}

/// The form in which the member whose area has this place has a file.
pub(crate) fn seen_at<V: Vault>(
    alloc: Global,
    areas: &mut [Held<V>],
    place: u32,
    folder: &[u8],
    name: &[u8],
) -> Result<Seen, MemberFault>
    requires place { place < length areas.old }
    requires placed { IsRelationFile folder.now name.now }
    ensures seen { IfOk result (λ seen. IfSome (told_at V.Vault areas.old place) (λ m.
        HasForms m → IsSeen (form_at folder.now name.now m) seen)) }
    ensures reads { AllOnlyRead V.Vault areas.old areas.new }
    ensures cause { IfErr result (FailsAt V.Vault areas.old areas.new) }
{
    match seen_in(alloc, &mut areas[place as usize].area, folder, name) {
        Ok(seen) => Ok(seen),
        Err(why) => Err(MemberFault { area: place, why }),
    }
}

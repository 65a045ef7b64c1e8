//! The form in which a member has a segment file.

ghost use Rattle.std.specs.Prelude.{◌≡◌, [], IfOk, IfSome};
ghost use Rattle.std.specs.FinMap.{get};
ghost use Rattle.lsn_core.specs.Causes.{HasCause};
ghost use Rattle.vault.specs.Area.{bytes_of};
ghost use Rattle.vault.specs.Frame.{OnlyReads};
ghost use Rattle.incr_file.specs.Reading.{HasPlaces};
ghost use Rattle.incr_file.specs.Head.{IsHead};
ghost use Rattle.chain_files.specs.Inside.{IsHeadSeen, IsFormSeen, FitsForm};

use crate::head::read_head;
use crate::paths::FilePaths;
use incr_file::{HeadBlocks, HeadView, IncrHead};
use lsn_core::{AreaFault, PAGE};
use std::alloc::Global;
use vault::Vault;

/// A segment file as a member has it.
#[derive(Debug, Drop)]
pub(crate) enum FileForm {
    /// It isn't there.
    Absent,
    /// It is plain, and has so many whole pages.
    Plain(u64),
    /// It is incremental, and has this head.
    Part(HeadView),
}

/// The head of a file that has no block.
fn empty_head(alloc: Global) -> HeadView
    ensures head { IsHead result.head }
    ensures places { HasPlaces result }
{
    let blocks = HeadBlocks::from_rising(Vec::new(alloc));
    let head = IncrHead {
        truncation: 0,
        blocks,
    };
    HeadView { head, body: 12 }
}

/// The head of the incremental file at a path; where it has none, that of a file without blocks.
fn head_at<V: Vault>(
    alloc: Global,
    area: &mut V,
    path: &[u8],
    size: u64,
) -> Result<HeadView, AreaFault>
    ensures seen { IfOk result (λ view. IfSome (V.files area.old) (λ m.
        IsHeadSeen (bytes_of m path.now) size view)) }
    ensures head { IfOk result (λ view. IsHead view.head) }
    ensures places { IfOk result HasPlaces }
    ensures reads { OnlyReads V.Vault area.old area.new }
    ensures cause { HasCause (V.faults area.old) (V.faults area.new) result }
{
    match read_head(alloc, area, path, size)? {
        Ok(view) => Ok(view),
        Err(_) => Ok(empty_head(alloc)),
    }
}

/// The form in which the directory in an area has the file of these paths. Where it stands in both
/// forms, that is the incremental one.
pub(crate) fn form_in<V: Vault>(
    alloc: Global,
    area: &mut V,
    paths: &FilePaths,
) -> Result<FileForm, AreaFault>
    ensures seen { IfOk result (λ form. IfSome (V.files area.old) (λ m.
        IsFormSeen (get m paths.now.incr) (get m paths.now.plain) form)) }
    ensures fits { IfOk result FitsForm }
    ensures reads { OnlyReads V.Vault area.old area.new }
    ensures cause { HasCause (V.faults area.old) (V.faults area.new) result }
{
    if let Some(size) = area.size(paths.incr.as_bytes())? {
        let view = head_at(alloc, area, paths.incr.as_bytes(), size)?;
        return Ok(FileForm::Part(view));
    }
    match area.size(paths.plain.as_bytes())? {
        Some(size) => Ok(FileForm::Plain(size / PAGE)),
        None => Ok(FileForm::Absent),
    }
}

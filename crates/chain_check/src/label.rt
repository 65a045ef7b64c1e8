//! The label of a directory.

ghost use Rattle.std.specs.Prelude.{IfSome};
ghost use Rattle.vault.specs.Area.{bytes_of};
ghost use Rattle.vault.specs.Frame.{OnlyReads};
ghost use Rattle.backup_files.specs.Directory.{label_name};
ghost use Rattle.chain_check.specs.Refusals.{FailsRisen};
ghost use Rattle.chain_check.specs.Inside.{LabelAnswer, NeverFails};

use crate::fault::ChainFault;
use backup_label::{Label, LabelFault, read_label};
use lsn_core::Lsn;
use std::alloc::Global;
use vault::{Vault, read_whole};

/// The path of the label.
pub(crate) const LABEL: &[u8] = b"backup_label";

/// The label of a text that tells this start, or which of its lines is refused.
fn label_in(alloc: Global, text: &[u8], start: Lsn) -> Result<Label, ChainFault>
    ensures answer { LabelAnswer start.0 text.now result }
    ensures memory { NeverFails result }
{
    match read_label(alloc, text) {
        Ok(label) if label.start == start => Ok(label),
        Ok(_) => Err(ChainFault::LabelDamaged(1)),
        Err(LabelFault::Line(line)) => Err(ChainFault::LabelDamaged(line)),
        Err(LabelFault::NoMemory) => Err(ChainFault::NoMemory),
    }
}

/// The label of a directory whose manifest tells this start, or which of its lines is refused.
pub(crate) fn label_of<V: Vault>(
    alloc: Global,
    area: &mut V,
    start: Lsn,
) -> Result<Label, ChainFault>
    ensures answer { IfSome (V.files area.old) (λ m.
        LabelAnswer start.0 (bytes_of m label_name) result) }
    ensures reads { OnlyReads V.Vault area.old area.new }
    ensures cause { FailsRisen (V.faults area.old) (V.faults area.new) result }
{
    let text = read_whole(alloc, area, LABEL)?;
    label_in(alloc, &text, start)
}

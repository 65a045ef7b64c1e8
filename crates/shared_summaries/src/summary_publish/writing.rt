//! Writing the file of a summary.

ghost use Rattle.std.specs.Prelude.{◌≡◌, ◌∷◌, [], OnOk};
ghost use Rattle.std.specs.Option.{option_map};
ghost use Rattle.std.specs.FinMap.{insert};
ghost use Rattle.lsn_core.specs.Causes.{HasCause};
ghost use Rattle.vault.specs.Area.{Related};
ghost use Rattle.vault.specs.Frame.{ChangesOnly};
ghost use Rattle.summary_file.specs.File.{IsWritable};
ghost use Rattle.shared_summaries.specs.summary_publish.Published.{IsWhole, with_file};
ghost use Rattle.summary_store.specs.Expiry.{IsSummaryName};
ghost use Rattle.shared_summaries.specs.summary_publish.Partly.{MayWrite};
ghost use Rattle.shared_summaries.specs.summary_publish.Torn.{first_byte, HasFront, IsLeft};

use lsn_core::AreaFault;
use std::alloc::Global;
use summary_file::{encode_summary, summary_name};
use vault::Vault;
use wal_summary::Summary;

/// Writes the file of a summary under the name of its range, anew where one stood there. What a
/// failure leaves there is no summary's file, or the one that was there, or this one.
pub(crate) fn write_summary<V: Vault>(
    alloc: Global,
    area: &mut V,
    sum: &Summary,
) -> Result<(), AreaFault>
    requires { IsWritable sum.now }
    ensures whole { OnOk result (IsWhole sum.now) }
    ensures file { OnOk result
        (V.files area.new ≡ option_map (with_file sum.now) (V.files area.old)) }
    ensures left { IsLeft sum.now (V.files area.old) (V.files area.new) }
    ensures changes { ChangesOnly V.Vault IsSummaryName area.old area.new }
    ensures cause { HasCause (V.faults area.old) (V.faults area.new) result }
{
    let name = summary_name(alloc, sum.start, sum.end)?;
    let bytes = encode_summary(alloc, sum)?;
    write_anew(area, name.as_bytes(), &bytes)
}

/// Writes a whole file in the place of one that stood under its name: a zero in the place of its
/// first byte, all behind that, and last the first byte. So a summary's file stands there only when
/// all of it does.
fn write_anew<V: Vault>(area: &mut V, name: &[u8], bytes: &[u8]) -> Result<(), AreaFault>
    requires front { HasFront bytes.now }
    requires named { IsSummaryName name.now }
    ensures written { OnOk result
        (V.files area.new ≡ option_map (λ m. insert m name.now bytes.now) (V.files area.old)) }
    ensures left { Related (MayWrite name.now bytes.now) (V.files area.old) (V.files area.new) }
    ensures changes { ChangesOnly V.Vault IsSummaryName area.old area.new }
    ensures cause { HasCause (V.faults area.old) (V.faults area.new) result }
{
    let (front, behind) = cut_front(bytes);
    area.cut(name, 0)?;
    area.write_at(name, 0, &[0])?;
    area.write_at(name, 1, behind)?;
    area.write_at(name, 0, front)
}

/// The first byte of a file, and those behind it.
fn cut_front(bytes: &[u8]) -> (&[u8], &[u8])
    requires { HasFront bytes.now }
    ensures front { result.0.now ≡ first_byte ∷ [] }
    ensures behind { bytes.now ≡ first_byte ∷ result.1.now }
{
    bytes.split_at(1)
}

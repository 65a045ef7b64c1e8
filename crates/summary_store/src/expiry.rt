//! Old summaries, removed.

ghost use Rattle.std.specs.Prelude.{◌≡◌, ℕ, ◌<◌, ◌≤◌, ◌+◌, ◌*◌, ◌&&◌, ◌↔◌, nat_lt, ◌∷◌, [], IfOk, OnOk};
ghost use Rattle.std.specs.Option.{option_map};
ghost use Rattle.lsn_core.specs.Causes.{HasCause};
ghost use Rattle.vault.specs.Area.{Related};
ghost use Rattle.vault.specs.Frame.{ChangesOnly};
ghost use Rattle.summary_store.specs.Expiry.{age_limit, is_old, without, IsSummaryName, Expires, MayExpire};
ghost use Rattle.summary_store.specs.Inside.{MayLose};

use crate::opening::end_behind;
use lsn_core::{AreaFault, Lsn};
use std::alloc::Global;
use summary_file::summary_name;
use vault::Vault;
use wal_summary::Summary;

/// The moment, in seconds since 1970 UTC, before which a summary that was made then is older than
/// so many days at a moment. With no days none is.
pub fn age_limit(days: u32, when: u64) -> u64
    ensures limit { result ≡ age_limit days when }
    ensures old { (made : ℕ) → (made < result) ↔ ((0 < days) × (made + 86400 * days ≤ when)) }
{
    let age = u64::from(days) * 86_400;
    if days == 0 || when < age {
        0
    } else {
        when - age + 1
    }
}

/// Removes the files of the expired ones of the summaries that are kept of an area, the one of the
/// least end first, and says how many: those that were made before a moment and end below the
/// greatest kept end. After a fault those that it removed so far are gone, and the one at fault
/// isn't kept. `Failed` comes only where the area's count of faults rose.
pub fn expire<V: Vault>(
    alloc: Global,
    area: &mut V,
    kept: &mut Vec<Summary>,
    limit: u64,
) -> Result<u64, AreaFault>
    ensures expired { IfOk result (Expires V.Vault limit area.old area.new
        kept.old.items kept.new.items) }
    ensures left { MayExpire limit (V.files area.old) (V.files area.new)
        kept.old.items kept.new.items }
    ensures changes { ChangesOnly V.Vault IsSummaryName area.old area.new }
    ensures cause { HasCause (V.faults area.old) (V.faults area.new) result }
{
    let end = end_behind(kept, Lsn(0));
    let (mut left, mut fault) = (0, None);
    for at in 0..kept.len() {
        if fault.is_none() && is_expired(&kept[at], limit, end) {
            fault = remove_summary(alloc, area, &kept[at]).err();
        } else {
            kept.swap(left, at);
            left += 1;
        }
    }
    let gone = kept.len() - left;
    kept.truncate(left);
    match fault {
        None => Ok(gone as u64),
        Some(fault) => Err(fault),
    }
}

/// Whether a summary was made before a moment and ends below the greatest kept end.
fn is_expired(sum: &Summary, limit: u64, end: Lsn) -> bool
    ensures { result ≡ is_old limit sum.now && nat_lt sum.now.end.0 end.0 }
{
    sum.made < limit && sum.end.0 < end.0
}

/// Removes the file of a summary.
fn remove_summary<V: Vault>(alloc: Global, area: &mut V, sum: &Summary) -> Result<(), AreaFault>
    ensures removed { OnOk result
        (V.files area.new ≡ option_map (without (sum.now ∷ [])) (V.files area.old)) }
    ensures left { Related (MayLose sum.now) (V.files area.old) (V.files area.new) }
    ensures changes { ChangesOnly V.Vault IsSummaryName area.old area.new }
    ensures cause { HasCause (V.faults area.old) (V.faults area.new) result }
{
    let name = summary_name(alloc, sum.start, sum.end)?;
    area.remove(name.as_bytes())
}

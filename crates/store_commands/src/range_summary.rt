//! `walsummary`: what the kept summaries tell of a range of the WAL.

ghost use Rattle.std.specs.Prelude.{◌≡◌, ◌<◌, [], IfOk};
ghost use Rattle.vault.specs.Frame.{OnlyReads};
ghost use Rattle.vault.specs.Site.{AllHome};
ghost use Rattle.lsn_core.specs.declared.fault.AreaFault.TheVariants as area_fault;
ghost use Rattle.command_base.specs.Outside.{of_site, Works};
ghost use Rattle.store_commands.specs.declared.range_summary.WalsummaryFault.TheVariants as walsummary;
ghost use Rattle.store_commands.specs.Walsummary.{WalsummaryRan, WalsummaryDoes};
ghost use Rattle.store_commands.specs.Walsummary.{walsummary_fault_text, walsummary_text, walsummary_status};
ghost use Rattle.store_commands.specs.Inner.{AnswersKept, AnswersWalsummary};

use command_base::{Status, area_status, area_text, gap_text, joined, refused_line, take_text};
use lsn_core::{AreaFault, Lsn, NoMemory, Text};
use std::alloc::Global;
use summary_store::{Kept, SumsFault};
use summary_text::summary_text;
use vault::{Held, Site, TakeFault, Vault, give_one, take_one};
use wal_summary::{CoverFault, Summary};

/// Why nothing is told of a range.
#[derive(Debug, Drop)]
pub enum WalsummaryFault {
    /// The site didn't hand out the area of the summaries.
    Site(TakeFault),
    /// No kept summary covers this place, the least such of the range.
    Gap(Lsn),
    /// The area of the summaries failed, or memory ran out.
    Sums(AreaFault),
}

impl From<TakeFault> for WalsummaryFault {
    ghost from_gives = { λ fault e. e ≡ walsummary.Site fault };

    fn from(fault: TakeFault) -> Self {
        WalsummaryFault::Site(fault)
    }
}

impl From<NoMemory> for WalsummaryFault {
    ghost from_gives = { λ _ e. e ≡ walsummary.Sums area_fault.NoMemory };

    fn from(_: NoMemory) -> Self {
        WalsummaryFault::Sums(AreaFault::NoMemory)
    }
}

/// The merge of the kept summaries that overlap a range.
fn covered<V: Vault>(
    alloc: Global,
    kept: &Kept<V>,
    from: Lsn,
    to: Lsn,
) -> Result<Summary, WalsummaryFault>
    requires { from.0 < to.0 }
    ensures { AnswersKept kept.now.sums from to result }
{
    match kept.covering(alloc, from, to) {
        Ok(sum) => Ok(sum),
        Err(CoverFault::Gap(place)) => Err(WalsummaryFault::Gap(place)),
        Err(CoverFault::NoMemory) => Err(WalsummaryFault::Sums(AreaFault::NoMemory)),
    }
}

/// The same of those that are kept of an area, which is given back.
#[tactic(auto, using(crate::proofs::Covered::kept_answers, crate::proofs::ReplayedOut::area_cause))]
fn covered_by<V: Vault>(
    alloc: Global,
    area: V,
    from: Lsn,
    to: Lsn,
) -> (V, Result<Summary, WalsummaryFault>)
    requires { from.0 < to.0 }
    ensures answer { AnswersWalsummary V.Vault from to area result.0 result.1 }
    ensures reads { OnlyReads V.Vault area result.0 }
{
    match Kept::open(alloc, area) {
        Ok(kept) => {
            let answer = covered(alloc, &kept, from, to);
            (kept.close(), answer)
        }
        Err(SumsFault { area, why }) => (area, Err(WalsummaryFault::Sums(why))),
    }
}

/// The same in this area of a site.
fn walsummary_in<S: Site>(
    alloc: Global,
    area: Text,
    from: Lsn,
    to: Lsn,
    site: &mut S,
) -> Result<Summary, WalsummaryFault>
    requires range { from.0 < to.0 }
    requires home { AllHome (S.areas site.old) }
    ensures site { Works [] (of_site S.Site site.old) (of_site S.Site site.new) }
    ensures answer { WalsummaryRan area from to
        (of_site S.Site site.old) (of_site S.Site site.new) result }
{
    let held = take_one(site, area)?;
    let (area, answer) = covered_by(alloc, held.area, from, to);
    let name = held.name;
    give_one(site, Held { name, area });
    answer
}

/// `walsummary`: the merge of the kept summaries that overlap the range from the one place to below
/// the other, or the least place of the range that none of them covers. No file changes.
pub fn walsummary<S: Site>(
    alloc: Global,
    from: Lsn,
    to: Lsn,
    site: &mut S,
) -> Result<Summary, WalsummaryFault>
    requires range { from.0 < to.0 }
    requires home { AllHome (S.areas site.old) }
    ensures does { WalsummaryDoes from to
        (of_site S.Site site.old) (of_site S.Site site.new) result }
    ensures home { AllHome (S.areas site.new) }
{
    let area = joined(alloc, &[b"sums"])?;
    walsummary_in(alloc, area, from, to, site)
}

fn walsummary_fault_text(alloc: Global, fault: &WalsummaryFault) -> Result<Text, NoMemory>
    ensures { IfOk result (λ text. text ≡ walsummary_fault_text fault.now) }
{
    match fault {
        WalsummaryFault::Site(fault) => take_text(alloc, fault),
        WalsummaryFault::Gap(place) => gap_text(alloc, *place),
        WalsummaryFault::Sums(why) => area_text(alloc, b"sums", *why),
    }
}

/// The lines that `walsummary` prints.
pub fn walsummary_text(
    alloc: Global,
    came: &Result<Summary, WalsummaryFault>,
) -> Result<Text, NoMemory>
    ensures { IfOk result (λ text. text ≡ walsummary_text came.now) }
{
    match came {
        Ok(sum) => summary_text(alloc, sum.forks.as_slice()),
        Err(fault) => refused_line(alloc, walsummary_fault_text(alloc, fault)?.as_bytes()),
    }
}

/// The status that `walsummary` ends with.
pub fn walsummary_status(came: &Result<Summary, WalsummaryFault>) -> Status
    ensures { result ≡ walsummary_status came.now }
{
    match came {
        Ok(_) => Status::Done,
        Err(WalsummaryFault::Site(fault)) => area_status(fault.why),
        Err(WalsummaryFault::Gap(_)) => Status::Refused,
        Err(WalsummaryFault::Sums(why)) => area_status(*why),
    }
}

//! `verify`: whether the directory of a backup is as its manifest lists it.

ghost use Rattle.std.specs.Prelude.{◌≡◌, [], IfOk};
ghost use Rattle.vault.specs.Frame.{OnlyReads};
ghost use Rattle.vault.specs.Site.{AllHome};
ghost use Rattle.chain_check.specs.declared.fault.ChainFault.TheVariants as chain;
ghost use Rattle.chain_check.specs.Refusals.{refusal_of};
ghost use Rattle.chain_commands.specs.declared.verifying.VerifyFault.TheVariants as verify;
ghost use Rattle.command_base.specs.Areas.{backup_name};
ghost use Rattle.command_base.specs.Outside.{of_site, Works};
ghost use Rattle.chain_commands.specs.Verify.{report_of, VerifyRan, VerifyDoes};
ghost use Rattle.chain_commands.specs.Verify.{kind_text, range_text, kind_line, verified_line};
ghost use Rattle.chain_commands.specs.Verify.{verify_fault_text, verify_text, verify_status};
ghost use Rattle.chain_commands.specs.Inner.{AnswersVerify};

use crate::directory::{directory_status, directory_text};
use chain_check::{ChainFault, Member, Refusal, check_dir};
use command_base::{Status, area_status, backup_name, joined, refused_line, take_text};
use lsn_core::{Lsn, NoMemory, Text, lsn_text};
use std::alloc::Global;
use vault::{Site, TakeFault, Vault, give_one, take_one};

/// What the check of a backup found.
#[derive(Clone, Copy, Debug, PartialEq, Eq)]
pub struct VerifyReport {
    /// Whether its label tells a prior.
    pub incremental: bool,
    /// Where a restore begins to read the WAL.
    pub start: Lsn,
    /// How far it has to read at least.
    pub end: Lsn,
    /// How many files its manifest lists.
    pub rows: u64,
}

/// Why a backup isn't taken.
#[derive(Debug, Drop)]
pub enum VerifyFault {
    /// The site didn't hand out the area of its directory.
    Site(TakeFault),
    /// Its directory isn't as its manifest lists it, the area failed, or memory ran out.
    Directory(Refusal),
}

impl From<TakeFault> for VerifyFault {
    ghost from_gives = { λ fault e. e ≡ verify.Site fault };

    fn from(fault: TakeFault) -> Self {
        VerifyFault::Site(fault)
    }
}

impl From<Refusal> for VerifyFault {
    ghost from_gives = { λ refusal e. e ≡ verify.Directory refusal };

    fn from(refusal: Refusal) -> Self {
        VerifyFault::Directory(refusal)
    }
}

impl From<NoMemory> for VerifyFault {
    ghost from_gives = { λ _ e. e ≡ verify.Directory (refusal_of chain.NoMemory) };

    fn from(_: NoMemory) -> Self {
        VerifyFault::Directory(Refusal::from(ChainFault::NoMemory))
    }
}

/// What is told of a backup.
fn report_of(member: &Member) -> VerifyReport
    ensures { result ≡ report_of member.now }
{
    VerifyReport {
        incremental: member.label.prior.is_some(),
        start: member.manifest.start,
        end: member.manifest.end,
        rows: member.manifest.files.len() as u64,
    }
}

/// Checks the directory in an area, that of the backup of this name.
fn verify_area<V: Vault>(
    alloc: Global,
    area: &mut V,
    name: &[u8],
) -> Result<VerifyReport, VerifyFault>
    ensures answer { AnswersVerify V.Vault name.now area.old area.new result }
    ensures reads { OnlyReads V.Vault area.old area.new }
{
    let name = Text::copied(alloc, name)?;
    let member = check_dir(alloc, area, &name)?;
    Ok(report_of(&member))
}

/// Checks the directory of the backup of this name, in this area of a site.
fn verify_in<S: Site>(
    alloc: Global,
    area: Text,
    name: &[u8],
    site: &mut S,
) -> Result<VerifyReport, VerifyFault>
    requires { AllHome (S.areas site.old) }
    ensures site { Works [] (of_site S.Site site.old) (of_site S.Site site.new) }
    ensures answer { VerifyRan area name.now
        (of_site S.Site site.old) (of_site S.Site site.new) result }
{
    let mut held = take_one(site, area)?;
    let answer = verify_area(alloc, &mut held.area, name);
    give_one(site, held);
    answer
}

/// `verify`: checks the directory of the backup of this name. No file changes.
pub fn verify<S: Site>(
    alloc: Global,
    name: &[u8],
    site: &mut S,
) -> Result<VerifyReport, VerifyFault>
    requires { AllHome (S.areas site.old) }
    ensures does { VerifyDoes name.now (of_site S.Site site.old) (of_site S.Site site.new) result }
    ensures home { AllHome (S.areas site.new) }
{
    let area = backup_name(alloc, name)?;
    verify_in(alloc, area, name, site)
}

fn kind_text(incremental: bool) -> &'static [u8]
    ensures { result.now ≡ kind_text incremental }
{
    if incremental { b"incremental" } else { b"full" }
}

/// The range of a backup in the WAL, and how many files it has.
pub fn range_text(alloc: Global, start: Lsn, end: Lsn, rows: u64) -> Result<Text, NoMemory>
    ensures { IfOk result (λ text. text ≡ range_text start end rows) }
{
    let start = lsn_text(alloc, start)?;
    let end = lsn_text(alloc, end)?;
    let rows = format!(in alloc; "{rows}")?;
    joined(
        alloc,
        &[
            start.as_bytes(),
            b" ",
            end.as_bytes(),
            b" ",
            rows.as_bytes(),
        ],
    )
}

/// The line of a backup of this name and kind.
fn kind_line(alloc: Global, name: &[u8], kind: &[u8], range: &[u8]) -> Result<Text, NoMemory>
    ensures { IfOk result (λ text. text ≡ kind_line name.now kind.now range.now) }
{
    joined(alloc, &[b"verified ", name, b" ", kind, b" ", range, b"\n"])
}

fn verified_line(alloc: Global, name: &[u8], report: &VerifyReport) -> Result<Text, NoMemory>
    ensures { IfOk result (λ text. text ≡ verified_line name.now report.now) }
{
    let range = range_text(alloc, report.start, report.end, report.rows)?;
    kind_line(alloc, name, kind_text(report.incremental), range.as_bytes())
}

fn verify_fault_text(alloc: Global, name: &[u8], fault: &VerifyFault) -> Result<Text, NoMemory>
    ensures { IfOk result (λ text. text ≡ verify_fault_text name.now fault.now) }
{
    match fault {
        VerifyFault::Site(fault) => take_text(alloc, fault),
        VerifyFault::Directory(refusal) => directory_text(alloc, name, &refusal.fault),
    }
}

/// The line that `verify` prints of the backup of this name.
pub fn verify_text(
    alloc: Global,
    name: &[u8],
    came: &Result<VerifyReport, VerifyFault>,
) -> Result<Text, NoMemory>
    ensures { IfOk result (λ text. text ≡ verify_text name.now came.now) }
{
    match came {
        Ok(report) => verified_line(alloc, name, report),
        Err(fault) => refused_line(alloc, verify_fault_text(alloc, name, fault)?.as_bytes()),
    }
}

/// The status that `verify` ends with.
pub fn verify_status(came: &Result<VerifyReport, VerifyFault>) -> Status
    ensures { result ≡ verify_status came.now }
{
    match came {
        Ok(_) => Status::Done,
        Err(VerifyFault::Site(fault)) => area_status(fault.why),
        Err(VerifyFault::Directory(refusal)) => directory_status(&refusal.fault),
    }
}

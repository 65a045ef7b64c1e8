//! `combine`: a chain of backups combined to one; and `merge-incr`: a series of incremental ones
//! merged to one.

ghost use Rattle.std.specs.Prelude.{◌≡◌, ◌≤◌, ℕ, [], ◌∷◌, length, IfOk, IfErr, OnOk, OnErr};
ghost use Rattle.lsn_core.specs.declared.fault.AreaFault.TheVariants as area;
ghost use Rattle.vault.specs.Lending.{IsNoneOf, IsOneOf};
ghost use Rattle.vault.specs.Site.{AllHome};
ghost use Rattle.backup_files.specs.Area.{EndsSynced, HoldsNothing};
ghost use Rattle.chain_check.specs.Chain.{most_members};
ghost use Rattle.chain_files.specs.Told.{ArePlaces, AllOnlyRead};
ghost use Rattle.directory_files.specs.Relisted.{other_rows};
ghost use Rattle.combine.specs.Calls.{KeepsOut, KeepsFull, LeavesManifest};
ghost use Rattle.command_base.specs.Areas.{backup_name};
ghost use Rattle.command_base.specs.Outside.{of_site, Works};
ghost use Rattle.command_line.specs.Members.{names_in};
ghost use Rattle.chain_commands.specs.declared.combining.CombineFault.TheVariants as combine;
ghost use Rattle.chain_commands.specs.Joined.{combine_report, JoinRan, JoinDoes};
ghost use Rattle.chain_commands.specs.Combine.{CombineDoes, joined_line, joined_text};
ghost use Rattle.chain_commands.specs.Combine.{combine_fault_text, combine_text, combine_status};
ghost use Rattle.chain_commands.specs.Merge.{MergeDoes, merge_text};
ghost use Rattle.command_base.specs.Outside.{of_site_clock};
ghost use Rattle.chain_commands.specs.Inner.{AreMemberAreas, AreOwnPlaces};
ghost use Rattle.chain_commands.specs.Inner.{combine_fault, Joins, JoinCause, ListsJoined, AnswersJoin};

use crate::chain::{
    Joining, MemberAreas, MembersFault, areas_of, check_count, member_of, members_fault_text,
    members_status, name_at, newest_at, place_in,
};
use crate::directory::directory_text;
use crate::lending::last_of;
use crate::verifying::range_text;
use chain_check::{ChainFault, ManifestWhy, Member};
use combine::{CombineFault as Uncombined, combine as combine_into};
use command_base::{
    Status, area_status, area_text, backup_name, full_text, joined, refused_line, take_text,
};
use command_line::MemberNames;
use incr_merge::merge_incr;
use lsn_core::{AreaFault, Lsn, NoMemory, Text};
use std::alloc::{AllocFailed, Global};
use vault::{Clock, Held, Site, TakeFault, Vault, give_all, give_one, take_all};

/// What a chain was combined to, or a series was merged to.
#[derive(Clone, Copy, Debug, PartialEq, Eq)]
pub struct CombineReport {
    /// Where a restore begins to read the WAL.
    pub start: Lsn,
    /// How far it has to read at least.
    pub end: Lsn,
    /// How many files its manifest lists.
    pub rows: u64,
}

/// Why a chain of backups isn't combined, or a series isn't merged.
#[derive(Debug, Drop)]
pub enum CombineFault {
    /// The site didn't hand out an area.
    Site(TakeFault),
    /// The members aren't taken, an area of theirs failed, or memory ran out.
    Members(MembersFault),
    /// The output's area holds a file.
    NotEmpty,
    /// No manifest can list what the members are joined to: that of the newest one, which has this
    /// place, isn't as it was when it was read.
    Unlisted(u32),
    /// The area of the member of this place failed while the members were joined.
    Backup(u32, AreaFault),
    /// The output's area failed, or memory ran out.
    Out(AreaFault),
}

impl From<TakeFault> for CombineFault {
    ghost from_gives = { λ fault e. e ≡ combine.Site fault };

    fn from(fault: TakeFault) -> Self {
        CombineFault::Site(fault)
    }
}

impl From<MembersFault> for CombineFault {
    ghost from_gives = { λ fault e. e ≡ combine.Members fault };

    fn from(fault: MembersFault) -> Self {
        CombineFault::Members(fault)
    }
}

impl From<NoMemory> for CombineFault {
    ghost from_gives = { λ _ e. e ≡ combine.Out area.NoMemory };

    fn from(_: NoMemory) -> Self {
        CombineFault::Out(AreaFault::NoMemory)
    }
}

impl<T: Drop> From<AllocFailed<T>> for CombineFault {
    ghost from_gives = { λ _ e. e ≡ combine.Out area.NoMemory };

    fn from(_: AllocFailed<T>) -> Self {
        CombineFault::Out(AreaFault::NoMemory)
    }
}

/// Why members with areas of these places aren't joined.
fn combine_fault(places: &[u32], why: Uncombined) -> CombineFault
    requires some { 1 ≤ length places.now }
    requires few { length places.now ≤ most_members }
    ensures { result ≡ combine_fault places.now why }
{
    match why {
        Uncombined::NotEmpty => CombineFault::NotEmpty,
        Uncombined::Unlisted => CombineFault::Unlisted(places.len() as u32 - 1),
        Uncombined::MemberFailed(area) => {
            CombineFault::Backup(member_of(places, area), AreaFault::Failed)
        }
        Uncombined::OutFailed => CombineFault::Out(AreaFault::Failed),
        Uncombined::NoMemory => CombineFault::Out(AreaFault::NoMemory),
    }
}

/// What the members to this one were joined to, with so many files.
fn report_of(newest: &Member, rows: u64) -> CombineReport
    ensures { result ≡ combine_report newest.now rows }
{
    CombineReport {
        start: newest.manifest.start,
        end: newest.manifest.end,
        rows,
    }
}

/// Joins members with areas of these places, which were accepted so and of which this is the
/// newest.
fn join_into<V: Vault>(
    alloc: Global,
    joining: Joining,
    areas: &mut [Held<V>],
    places: &[u32],
    newest: &Member,
    out: &mut V,
    when: u64,
) -> Result<u64, Uncombined>
    requires places { ArePlaces (length areas.old) places.now }
    requires some { 1 ≤ length places.now }
    requires when { when ≤ 253402207199 }
    ensures joined { IfOk result (λ count.
        Joins V.Vault joining places.now newest.now when areas.old out.new count) }
    ensures synced { OnOk result (EndsSynced V.Vault out.new) }
    ensures counted { IfOk result (λ count.
        count ≡ length (other_rows newest.now.manifest.files)) }
    ensures listable { OnOk result (ListsJoined V.Vault joining places.now newest.now.manifest
        areas.old) }
    ensures empty { OnOk result (HoldsNothing (V.files out.old)) }
    ensures reads { AllOnlyRead V.Vault areas.old areas.new }
    ensures kept { IfErr result (KeepsOut V.Vault out.old out.new) }
    ensures full { OnErr result (KeepsFull V.Vault out.old out.new) }
    ensures manifest { IfErr result (LeavesManifest V.Vault
        ((count : ℕ) × Joins V.Vault joining places.now newest.now when areas.old out.new count)
        out.old out.new) }
    ensures later { V.faults out.old ≤ V.faults out.new }
    ensures cause { IfErr result (JoinCause V.Vault joining places.now newest.now.manifest
        areas.old out.old areas.new out.new) }
{
    match joining {
        Joining::Chain => combine_into(alloc, areas, places, newest, out, when),
        Joining::Series => merge_incr(alloc, areas, places, newest, out, when),
    }
}

/// Checks these members, and joins them into the output's area, which has to be empty.
fn combine_areas<V: Vault>(
    alloc: Global,
    joining: Joining,
    areas: &mut [Held<V>],
    places: &[u32],
    names: &MemberNames<'_>,
    out: &mut V,
    when: u64,
) -> Result<CombineReport, CombineFault>
    requires own { AreOwnPlaces (length areas.old) places.now }
    requires places { ArePlaces (length areas.old) places.now }
    requires each { length (names_in names.now) ≡ length places.now }
    requires some { 1 ≤ length places.now }
    requires few { length places.now ≤ most_members }
    requires when { when ≤ 253402207199 }
    ensures answer { AnswersJoin V.Vault joining when (names_in names.now) places.now
        areas.old out.old areas.new out.new result }
    ensures areas { AllOnlyRead V.Vault areas.old areas.new }
    ensures later { V.faults out.old ≤ V.faults out.new }
{
    let newest = newest_at(alloc, joining, areas, places, names)?;
    match join_into(alloc, joining, areas, places, &newest, out, when) {
        Ok(rows) => Ok(report_of(&newest, rows)),
        Err(why) => Err(combine_fault(places, why)),
    }
}

/// Joins these members, from their areas of a site, into another area of it.
fn combine_apart<S: Site>(
    alloc: Global,
    joining: Joining,
    when: u64,
    areas: MemberAreas,
    out: Text,
    members: &MemberNames<'_>,
    site: &mut S,
) -> Result<CombineReport, CombineFault>
    requires areas { AreMemberAreas (names_in members.now) areas }
    requires apart { IsNoneOf out areas.names.items }
    requires some { 1 ≤ length (names_in members.now) }
    requires few { length (names_in members.now) ≤ most_members }
    requires when { when ≤ 253402207199 }
    requires home { AllHome (S.areas site.old) }
    ensures site { Works (out ∷ []) (of_site S.Site site.old) (of_site S.Site site.new) }
    ensures ran { JoinRan joining when (names_in members.now) out
        (of_site S.Site site.old) (of_site S.Site site.new) result }
{
    let MemberAreas { mut names, places } = areas;
    names.push(out)?;
    let mut held = take_all(alloc, site, names)?;
    let mut out = last_of(&mut held);
    let answer = combine_areas(
        alloc,
        joining,
        &mut held,
        &places,
        members,
        &mut out.area,
        when,
    );
    give_one(site, out);
    give_all(site, held);
    answer
}

/// Checks these members, where the output's area is one of theirs. So it holds a file, and they
/// aren't joined.
fn combine_onto<S: Site>(
    alloc: Global,
    joining: Joining,
    when: u64,
    areas: MemberAreas,
    out: Text,
    members: &MemberNames<'_>,
    site: &mut S,
) -> Result<CombineReport, CombineFault>
    requires areas { AreMemberAreas (names_in members.now) areas }
    requires among { IsOneOf out areas.names.items }
    requires some { 1 ≤ length (names_in members.now) }
    requires few { length (names_in members.now) ≤ most_members }
    requires home { AllHome (S.areas site.old) }
    ensures site { Works (out ∷ []) (of_site S.Site site.old) (of_site S.Site site.new) }
    ensures ran { JoinRan joining when (names_in members.now) out
        (of_site S.Site site.old) (of_site S.Site site.new) result }
{
    let MemberAreas { names, places } = areas;
    let mut held = take_all(alloc, site, names)?;
    let found = newest_at(alloc, joining, &mut held, &places, members);
    give_all(site, held);
    found?;
    Err(CombineFault::NotEmpty)
}

/// Joins these members, from their areas of a site, into that of a backup of it.
fn combine_in<S: Site>(
    alloc: Global,
    joining: Joining,
    when: u64,
    out: &[u8],
    members: &MemberNames<'_>,
    site: &mut S,
) -> Result<CombineReport, CombineFault>
    requires some { 1 ≤ length (names_in members.now) }
    requires few { length (names_in members.now) ≤ most_members }
    requires when { when ≤ 253402207199 }
    requires home { AllHome (S.areas site.old) }
    ensures site { Works (backup_name out.now ∷ [])
        (of_site S.Site site.old) (of_site S.Site site.new) }
    ensures ran { JoinRan joining when (names_in members.now) (backup_name out.now)
        (of_site S.Site site.old) (of_site S.Site site.new) result }
{
    let out = backup_name(alloc, out)?;
    let areas = areas_of(alloc, members)?;
    match place_in(&areas.names, out.as_bytes()) {
        Some(_) => combine_onto(alloc, joining, when, areas, out, members, site),
        None => combine_apart(alloc, joining, when, areas, out, members, site),
    }
}

/// Joins these members to a backup of a name, whose files tell the clock's moment.
fn join<S: Site, C: Clock>(
    alloc: Global,
    joining: Joining,
    out: &[u8],
    members: &MemberNames<'_>,
    site: &mut S,
    clock: &mut C,
) -> Result<CombineReport, CombineFault>
    requires some { 1 ≤ length (names_in members.now) }
    requires home { AllHome (S.areas site.old) }
    ensures does { JoinDoes joining out.now (names_in members.now)
        (of_site_clock S.Site C.Clock site.old clock.old)
        (of_site_clock S.Site C.Clock site.new clock.new) result }
    ensures home { AllHome (S.areas site.new) }
{
    let when = clock.now();
    check_count(members)?;
    combine_in(alloc, joining, when, out, members, site)
}

/// `combine`: combines the chain of the backups of these names, the oldest one first, to a backup
/// of another name, whose files tell the clock's moment.
pub fn combine<S: Site, C: Clock>(
    alloc: Global,
    out: &[u8],
    members: &MemberNames<'_>,
    site: &mut S,
    clock: &mut C,
) -> Result<CombineReport, CombineFault>
    requires some { 1 ≤ length (names_in members.now) }
    requires home { AllHome (S.areas site.old) }
    ensures does { CombineDoes out.now (names_in members.now)
        (of_site_clock S.Site C.Clock site.old clock.old)
        (of_site_clock S.Site C.Clock site.new clock.new) result }
    ensures home { AllHome (S.areas site.new) }
{
    join(alloc, Joining::Chain, out, members, site, clock)
}

/// `merge-incr`: merges the series of the incremental backups of these names, the oldest one first,
/// to a backup of another name, whose files tell the clock's moment.
pub fn merge<S: Site, C: Clock>(
    alloc: Global,
    out: &[u8],
    members: &MemberNames<'_>,
    site: &mut S,
    clock: &mut C,
) -> Result<CombineReport, CombineFault>
    requires some { 1 ≤ length (names_in members.now) }
    requires home { AllHome (S.areas site.old) }
    ensures does { MergeDoes out.now (names_in members.now)
        (of_site_clock S.Site C.Clock site.old clock.old)
        (of_site_clock S.Site C.Clock site.new clock.new) result }
    ensures home { AllHome (S.areas site.new) }
{
    join(alloc, Joining::Series, out, members, site, clock)
}

/// The line of what was joined to a backup of this name, behind a word.
fn joined_line(
    alloc: Global,
    word: &[u8],
    name: &[u8],
    report: &CombineReport,
) -> Result<Text, NoMemory>
    ensures { IfOk result (λ text. text ≡ joined_line word.now name.now report.now) }
{
    let range = range_text(alloc, report.start, report.end, report.rows)?;
    joined(alloc, &[word, name, b" ", range.as_bytes(), b"\n"])
}

fn combine_fault_text(
    alloc: Global,
    names: &MemberNames<'_>,
    out: &[u8],
    fault: &CombineFault,
) -> Result<Text, NoMemory>
    ensures { IfOk result (λ text.
        text ≡ combine_fault_text (names_in names.now) out.now fault.now) }
{
    match fault {
        CombineFault::Site(fault) => take_text(alloc, fault),
        CombineFault::Members(fault) => members_fault_text(alloc, names, fault),
        CombineFault::NotEmpty => full_text(alloc, out),
        CombineFault::Unlisted(place) => {
            let damaged = ChainFault::ManifestDamaged(ManifestWhy::Shape);
            directory_text(alloc, name_at(names, *place), &damaged)
        }
        CombineFault::Backup(place, why) => {
            let area = backup_name(alloc, name_at(names, *place))?;
            area_text(alloc, area.as_bytes(), *why)
        }
        CombineFault::Out(why) => area_text(alloc, out, *why),
    }
}

/// The line that joining these members to a backup of this name prints, behind a word.
fn joined_text(
    alloc: Global,
    word: &[u8],
    names: &MemberNames<'_>,
    name: &[u8],
    came: &Result<CombineReport, CombineFault>,
) -> Result<Text, NoMemory>
    ensures { IfOk result (λ text.
        text ≡ joined_text word.now (names_in names.now) name.now came.now) }
{
    match came {
        Ok(report) => joined_line(alloc, word, name, report),
        Err(fault) => {
            let out = backup_name(alloc, name)?;
            let text = combine_fault_text(alloc, names, out.as_bytes(), fault)?;
            refused_line(alloc, text.as_bytes())
        }
    }
}

/// The line that `combine` of these members to a backup of this name prints.
pub fn combine_text(
    alloc: Global,
    names: &MemberNames<'_>,
    name: &[u8],
    came: &Result<CombineReport, CombineFault>,
) -> Result<Text, NoMemory>
    ensures { IfOk result (λ text. text ≡ combine_text (names_in names.now) name.now came.now) }
{
    joined_text(alloc, b"combined ", names, name, came)
}

/// The line that `merge-incr` of these members to a backup of this name prints.
pub fn merge_text(
    alloc: Global,
    names: &MemberNames<'_>,
    name: &[u8],
    came: &Result<CombineReport, CombineFault>,
) -> Result<Text, NoMemory>
    ensures { IfOk result (λ text. text ≡ merge_text (names_in names.now) name.now came.now) }
{
    joined_text(alloc, b"merged ", names, name, came)
}

/// The status that `combine` or `merge-incr` ends with.
pub fn combine_status(came: &Result<CombineReport, CombineFault>) -> Status
    ensures { result ≡ combine_status came.now }
{
    match came {
        Ok(_) => Status::Done,
        Err(CombineFault::Site(fault)) => area_status(fault.why),
        Err(CombineFault::Members(fault)) => members_status(fault),
        Err(CombineFault::NotEmpty | CombineFault::Unlisted(_)) => Status::Refused,
        Err(CombineFault::Backup(_, why) | CombineFault::Out(why)) => area_status(*why),
    }
}

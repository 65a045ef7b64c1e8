//! `restore`: a chain of backups, and the WAL from the newest one's start on, restored to an
//! output.

ghost use Rattle.std.specs.Prelude.{◌≡◌, ◌≤◌, ◌<◌, [], ◌∷◌, ◌++◌, length, IfOk};
ghost use Rattle.lsn_core.specs.declared.fault.AreaFault.TheVariants as area;
ghost use Rattle.vault.specs.Frame.{OnlyReads};
ghost use Rattle.vault.specs.Site.{AllHome};
ghost use Rattle.chain_check.specs.Chain.{most_members};
ghost use Rattle.chain_files.specs.Told.{ArePlaces, AllOnlyRead};
ghost use Rattle.recovery.specs.Onward.{replayed_to};
ghost use Rattle.command_base.specs.Areas.{wal_name, output_name};
ghost use Rattle.command_base.specs.Outside.{of_site, Works};
ghost use Rattle.command_line.specs.Members.{names_in};
ghost use Rattle.chain_commands.specs.declared.restoring.RestoreFault.TheVariants as restore;
ghost use Rattle.chain_commands.specs.Restore.{RestoreDoes};
ghost use Rattle.chain_commands.specs.Restore.{early_text, restore_fault_text, restore_text, restore_status};
ghost use Rattle.chain_commands.specs.Inner.{AnswersPlace, AnswersReady, AnswersRestorable};
ghost use Rattle.chain_commands.specs.Inner.{AreOwnPlaces, AreMemberAreas, EndsRestore, AnswersRestore};

use crate::chain::{
    Joining, MemberAreas, MembersFault, areas_of, check_count, member_of, members_fault_text,
    members_status, name_at, newest_at,
};
use crate::lending::last_of;
use backup_restore::{RestoreFault as Unrestored, restore as restore_into};
use chain_check::Member;
use command_base::{
    Status, area_status, area_text, backup_name, empty_area, full_text, is_clear, joined,
    lsns_text, output_name, refused_line, take_text, wal_status, wal_text,
};
use command_line::MemberNames;
use lsn_core::{AreaFault, Lsn, NoMemory, Settings, Text, WalTip};
use recovery::{Beginning, RecoveryFault, Replayed, read_from, settings_of};
use std::alloc::{AllocFailed, Global};
use store_commands::{ReplayReport, made_line};
use vault::{Held, Site, TakeFault, Vault, give_all, give_two, take_all};

/// Why a chain of backups isn't restored.
#[derive(Debug, Drop)]
pub enum RestoreFault {
    /// The site didn't hand out an area.
    Site(TakeFault),
    /// The members aren't taken, an area of theirs failed, or memory ran out.
    Members(MembersFault),
    /// The target, or else the WAL's end, is before the newest member's end.
    Early(Lsn, Lsn),
    /// The output's area holds a file.
    NotEmpty,
    /// The WAL can't be read or redone.
    Wal(RecoveryFault),
    /// The area of the member of this place failed while the chain was copied, or memory ran out.
    Backup(u32, AreaFault),
    /// The output's area failed, or memory ran out.
    Out(AreaFault),
}

impl From<TakeFault> for RestoreFault {
    ghost from_gives = { λ fault e. e ≡ restore.Site fault };

    fn from(fault: TakeFault) -> Self {
        RestoreFault::Site(fault)
    }
}

impl From<MembersFault> for RestoreFault {
    ghost from_gives = { λ fault e. e ≡ restore.Members fault };

    fn from(fault: MembersFault) -> Self {
        RestoreFault::Members(fault)
    }
}

impl From<RecoveryFault> for RestoreFault {
    ghost from_gives = { λ why e. e ≡ restore.Wal why };

    fn from(why: RecoveryFault) -> Self {
        RestoreFault::Wal(why)
    }
}

impl From<AreaFault> for RestoreFault {
    ghost from_gives = { λ why e. e ≡ restore.Out why };

    fn from(why: AreaFault) -> Self {
        RestoreFault::Out(why)
    }
}

impl From<NoMemory> for RestoreFault {
    ghost from_gives = { λ _ e. e ≡ restore.Out area.NoMemory };

    fn from(_: NoMemory) -> Self {
        RestoreFault::Out(AreaFault::NoMemory)
    }
}

impl<T: Drop> From<AllocFailed<T>> for RestoreFault {
    ghost from_gives = { λ _ e. e ≡ restore.Out area.NoMemory };

    fn from(_: AllocFailed<T>) -> Self {
        RestoreFault::Out(AreaFault::NoMemory)
    }
}

/// Whether a place up to which is restored, where one is known, is at a backup's end or past it.
fn check_place(upto: Option<Lsn>, end: Lsn) -> Result<(), RestoreFault>
    ensures { AnswersPlace upto end result }
{
    match upto {
        Some(target) if target.0 < end.0 => Err(RestoreFault::Early(target, end)),
        _ => Ok(()),
    }
}

/// The place up to which is restored: the target, or the end of the WAL.
fn place_of(upto: Option<Lsn>, tip: WalTip) -> Lsn
    ensures { result.0 ≡ replayed_to upto tip }
{
    match upto {
        Some(target) => target,
        None => tip.end,
    }
}

/// What the restore of a chain to its newest member needs before anything is written: that the
/// target isn't before that member's end, that the output's area is empty, the settings of the WAL,
/// and a first reading of it from the member's start on, up to the target, which finds all damage.
fn prepare_newest<V: Vault>(
    alloc: Global,
    wal: &mut V,
    out: &mut V,
    newest: &Member,
    upto: Option<Lsn>,
) -> Result<Settings, RestoreFault>
    ensures answer { AnswersReady V.Vault upto newest.now wal.old out.old wal.new out.new result }
    ensures wal { OnlyReads V.Vault wal.old wal.new }
    ensures out { V.files out.new ≡ V.files out.old }
    ensures out_later { V.faults out.old ≤ V.faults out.new }
{
    let end = newest.manifest.end;
    check_place(upto, end)?;
    if !is_clear(alloc, out)? {
        return Err(RestoreFault::NotEmpty);
    }
    let settings = settings_of(alloc, wal)?;
    let begin = Beginning::AtPlace(newest.label.start);
    let tip = read_from(alloc, wal, &settings, begin, upto)?;
    check_place(Some(place_of(upto, tip)), end)?;
    Ok(settings)
}

/// What a restore needs before anything is written: the newest member of the chain, which is
/// accepted, and the settings of the WAL.
fn prepare<V: Vault>(
    alloc: Global,
    wal: &mut V,
    areas: &mut [Held<V>],
    places: &[u32],
    out: &mut V,
    names: &MemberNames<'_>,
    upto: Option<Lsn>,
) -> Result<(Member, Settings), RestoreFault>
    requires places { ArePlaces (length areas.old) places.now }
    requires each { length (names_in names.now) ≡ length places.now }
    requires some { 1 ≤ length places.now }
    requires few { length places.now ≤ most_members }
    ensures answer { AnswersRestorable V.Vault upto (names_in names.now) places.now
        wal.old areas.old out.old wal.new areas.new out.new result }
    ensures wal { OnlyReads V.Vault wal.old wal.new }
    ensures areas { AllOnlyRead V.Vault areas.old areas.new }
    ensures out { V.files out.new ≡ V.files out.old }
    ensures out_later { V.faults out.old ≤ V.faults out.new }
{
    let newest = newest_at(alloc, Joining::Chain, areas, places, names)?;
    let settings = prepare_newest(alloc, wal, out, &newest, upto)?;
    Ok((newest, settings))
}

/// Ends a restore into an area that was empty: makes durable what was written, or takes it away
/// again where the WAL couldn't be redone.
fn finish<V: Vault>(
    alloc: Global,
    places: &[u32],
    out: &mut V,
    came: Result<Replayed, Unrestored>,
) -> Result<ReplayReport, RestoreFault>
    requires { length places.now ≤ most_members }
    ensures answer { EndsRestore V.Vault places.now came out.old out.new result }
    ensures later { V.faults out.old ≤ V.faults out.new }
{
    match came {
        Ok(replayed) => {
            out.sync()?;
            Ok(ReplayReport {
                end: replayed.end,
                forks: replayed.forks,
                pages: replayed.pages,
            })
        }
        Err(Unrestored::Backup(fault)) => {
            Err(RestoreFault::Backup(member_of(places, fault.area), fault.why))
        }
        Err(Unrestored::Out(why)) => Err(RestoreFault::Out(why)),
        Err(Unrestored::Wal(why)) => {
            empty_area(alloc, out)?;
            Err(RestoreFault::Wal(why))
        }
    }
}

/// Checks the chain of these members and reads the WAL from the newest one's start on, up to the
/// target, and then restores both into the output's area, which has to be empty. Gives that area
/// back.
fn restore_areas<V: Vault>(
    alloc: Global,
    wal: &mut V,
    areas: &mut [Held<V>],
    places: &[u32],
    out: V,
    names: &MemberNames<'_>,
    upto: Option<Lsn>,
) -> (V, Result<ReplayReport, RestoreFault>)
    requires own { AreOwnPlaces (length areas.old) places.now }
    requires places { ArePlaces (length areas.old) places.now }
    requires each { length (names_in names.now) ≡ length places.now }
    requires some { 1 ≤ length places.now }
    requires few { length places.now ≤ most_members }
    ensures answer { AnswersRestore V.Vault upto (names_in names.now) places.now
        wal.old areas.old out wal.new areas.new result.0 result.1 }
    ensures wal { OnlyReads V.Vault wal.old wal.new }
    ensures areas { AllOnlyRead V.Vault areas.old areas.new }
    ensures out_later { V.faults out ≤ V.faults result.0 }
{
    let mut out = out;
    let (newest, settings) = match prepare(alloc, wal, areas, places, &mut out, names, upto) {
        Ok(prepared) => prepared,
        Err(fault) => return (out, Err(fault)),
    };
    let start = newest.label.start;
    let (mut out, came) = restore_into(alloc, wal, areas, places, out, &settings, start, upto);
    let answer = finish(alloc, places, &mut out, came);
    (out, answer)
}

/// The names of the areas of a restore: of these, of the WAL and of an output.
fn names_beside(alloc: Global, names: Vec<Text>, out: &[u8]) -> Result<Vec<Text>, NoMemory>
    ensures { IfOk result (λ all.
        all.items ≡ (names.items ++ wal_name ∷ []) ++ output_name out.now ∷ []) }
{
    let mut names = names;
    names.push(joined(alloc, &[b"wal"])?)?;
    names.push(output_name(alloc, out)?)?;
    Ok(names)
}

/// Restores the chain of these members, from their areas of a site, into the area of an output of
/// it.
fn restore_from<S: Site>(
    alloc: Global,
    upto: Option<Lsn>,
    areas: MemberAreas,
    out: &[u8],
    members: &MemberNames<'_>,
    site: &mut S,
) -> Result<ReplayReport, RestoreFault>
    requires areas { AreMemberAreas (names_in members.now) areas }
    requires some { 1 ≤ length (names_in members.now) }
    requires few { length (names_in members.now) ≤ most_members }
    requires home { AllHome (S.areas site.old) }
    ensures does { RestoreDoes upto out.now (names_in members.now)
        (of_site S.Site site.old) (of_site S.Site site.new) result }
{
    let MemberAreas { names, places } = areas;
    let all = names_beside(alloc, names, out)?;
    let mut held = take_all(alloc, site, all)?;
    let Held { name, area } = last_of(&mut held);
    let mut wal = last_of(&mut held);
    let (area, answer) = restore_areas(
        alloc,
        &mut wal.area,
        &mut held,
        &places,
        area,
        members,
        upto,
    );
    give_two(site, wal, Held { name, area });
    give_all(site, held);
    answer
}

/// `restore`: restores the chain of the backups of these names, the oldest one first, and the WAL
/// from the newest one's start on, up to the target, or to the WAL's end where none is given, to an
/// output of another name.
pub fn restore<S: Site>(
    alloc: Global,
    upto: Option<Lsn>,
    out: &[u8],
    members: &MemberNames<'_>,
    site: &mut S,
) -> Result<ReplayReport, RestoreFault>
    requires some { 1 ≤ length (names_in members.now) }
    requires home { AllHome (S.areas site.old) }
    ensures does { RestoreDoes upto out.now (names_in members.now)
        (of_site S.Site site.old) (of_site S.Site site.new) result }
    ensures home { AllHome (S.areas site.new) }
{
    check_count(members)?;
    let areas = areas_of(alloc, members)?;
    restore_from(alloc, upto, areas, out, members, site)
}

/// A target is before a backup's end.
fn early_text(alloc: Global, target: Lsn, end: Lsn) -> Result<Text, NoMemory>
    ensures { IfOk result (λ text. text ≡ early_text target end) }
{
    let places = lsns_text(alloc, target, end)?;
    joined(alloc, &[b"40 TargetEarly ", places.as_bytes()])
}

fn restore_fault_text(
    alloc: Global,
    names: &MemberNames<'_>,
    out: &[u8],
    fault: &RestoreFault,
) -> Result<Text, NoMemory>
    ensures { IfOk result (λ text.
        text ≡ restore_fault_text (names_in names.now) out.now fault.now) }
{
    match fault {
        RestoreFault::Site(fault) => take_text(alloc, fault),
        RestoreFault::Members(fault) => members_fault_text(alloc, names, fault),
        RestoreFault::Early(target, end) => early_text(alloc, *target, *end),
        RestoreFault::NotEmpty => full_text(alloc, out),
        RestoreFault::Wal(why) => wal_text(alloc, *why),
        RestoreFault::Backup(place, why) => {
            let area = backup_name(alloc, name_at(names, *place))?;
            area_text(alloc, area.as_bytes(), *why)
        }
        RestoreFault::Out(why) => area_text(alloc, out, *why),
    }
}

/// The line that `restore` of these members prints, where this is the output's area.
pub fn restore_text(
    alloc: Global,
    names: &MemberNames<'_>,
    out: &[u8],
    came: &Result<ReplayReport, RestoreFault>,
) -> Result<Text, NoMemory>
    ensures { IfOk result (λ text. text ≡ restore_text (names_in names.now) out.now came.now) }
{
    match came {
        Ok(report) => made_line(alloc, b"restored ", report),
        Err(fault) => refused_line(
            alloc,
            restore_fault_text(alloc, names, out, fault)?.as_bytes(),
        ),
    }
}

/// The status that `restore` ends with.
pub fn restore_status(came: &Result<ReplayReport, RestoreFault>) -> Status
    ensures { result ≡ restore_status came.now }
{
    match came {
        Ok(_) => Status::Done,
        Err(RestoreFault::Site(fault)) => area_status(fault.why),
        Err(RestoreFault::Members(fault)) => members_status(fault),
        Err(RestoreFault::Early(_, _) | RestoreFault::NotEmpty) => Status::Refused,
        Err(RestoreFault::Wal(why)) => wal_status(*why),
        Err(RestoreFault::Backup(_, why) | RestoreFault::Out(why)) => area_status(*why),
    }
}

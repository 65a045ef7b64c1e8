//! The chain of backups, or the series of incremental ones, that a command is given by the names of
//! its members: their areas, and what their directories are.

ghost use Rattle.std.specs.Prelude.{◌≡◌, ◌≤◌, ◌<◌, ◌==◌, length, bytes_eq, IfOk, OnOk, IfErr, IfSome};
ghost use Rattle.std.specs.List.{position};
ghost use Rattle.chain_check.specs.Chain.{most_members};
ghost use Rattle.chain_files.specs.Told.{ArePlaces, AllOnlyRead};
ghost use Rattle.command_line.specs.Members.{names_in};
ghost use Rattle.chain_commands.specs.declared.chain.MembersFault.TheVariants as members;
ghost use Rattle.chain_commands.specs.Chain.{too_many, name_at, members_fault_text, members_status};
ghost use Rattle.chain_commands.specs.Inner.{PlacesArea, AreMemberAreas, AnswersMember, AnswersMembers};
ghost use Rattle.chain_commands.specs.Inner.{AnswersJoined, AnswersChain, AnswersNewest, member_of};

use crate::directory::{directory_status, directory_text};
use crate::link::{link_status, link_text};
use chain_check::{ChainRefusal, LinkFault, MOST_MEMBERS, Member, Refusal, check_chain, check_dir};
use command_base::{Status, backup_name, joined};
use command_line::MemberNames;
use lsn_core::{NoMemory, Text};
use series_check::check_series;
use std::alloc::{AllocFailed, Global};
use vault::{Held, Vault};

/// What the members have to be.
#[derive(Clone, Copy, Debug, PartialEq, Eq)]
pub enum Joining {
    /// A full backup, and incremental ones over it.
    Chain,
    /// Consecutive incremental backups.
    Series,
}

/// Why the members of a chain, or of a series, aren't taken.
#[derive(Debug, Drop)]
pub enum MembersFault {
    /// The directory of the member of this place, from 0, isn't as its manifest lists it, its area
    /// failed, or memory ran out.
    Directory(u32, Refusal),
    /// The members make no chain, or no series, or memory ran out.
    Link(ChainRefusal),
    /// Memory ran out.
    NoMemory,
}

impl<T: Drop> From<AllocFailed<T>> for MembersFault {
    ghost from_gives = { λ _ e. e ≡ members.NoMemory };

    fn from(_: AllocFailed<T>) -> Self {
        MembersFault::NoMemory
    }
}

/// The areas of the members' directories.
#[derive(Drop)]
pub struct MemberAreas {
    /// Their names, each once.
    pub names: Vec<Text>,
    /// The place of each member's area among them.
    pub places: Vec<u32>,
}

/// Refuses more members than a chain or a series may have.
pub fn check_count(names: &MemberNames<'_>) -> Result<(), MembersFault>
    ensures few { OnOk result (length (names_in names.now) ≤ most_members) }
    ensures many { IfErr result (λ why.
        (most_members < length (names_in names.now)) × (why ≡ members.Link too_many)) }
{
    if names.are_more_than(MOST_MEMBERS) {
        return Err(MembersFault::Link(ChainRefusal {
            member: MOST_MEMBERS as u32,
            why: LinkFault::TooManyMembers,
        }));
    }
    Ok(())
}

/// Where a name stands among these.
pub fn place_in(names: &[Text], name: &[u8]) -> Option<usize>
    ensures place { result ≡ position (bytes_eq name.now) names.now }
    ensures within { IfSome result (λ place. place < length names.now) }
{
    names.iter().position(|other| name == other.as_bytes())
}

/// The place of the area of one more member, which is noted unless it was noted before.
fn place_of(names: &mut Vec<Text>, area: Text) -> Result<u32, NoMemory>
    requires { length names.old.items ≤ most_members }
    ensures { IfOk result (PlacesArea area names.old.items names.new.items) }
{
    match place_in(names, area.as_bytes()) {
        Some(place) => Ok(place as u32),
        None => {
            let place = names.len() as u32;
            names.push(area)?;
            Ok(place)
        }
    }
}

/// The areas of the directories of these members.
pub fn areas_of(alloc: Global, members: &MemberNames<'_>) -> Result<MemberAreas, NoMemory>
    requires { length (names_in members.now) ≤ most_members }
    ensures { IfOk result (AreMemberAreas (names_in members.now)) }
{
    let mut names = Vec::new(alloc);
    let mut places = Vec::new(alloc);
    let mut member = 0;
    while let Some(name) = members.get(member) {
        places.push(place_of(&mut names, backup_name(alloc, name)?)?)?;
        member += 1;
    }
    Ok(MemberAreas { names, places })
}

/// The member that the directory in the area of a place is, that of the backup of this name.
fn member_at<V: Vault>(
    alloc: Global,
    areas: &mut [Held<V>],
    place: u32,
    name: &[u8],
) -> Result<Member, Refusal>
    requires { place < length areas.old }
    ensures answer { AnswersMember V.Vault name.now place areas.old areas.new result }
    ensures reads { AllOnlyRead V.Vault areas.old areas.new }
{
    let name = Text::copied(alloc, name)?;
    check_dir(alloc, &mut areas[place as usize].area, &name)
}

/// The members that the directories in the areas of these places are, those of the backups of these
/// names.
fn members_at<V: Vault>(
    alloc: Global,
    areas: &mut [Held<V>],
    places: &[u32],
    names: &MemberNames<'_>,
) -> Result<Vec<Member>, MembersFault>
    requires places { ArePlaces (length areas.old) places.now }
    requires each { length (names_in names.now) ≡ length places.now }
    requires few { length places.now ≤ most_members }
    ensures answer { AnswersMembers V.Vault (names_in names.now) places.now
        areas.old areas.new result }
    ensures reads { AllOnlyRead V.Vault areas.old areas.new }
{
    let mut members = Vec::new(alloc);
    let mut at = 0;
    while let Some(name) = names.get(at) {
        match member_at(alloc, areas, places[at], name) {
            Ok(member) => members.push(member)?,
            Err(refusal) => return Err(MembersFault::Directory(at as u32, refusal)),
        }
        at += 1;
    }
    Ok(members)
}

/// Judges members, the oldest one first, as they have to be; they stay as they were.
fn check_joined(alloc: Global, joining: Joining, members: &mut [Member]) -> Result<(), ChainRefusal>
    requires { 1 ≤ length members.old }
    ensures answer { AnswersJoined joining members.old result }
    ensures kept { members.new ≡ members.old }
{
    match joining {
        Joining::Chain => check_chain(alloc, members),
        Joining::Series => check_series(alloc, members),
    }
}

/// The same members where they are accepted.
fn chain_at<V: Vault>(
    alloc: Global,
    joining: Joining,
    areas: &mut [Held<V>],
    places: &[u32],
    names: &MemberNames<'_>,
) -> Result<Vec<Member>, MembersFault>
    requires places { ArePlaces (length areas.old) places.now }
    requires each { length (names_in names.now) ≡ length places.now }
    requires some { 1 ≤ length places.now }
    requires few { length places.now ≤ most_members }
    ensures answer { AnswersChain V.Vault joining (names_in names.now) places.now
        areas.old areas.new result }
    ensures reads { AllOnlyRead V.Vault areas.old areas.new }
{
    let mut members = members_at(alloc, areas, places, names)?;
    match check_joined(alloc, joining, &mut members) {
        Ok(()) => Ok(members),
        Err(refusal) => Err(MembersFault::Link(refusal)),
    }
}

/// The newest of these members, which are accepted.
pub fn newest_at<V: Vault>(
    alloc: Global,
    joining: Joining,
    areas: &mut [Held<V>],
    places: &[u32],
    names: &MemberNames<'_>,
) -> Result<Member, MembersFault>
    requires places { ArePlaces (length areas.old) places.now }
    requires each { length (names_in names.now) ≡ length places.now }
    requires some { 1 ≤ length places.now }
    requires few { length places.now ≤ most_members }
    ensures answer { AnswersNewest V.Vault joining (names_in names.now) places.now
        areas.old areas.new result }
    ensures reads { AllOnlyRead V.Vault areas.old areas.new }
{
    let mut members = chain_at(alloc, joining, areas, places, names)?;
    match members.pop() {
        Some(newest) => Ok(newest),
        None => unreachable!(),
    }
}

/// The first member whose area has this place.
fn first_with(places: &[u32], area: u32) -> Option<usize>
    ensures place { result ≡ position (λ place. place == area) places.now }
    ensures within { IfSome result (λ member. member < length places.now) }
{
    places.iter().position(|place| *place == area)
}

/// The first member whose area has this place; how many there are where none has.
pub fn member_of(places: &[u32], area: u32) -> u32
    requires { length places.now ≤ most_members }
    ensures { result ≡ member_of places.now area }
{
    first_with(places, area).unwrap_or(places.len()) as u32
}

/// The name of the member of a place, empty where there is none.
pub fn name_at<'a>(names: &MemberNames<'a>, place: u32) -> &'a [u8]
    ensures { result.now ≡ name_at (names_in names.now) place }
{
    names.get(place as usize).unwrap_or(b"")
}

/// What is printed of members that aren't taken.
pub fn members_fault_text(
    alloc: Global,
    names: &MemberNames<'_>,
    fault: &MembersFault,
) -> Result<Text, NoMemory>
    ensures { IfOk result (λ text. text ≡ members_fault_text (names_in names.now) fault.now) }
{
    match fault {
        MembersFault::Directory(place, refusal) => {
            directory_text(alloc, name_at(names, *place), &refusal.fault)
        }
        MembersFault::Link(refusal) => {
            link_text(alloc, name_at(names, refusal.member), &refusal.why)
        }
        MembersFault::NoMemory => joined(alloc, &[b"61 NoMemory"]),
    }
}

/// The status of members that aren't taken.
pub fn members_status(fault: &MembersFault) -> Status
    ensures { result ≡ members_status fault.now }
{
    match fault {
        MembersFault::Directory(_, refusal) => directory_status(&refusal.fault),
        MembersFault::Link(refusal) => link_status(&refusal.why),
        MembersFault::NoMemory => Status::Memory,
    }
}

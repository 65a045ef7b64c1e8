//! The areas of a run, taken from a site and given back.

ghost use Rattle.std.specs.Prelude.{◌≡◌, ◌≤◌, ◌∷◌, ◌++◌, [], map, length, IfOk, OnOk, bytes_eq};
ghost use Rattle.std.specs.List.{list_any};
ghost use Rattle.vault.specs.Site.{AllHome};
ghost use Rattle.vault.specs.Lending.{AreDistinct, AreOut, GivesBack};
ghost use Rattle.command_base.specs.Areas.{backup_name, sums_name};
ghost use Rattle.crew.specs.Backups.{area_asked, areas_asked};
ghost use Rattle.run_command.specs.Run.{store_asks};
ghost use Rattle.run_command.specs.Inner.{held_of, AreEachOnce, AddsAsked, TakesRun};

use command_base::{backup_name, joined};
use lsn_core::{NoMemory, Text};
use scripts::{Command, Line};
use std::alloc::Global;
use store_areas::StoreAreas;
use vault::{Held, Site, TakeFault, Vault, give_all, give_one, give_two, take_all};

/// The names under which the areas of a store go back.
#[derive(Drop)]
pub struct StoreNames {
    pub wal: Text,
    pub data0: Text,
    pub data1: Text,
    pub data2: Text,
    pub data3: Text,
}

/// Notes the name of an area, unless it is noted.
fn note_name(names: &mut Vec<Text>, area: Text) -> Result<(), NoMemory>
    ensures { OnOk result (AddsAsked (area ∷ []) names.old.items names.new.items) }
{
    if !is_among(names, area.as_bytes()) {
        names.push(area)?;
    }
    Ok(())
}

/// Notes the area of a backup's directory.
fn note_backup(alloc: Global, names: &mut Vec<Text>, name: &Text) -> Result<(), NoMemory>
    ensures { OnOk result
        (AddsAsked (backup_name name.now ∷ []) names.old.items names.new.items) }
{
    note_name(names, backup_name(alloc, name.as_bytes())?)
}

/// Notes the areas of an incremental backup: its own, and that of its prior backup.
fn note_incr(
    alloc: Global,
    names: &mut Vec<Text>,
    name: &Text,
    prior: &Text,
) -> Result<(), NoMemory>
    ensures { OnOk result (AddsAsked (backup_name name.now ∷ backup_name prior.now ∷ [])
        names.old.items names.new.items) }
{
    note_backup(alloc, names, name)?;
    note_backup(alloc, names, prior)?;
    Ok(())
}

/// Notes the areas that a command asks for, beside those of every run.
fn note_areas(alloc: Global, names: &mut Vec<Text>, command: &Command) -> Result<(), NoMemory>
    ensures { OnOk result (AddsAsked (area_asked command.now) names.old.items names.new.items) }
{
    match command {
        Command::Full(name) => note_backup(alloc, names, name),
        Command::Incr(name, prior) => note_incr(alloc, names, name, prior),
        Command::Insert(_)
        | Command::Grow(_, _, _)
        | Command::Checkpoint
        | Command::Flush(_)
        | Command::Summarise => Ok(()),
    }
}

/// Whether a name is among these.
fn is_among(names: &[Text], name: &[u8]) -> bool
    ensures { result ≡ list_any (bytes_eq name.now) names.now }
{
    names.iter().any(|other| name == other.as_bytes())
}

/// The areas that lines ask for beside those of every run, each once.
pub fn asked_areas(alloc: Global, lines: &[Line]) -> Result<Vec<Text>, NoMemory>
    ensures { IfOk result (λ names. AreEachOnce (areas_asked lines.now) names.items) }
{
    let mut names = Vec::new(alloc);
    for line in lines {
        note_areas(alloc, &mut names, &line.command)?;
    }
    Ok(names)
}

/// Puts names behind others.
pub fn keep_names(names: &mut Vec<Text>, more: Vec<Text>) -> Result<(), NoMemory>
    ensures { OnOk result (names.new.items ≡ names.old.items ++ more.items) }
{
    for name in more {
        names.push(name)?;
    }
    Ok(())
}

/// Puts names of areas behind others.
fn push_names(alloc: Global, names: &mut Vec<Text>, more: &[&[u8]]) -> Result<(), NoMemory>
    ensures { OnOk result
        (names.new.items ≡ names.old.items ++ map (λ name. name.now) more.now) }
{
    for name in more {
        names.push(joined(alloc, &[name])?)?;
    }
    Ok(())
}

/// The areas that a run asks for: behind these of its backups that of summaries, and those of the
/// store.
pub fn run_names(alloc: Global, backups: Vec<Text>) -> Result<Vec<Text>, NoMemory>
    ensures { IfOk result
        (λ names. names.items ≡ (backups.items ++ (sums_name ∷ [])) ++ store_asks) }
{
    let mut names = backups;
    push_names(
        alloc,
        &mut names,
        &[b"sums", b"wal", b"data0", b"data1", b"data2", b"data3"],
    )?;
    Ok(names)
}

/// The last five areas of a list, as those of a store.
fn five_of<V: Vault>(held: &mut Vec<Held<V>>) -> (StoreNames, StoreAreas<V>)
    requires { 5 ≤ length held.old.items }
    ensures { held.old.items ≡ held.new.items ++ held_of result.0 result.1 }
{
    match (held.pop(), held.pop(), held.pop(), held.pop(), held.pop()) {
        (Some(fifth), Some(fourth), Some(third), Some(second), Some(first)) => (
            StoreNames {
                wal: first.name,
                data0: second.name,
                data1: third.name,
                data2: fourth.name,
                data3: fifth.name,
            },
            StoreAreas {
                wal: first.area,
                data0: second.area,
                data1: third.area,
                data2: fourth.area,
                data3: fifth.area,
            },
        ),
        _ => unreachable!(),
    }
}

/// The last area of a list.
fn last_of<V: Vault>(held: &mut Vec<Held<V>>) -> Held<V>
    requires { 1 ≤ length held.old.items }
    ensures { held.old.items ≡ held.new.items ++ (result ∷ []) }
{
    match held.pop() {
        Some(one) => one,
        None => unreachable!(),
    }
}

/// Takes the areas of a run, or none of them: those of its backups, that of summaries, and those of
/// its store.
pub fn take_run<S: Site>(
    alloc: Global,
    site: &mut S,
    names: Vec<Text>,
) -> Result<
    (
        Vec<Held<S::Area>>,
        Held<S::Area>,
        StoreNames,
        StoreAreas<S::Area>,
    ),
    TakeFault,
>
    requires distinct { AreDistinct names.items }
    requires many { 6 ≤ length names.items }
    requires home { AllHome (S.areas site.old) }
    ensures takes { TakesRun S.Site S.Area.Vault names.items site.old site.new result }
{
    let mut held = take_all(alloc, site, names)?;
    let (names, areas) = five_of(&mut held);
    let sums = last_of(&mut held);
    Ok((held, sums, names, areas))
}

/// Gives the areas of backups and that of summaries back. It can't fail.
pub fn give_others<S: Site>(site: &mut S, held: Vec<Held<S::Area>>, sums: Held<S::Area>)
    requires { AreOut S.Area.Vault (S.areas site.old) (held.items ++ (sums ∷ [])) }
    ensures gives { GivesBack S.Site S.Area.Vault (held.items ++ (sums ∷ [])) site.old site.new }
{
    give_one(site, sums);
    give_all(site, held);
}

/// Gives the areas of a store back. It can't fail.
pub fn give_store<S: Site>(site: &mut S, names: StoreNames, areas: StoreAreas<S::Area>)
    requires { AreOut S.Area.Vault (S.areas site.old) (held_of names areas) }
    ensures gives { GivesBack S.Site S.Area.Vault (held_of names areas) site.old site.new }
{
    let third = Held {
        name: names.data2,
        area: areas.data2,
    };
    let fourth = Held {
        name: names.data3,
        area: areas.data3,
    };
    give_two(site, third, fourth);
    let first = Held {
        name: names.data0,
        area: areas.data0,
    };
    let second = Held {
        name: names.data1,
        area: areas.data1,
    };
    give_two(site, first, second);
    give_one(
        site,
        Held {
            name: names.wal,
            area: areas.wal,
        },
    );
}

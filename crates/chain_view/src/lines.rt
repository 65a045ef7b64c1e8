//! The lines of a listing, in their order: chain by chain, then the backups that end none, and then
//! the folders that are no backup.

ghost use Rattle.std.specs.Prelude.{◌≡◌, ◌++◌, IfOk, OnOk, slice_get};
ghost use Rattle.std.specs.Option.{option_map, option_and_then};
ghost use Rattle.chain_view.specs.Lines.{first_of, member_of, members_in, is_named, chain_lines, root_lines, chains_lines, broken_lines, damaged_lines, lines_of};

use crate::cells::{Line, Member, damaged_line, member_line};
use chain_listing::{Backup, Damaged, Listing, Word, chain_of, prior_of};
use lsn_core::NoMemory;
use std::alloc::Global;

/// The first of the names of a chain, where there is one.
fn first_of(alloc: Global, names: Option<Vec<Word>>) -> Result<Option<Word>, NoMemory>
    ensures { IfOk result (λ first. first ≡ first_of (option_map (λ v. v.items) names)) }
{
    let Some(names) = names else {
        return Ok(None);
    };
    match names.first() {
        Some(first) => Ok(Some(Word::copied(alloc, first.as_str())?)),
        None => Ok(None),
    }
}

/// The name of a backup, where there is one.
fn name_of(alloc: Global, backup: Option<&Backup>) -> Result<Option<Word>, NoMemory>
    ensures { IfOk result (λ name. name
        ≡ option_map (λ b. b.name) (option_map (λ b. b.now) backup.entry)) }
{
    match backup {
        Some(backup) => Ok(Some(Word::copied(alloc, backup.name.as_str())?)),
        None => Ok(None),
    }
}

/// A backup in its chain, among all of them.
fn member_of(alloc: Global, backups: &[Backup], backup: &Backup) -> Result<Member, NoMemory>
    ensures { IfOk result (λ member. member ≡ member_of backups.now backup.now) }
{
    Ok(Member {
        backup: backup.copied(alloc)?,
        chain: first_of(alloc, chain_of(alloc, backups, backup)?)?,
        prior: name_of(alloc, prior_of(backups, backup))?,
    })
}

/// Backups in their chains.
fn members_in(alloc: Global, backups: &[Backup]) -> Result<Vec<Member>, NoMemory>
    ensures { IfOk result (λ members. members.items ≡ members_in backups.now backups.now) }
{
    let mut members = Vec::new(alloc);
    let mut left = backups;
    while let Some((backup, behind)) = left.split_first() {
        members.push(member_of(alloc, backups, backup)?)?;
        left = behind;
    }
    Ok(members)
}

/// Whether a chain is that of this name.
fn is_named(chain: Option<&Word>, name: &str) -> bool
    ensures { result ≡ is_named (option_map (λ w. w.now) chain.entry) name.now }
{
    match chain {
        Some(chain) => chain.as_str() == name,
        None => false,
    }
}

/// Adds the lines of the members of the chains that begin with a backup of this name.
fn add_chain(
    alloc: Global,
    lines: &mut Vec<Line>,
    members: &[Member],
    name: &str,
) -> Result<(), NoMemory>
    ensures { OnOk result (lines.new.items ≡ lines.old.items ++ chain_lines name.now members.now) }
{
    let mut left = members;
    while let Some((member, behind)) = left.split_first() {
        if is_named(member.chain.as_ref(), name) {
            lines.push(member_line(alloc, member)?)?;
        }
        left = behind;
    }
    Ok(())
}

/// Adds the lines of the chains that begin with a backup, where it is a full one.
fn add_root(
    alloc: Global,
    lines: &mut Vec<Line>,
    members: &[Member],
    member: &Member,
) -> Result<(), NoMemory>
    ensures { OnOk result (lines.new.items ≡ lines.old.items ++ root_lines members.now member.now) }
{
    let name = member.backup.name.as_str();
    if is_named(member.chain.as_ref(), name) {
        add_chain(alloc, lines, members, name)?;
    }
    Ok(())
}

/// Adds the lines of all chains, in the order of the backups that they begin with.
fn add_chains(alloc: Global, lines: &mut Vec<Line>, members: &[Member]) -> Result<(), NoMemory>
    ensures { OnOk result (lines.new.items
        ≡ lines.old.items ++ chains_lines members.now members.now) }
{
    let mut left = members;
    while let Some((member, behind)) = left.split_first() {
        add_root(alloc, lines, members, member)?;
        left = behind;
    }
    Ok(())
}

/// Adds the lines of the backups that end no chain.
fn add_broken(alloc: Global, lines: &mut Vec<Line>, members: &[Member]) -> Result<(), NoMemory>
    ensures { OnOk result (lines.new.items ≡ lines.old.items ++ broken_lines members.now) }
{
    let mut left = members;
    while let Some((member, behind)) = left.split_first() {
        if member.chain.is_none() {
            lines.push(member_line(alloc, member)?)?;
        }
        left = behind;
    }
    Ok(())
}

/// Adds the lines of the folders that are no backup.
fn add_damaged(alloc: Global, lines: &mut Vec<Line>, damaged: &[Damaged]) -> Result<(), NoMemory>
    ensures { OnOk result (lines.new.items ≡ lines.old.items ++ damaged_lines damaged.now) }
{
    let mut left = damaged;
    while let Some((one, behind)) = left.split_first() {
        lines.push(damaged_line(alloc, one)?)?;
        left = behind;
    }
    Ok(())
}

/// The lines of a listing: those of each chain, in the order of its backups, and the chains in the
/// order of their first ones; then those of the backups that end no chain; then the folders that
/// are no backup.
pub fn lines_of(alloc: Global, listing: &Listing) -> Result<Vec<Line>, NoMemory>
    ensures { IfOk result (λ lines. lines.items ≡ lines_of listing.now) }
{
    let members = members_in(alloc, &listing.backups)?;
    let mut lines = Vec::new(alloc);
    add_chains(alloc, &mut lines, &members)?;
    add_broken(alloc, &mut lines, &members)?;
    add_damaged(alloc, &mut lines, &listing.damaged)?;
    Ok(lines)
}

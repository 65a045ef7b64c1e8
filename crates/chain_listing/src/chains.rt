//! How backups stand on one another, and the chains that they make.

ghost use Rattle.std.specs.Prelude.{◌≡◌, ◌≤◌, [], length, None, IfOk, IfSome, OnOk};
ghost use Rattle.std.specs.List.{position};
ghost use Rattle.std.specs.Option.{option_map};
ghost use Rattle.std.specs.Ordering.{is_gt};
ghost use Rattle.chain_listing.specs.Order.{backup_cmp, with_backup};
ghost use Rattle.chain_listing.specs.Chains.{is_prior, prior_of, chain_of, ends_by, reaches, newest_in, members_for};

use crate::backup::Backup;
use crate::word::Word;
use lsn_core::{Lsn, NoMemory};
use std::alloc::Global;

/// The most members of a chain, as of one that `restore` takes (profile).
pub const MOST_MEMBERS: u32 = 64;

/// The place of the first of some backups that comes behind another one.
fn first_behind(backups: &[Backup], backup: &Backup) -> Option<usize>
    ensures place { result ≡ position (λ b. is_gt (backup_cmp b backup.now)) backups.now }
    ensures within { IfSome result (λ place. place ≤ length backups.now) }
{
    backups.iter().position(|b| b.order(backup).is_gt())
}

/// Puts a backup among those that are listed, in their order.
pub(crate) fn add_backup(backups: &mut Vec<Backup>, backup: Backup) -> Result<(), NoMemory>
    ensures { OnOk result (backups.new.items ≡ with_backup backups.old.items backup) }
{
    let place = first_behind(backups, &backup).unwrap_or(backups.len());
    backups.insert(place, backup)?;
    Ok(())
}

/// Whether a backup stands on another one: its label names that one's start, it is of the same
/// store, and it starts where that one has ended.
fn is_prior(member: &Backup, prior: &Backup) -> bool
    ensures { result ≡ is_prior member.now prior.now }
{
    member.prior == Some(prior.start) && prior.end <= member.start && prior.system == member.system
}

/// The backup that another one stands on: the first such one.
pub fn prior_of<'a>(backups: &'a [Backup], member: &Backup) -> Option<&'a Backup>
    ensures { option_map (λ p. p.now) result ≡ prior_of backups.now member.now }
{
    backups.iter().find(|prior| is_prior(member, prior))
}

/// The names of the members of the chain that a backup ends, the oldest one first. None exactly
/// where a prior isn't among the backups, or there would be more than 64 members.
pub fn chain_of(
    alloc: Global,
    backups: &[Backup],
    last: &Backup,
) -> Result<Option<Vec<Word>>, NoMemory>
    ensures { IfOk result (λ found. option_map (λ names. names.items) found
        ≡ chain_of backups.now last.now) }
{
    let mut names = Vec::new(alloc);
    let mut member = last;
    let mut left = MOST_MEMBERS;
    while left > 0 {
        names.insert(0, Word::copied(alloc, member.name.as_str())?)?;
        if member.is_full() {
            return Ok(Some(names));
        }
        let Some(prior) = prior_of(backups, member) else {
            return Ok(None);
        };
        member = prior;
        left -= 1;
    }
    Ok(None)
}

/// Whether a backup ends a chain, and at or before this place.
fn reaches(alloc: Global, backups: &[Backup], upto: Lsn, last: &Backup) -> Result<bool, NoMemory>
    ensures { IfOk result (λ yes. yes ≡ reaches backups.now upto.0 last.now) }
{
    if upto < last.end {
        return Ok(false);
    }
    Ok(chain_of(alloc, backups, last)?.is_some())
}

/// Whether a backup ends at or before another one, where there is one.
fn ends_by(found: Option<&Backup>, last: &Backup) -> bool
    ensures { result ≡ ends_by (option_map (λ b. b.now) found.entry) last.now }
{
    match found {
        Some(found) => last.end <= found.end,
        None => false,
    }
}

/// The newest backup that ends a chain at or before a place, the first of those with the greatest
/// end. None exactly where no chain ends there.
fn newest_in<'a>(
    alloc: Global,
    backups: &'a [Backup],
    upto: Lsn,
) -> Result<Option<&'a Backup>, NoMemory>
    ensures { IfOk result (λ found. option_map (λ b. b.now) found
        ≡ newest_in backups.now upto.0 None backups.now) }
{
    let mut newest = None;
    let mut left = backups;
    while let Some((last, behind)) = left.split_first() {
        if !ends_by(newest, last) && reaches(alloc, backups, upto, last)? {
            newest = Some(last);
        }
        left = behind;
    }
    Ok(newest)
}

/// The names of the members of the newest chain that ends at or before a place, the oldest first.
/// None exactly where no chain ends there.
pub fn members_for(
    alloc: Global,
    backups: &[Backup],
    upto: Lsn,
) -> Result<Option<Vec<Word>>, NoMemory>
    ensures { IfOk result (λ found. option_map (λ names. names.items) found
        ≡ members_for backups.now upto.0) }
{
    match newest_in(alloc, backups, upto)? {
        Some(last) => chain_of(alloc, backups, last),
        None => Ok(None),
    }
}

//! Chains of backups.

ghost use Rattle.std.specs.Prelude.{◌≡◌, ◌≤◌, ◌<◌, ◌+◌, length};
ghost use Rattle.chain_check.specs.Chain.{most_members, IsFirst, IsLinked};
ghost use Rattle.chain_check.specs.Inside.{LaterAnswer, AllLaterAnswer};
ghost use Rattle.chain_check.specs.Laws.{ChainAnswer};

use crate::held::check_held;
use crate::link::{LinkFault, first_fault, label_fault};
use crate::member::Member;
use std::alloc::Global;

/// The most members of a chain (profile).
pub const MOST_MEMBERS: usize = 64;

/// Why a chain of backups isn't taken.
#[derive(Debug, Drop)]
pub struct ChainRefusal {
    /// The place of the first member that isn't taken, from 0; 64 where there are too many. After
    /// `NoMemory` any place.
    pub member: u32,
    /// Why it isn't.
    pub why: LinkFault,
}

/// Judges a later member of a chain by its predecessor.
fn check_later(alloc: Global, prior: &Member, member: &Member) -> Result<(), LinkFault>
    ensures { LaterAnswer prior.now member.now result }
{
    match label_fault(prior, member) {
        Some(why) => Err(why),
        None => check_held(alloc, &prior.manifest.files, &member.manifest.files),
    }
}

/// Judges the later members of a chain, in their order, each by the one before.
fn check_all_later(alloc: Global, first: &Member, later: &[Member]) -> Result<(), ChainRefusal>
    requires { length later.now < most_members }
    ensures { AllLaterAnswer first.now later.now result }
{
    let mut prior = first;
    let mut left = later;
    let mut place = 1;
    while let Some((member, behind)) = left.split_first() {
        if let Err(why) = check_later(alloc, prior, member) {
            return Err(ChainRefusal { member: place, why });
        }
        prior = member;
        left = behind;
        place += 1;
    }
    Ok(())
}

/// Judges a chain of backups, the oldest one first, whose directories were found to be as listed
/// (PostgreSQL manual, pg_combinebackup; the order: profile). It is accepted exactly where it has
/// at most 64 members, each with a manifest of version 2, the first is a full backup, and each
/// later one names its predecessor's start, is of the same store, starts at or behind the
/// predecessor's end, and has no incremental file that the predecessor lists in neither form, all
/// on timeline 1. Otherwise it is refused for the first
/// fault, in the order of `LinkFault`, of the first member that has one.
pub fn check_chain(alloc: Global, members: &[Member]) -> Result<(), ChainRefusal>
    requires { 1 ≤ length members.now }
    ensures { ChainAnswer members.now result }
{
    if members.len() > MOST_MEMBERS {
        return Err(ChainRefusal {
            member: MOST_MEMBERS as u32,
            why: LinkFault::TooManyMembers,
        });
    }
    let Some((first, later)) = members.split_first() else {
        return Ok(());
    };
    if let Some(why) = first_fault(first) {
        return Err(ChainRefusal { member: 0, why });
    }
    check_all_later(alloc, first, later)
}

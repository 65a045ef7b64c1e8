//! Series of incremental backups.

ghost use Rattle.std.specs.Prelude.{◌≡◌, ◌≤◌, length, None as Nothing};
ghost use Rattle.series_check.specs.Series.{SeriesAnswer, series_fault};
ghost use Rattle.series_check.specs.Priors.{first_prior, with_first_prior};

use chain_check::{ChainRefusal, LinkFault, MOST_MEMBERS, Member, check_chain};
use lsn_core::Lsn;
use std::alloc::Global;
use std::mem;

/// What the first member of a series of incremental backups is refused for by its version and its
/// label, if anything.
fn series_fault(member: &Member) -> Option<LinkFault>
    ensures { result ≡ series_fault member.now }
{
    let version = member.manifest.version;
    if version != 2 {
        return Some(LinkFault::ManifestVersion(version));
    }
    let label = &member.label;
    if label.timeline != 1 {
        return Some(LinkFault::TimelineDiffers(label.timeline));
    }
    match label.prior {
        None => Some(LinkFault::LaterFull),
        Some((_, timeline)) if timeline != 1 => Some(LinkFault::TimelineDiffers(timeline)),
        Some(_) => None,
    }
}

/// Puts a prior into the label of the first member, and takes out the one that stood there.
fn swap_prior(members: &mut [Member], prior: Option<(Lsn, u32)>) -> Option<(Lsn, u32)>
    requires { 1 ≤ length members.old }
    ensures taken { result ≡ first_prior members.old }
    ensures put { members.new ≡ with_first_prior members.old prior }
{
    mem::replace(&mut members[0].label.prior, prior)
}

/// Judges a series of incremental backups, the oldest one first, whose directories were found to be
/// as listed. It is accepted exactly where it has at most 64 members, the first has a manifest of
/// version 2 and names a prior on timeline 1, and each later one is linked to the one before as in
/// a chain. Otherwise it is refused for the first fault, in the order of `LinkFault`, of the first
/// member that has one. The first member stands for a full backup while the later ones are judged;
/// the members stay as they were.
pub fn check_series(alloc: Global, members: &mut [Member]) -> Result<(), ChainRefusal>
    requires { 1 ≤ length members.old }
    ensures answer { SeriesAnswer members.old result }
    ensures kept { members.new ≡ members.old }
{
    if members.len() > MOST_MEMBERS {
        return Err(ChainRefusal {
            member: MOST_MEMBERS as u32,
            why: LinkFault::TooManyMembers,
        });
    }
    if let Some(why) = series_fault(&members[0]) {
        return Err(ChainRefusal { member: 0, why });
    }
    let prior = swap_prior(members, None);
    let answer = check_chain(alloc, members);
    swap_prior(members, prior);
    answer
}

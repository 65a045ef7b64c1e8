//! What a member of a chain is refused for, by what labels and manifests tell.

ghost use Rattle.std.specs.Prelude.{◌≡◌, not, ◌==◌};
ghost use Rattle.std.specs.Option.{option_map};
ghost use Rattle.std.specs.List.{find};
ghost use Rattle.chain_check.specs.declared.link.LinkFault.TheVariants as link;
ghost use Rattle.chain_check.specs.Chain.{timelines_of, system_of, version_fault, first_fault, label_fault};
ghost use Rattle.chain_check.specs.Chain.{system_fault, prior_fault, overlap_fault};

use crate::member::Member;
use backup_label::Label;
use lsn_core::{Lsn, NoMemory, Text};
use std::alloc::AllocError;

/// Why a member isn't taken as a part of a chain of backups. All but the last stand in the order in
/// which they are judged.
#[derive(Debug, Drop)]
pub enum LinkFault {
    /// The chain has more than 64 members.
    TooManyMembers,
    /// The version of the member's manifest is this one, and not 2.
    ManifestVersion(u32),
    /// A timeline of the member's label is this one, and not 1: that on which the backup was begun,
    /// or else that of its prior.
    TimelineDiffers(u32),
    /// The first member's label names a prior.
    FirstIncremental,
    /// The label of a later member names none.
    LaterFull,
    /// The manifest tells the first system identifier, and that of the predecessor the second.
    SystemDiffers(u64, u64),
    /// The label names a prior that starts at the first place, and the predecessor starts at the
    /// second.
    WrongPrior(Lsn, Lsn),
    /// The member starts at the first place, and the predecessor ends at the second, which is
    /// behind it.
    Overlap(Lsn, Lsn),
    /// The file of this path is incremental, the first such one in byte order that the predecessor
    /// lists in neither form.
    NoPriorFile(Text),
    /// Memory ran out.
    NoMemory,
}

impl From<NoMemory> for LinkFault {
    ghost from_gives = { λ _ e. e ≡ link.NoMemory };

    fn from(_: NoMemory) -> Self {
        LinkFault::NoMemory
    }
}

impl From<AllocError> for LinkFault {
    ghost from_gives = { λ _ e. e ≡ link.NoMemory };

    fn from(_: AllocError) -> Self {
        LinkFault::NoMemory
    }
}

/// The first timeline of a label that isn't 1.
fn other_timeline(label: &Label) -> Option<u32>
    ensures { result ≡ find (λ t. not (t == 1)) (timelines_of label.now) }
{
    if label.timeline != 1 {
        return Some(label.timeline);
    }
    match label.prior {
        Some((_, timeline)) if timeline != 1 => Some(timeline),
        _ => None,
    }
}

/// What a member is refused for by the version of its manifest, if anything.
fn version_fault(member: &Member) -> Option<LinkFault>
    ensures { result ≡ version_fault member.now }
{
    let version = member.manifest.version;
    if version == 2 {
        return None;
    }
    Some(LinkFault::ManifestVersion(version))
}

/// What the first member of a chain is refused for by its version and its label, if anything.
pub(crate) fn first_fault(member: &Member) -> Option<LinkFault>
    ensures { result ≡ first_fault member.now }
{
    if let Some(why) = version_fault(member) {
        return Some(why);
    }
    if let Some(timeline) = other_timeline(&member.label) {
        return Some(LinkFault::TimelineDiffers(timeline));
    }
    member.label.prior.map(|_| LinkFault::FirstIncremental)
}

/// The system identifier that a member's manifest tells; that of version 2 tells one.
fn system_of(member: &Member) -> u64
    ensures { result ≡ system_of member.now }
{
    member.manifest.system.unwrap_or(0)
}

/// What a later member of another system identifier than its predecessor is refused for.
fn system_fault(prior: &Member, member: &Member) -> Option<LinkFault>
    ensures { result ≡ system_fault prior.now member.now }
{
    let have = system_of(member);
    let expected = system_of(prior);
    if have == expected {
        return None;
    }
    Some(LinkFault::SystemDiffers(have, expected))
}

/// What a later member that names this start of its prior is refused for where its predecessor
/// starts elsewhere.
fn prior_fault(prior: &Member, named: Lsn) -> Option<LinkFault>
    ensures { result ≡ prior_fault prior.now named }
{
    let expected = prior.label.start;
    if named == expected {
        return None;
    }
    Some(LinkFault::WrongPrior(named, expected))
}

/// What a later member is refused for that starts before its predecessor's end.
fn overlap_fault(prior: &Member, member: &Member) -> Option<LinkFault>
    ensures { result ≡ overlap_fault prior.now member.now }
{
    let start = member.label.start;
    let end = prior.manifest.end;
    if end <= start {
        return None;
    }
    Some(LinkFault::Overlap(start, end))
}

/// What a later member of a chain is refused for by its version, by what its label and its
/// predecessor's tell, and by their system identifiers, if anything.
pub(crate) fn label_fault(prior: &Member, member: &Member) -> Option<LinkFault>
    ensures { result ≡ label_fault prior.now member.now }
{
    if let Some(why) = version_fault(member) {
        return Some(why);
    }
    if let Some(timeline) = other_timeline(&member.label) {
        return Some(LinkFault::TimelineDiffers(timeline));
    }
    let Some((named, _)) = member.label.prior else {
        return Some(LinkFault::LaterFull);
    };
    system_fault(prior, member)
        .or(prior_fault(prior, named))
        .or(overlap_fault(prior, member))
}

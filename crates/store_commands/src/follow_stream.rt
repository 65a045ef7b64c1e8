//! `follow`: the WAL whose stream the input is, replayed into an area.

ghost use Rattle.std.specs.Prelude.{◌≡◌, ◌≤◌, [], ◌∷◌, IfOk};
ghost use Rattle.lsn_core.specs.Segment.{IsRelseg};
ghost use Rattle.lsn_core.specs.declared.fault.AreaFault.TheVariants as area;
ghost use Rattle.vault.specs.Site.{AllHome};
ghost use Rattle.command_base.specs.Outside.{of_site_input, Works};
ghost use Rattle.store_commands.specs.declared.follow_stream.FollowFault.TheVariants as follow;
ghost use Rattle.store_commands.specs.Follow.{FollowRan, FollowDoes, unfollowed, report_of};
ghost use Rattle.store_commands.specs.Follow.{long_text, follow_fault_text, follow_text, follow_status};
ghost use Rattle.store_commands.specs.Following.{AnswersFollow, AnswersStream, FollowsAsReplay};

use crate::replaying::{ReplayReport, made_line};
use command_base::{
    Status, area_status, area_text, full_text, is_clear, joined, output_name, refused_line,
    take_text, wal_status, wal_text,
};
use command_line::FollowSizes;
use follow_command::{InputFault, Written, follow_stream, write_pages};
use lsn_core::{AreaFault, Lsn, NoMemory, SegSize, Text};
use recovery::RecoveryFault;
use std::alloc::Global;
use vault::{Held, Site, Source, TakeFault, Vault, give_one, take_one};
use wal_follow::{FollowFault as Unfollowed, Follower};

/// Why a stream wasn't followed.
#[derive(Debug, Drop)]
pub enum FollowFault {
    /// The site didn't hand out the area.
    Site(TakeFault),
    /// The output's area holds a file.
    NotEmpty,
    /// The input failed, or memory ran out.
    Input(AreaFault),
    /// The input has more bytes than so many.
    Long(u64),
    /// The stream's WAL can't be replayed.
    Wal(RecoveryFault),
    /// The output's area failed, or memory ran out.
    Out(AreaFault),
}

impl From<TakeFault> for FollowFault {
    ghost from_gives = { λ fault e. e ≡ follow.Site fault };

    fn from(fault: TakeFault) -> Self {
        FollowFault::Site(fault)
    }
}

impl From<NoMemory> for FollowFault {
    ghost from_gives = { λ _ e. e ≡ follow.Out area.NoMemory };

    fn from(_: NoMemory) -> Self {
        FollowFault::Out(AreaFault::NoMemory)
    }
}

/// Why the stream of a WAL with segments of this size wasn't followed.
fn unfollowed(segment: SegSize, why: InputFault) -> FollowFault
    ensures { result ≡ unfollowed segment why }
{
    match why {
        InputFault::Input(why) => FollowFault::Input(why),
        InputFault::Long(most) => FollowFault::Long(most),
        InputFault::Wal(Unfollowed::Damaged(damage)) => {
            FollowFault::Wal(RecoveryFault::Damaged(segment, damage))
        }
        InputFault::Wal(Unfollowed::BadDelta(place)) => {
            FollowFault::Wal(RecoveryFault::BadDelta(place))
        }
        InputFault::Wal(Unfollowed::NoMemory) => FollowFault::Wal(RecoveryFault::NoMemory),
    }
}

/// What was followed up to an end, and written so.
fn report_of(end: Lsn, came: Result<Written, AreaFault>) -> Result<ReplayReport, FollowFault>
    ensures { result ≡ report_of end came }
{
    match came {
        Ok(written) => Ok(ReplayReport {
            end,
            forks: written.forks,
            pages: written.pages,
        }),
        Err(why) => Err(FollowFault::Out(why)),
    }
}

/// Follows the input where the output's area is empty, and writes nothing.
fn follow_onto<V: Vault, I: Source>(
    alloc: Global,
    segment: SegSize,
    relseg: u32,
    out: &mut V,
    input: &mut I,
) -> Result<(Follower, Lsn), FollowFault>
    requires { IsRelseg relseg }
    ensures answer { AnswersStream V.Vault I.Source segment relseg
        out.old input.old out.new input.new result }
    ensures out_later { V.faults out.old ≤ V.faults out.new }
    ensures later { I.faults input.old ≤ I.faults input.new }
{
    match is_clear(alloc, out) {
        Ok(true) => {}
        Ok(false) => return Err(FollowFault::NotEmpty),
        Err(why) => return Err(FollowFault::Out(why)),
    }
    match follow_stream(alloc, segment, relseg, input) {
        Ok(came) => Ok(came),
        Err(why) => Err(unfollowed(segment, why)),
    }
}

/// Follows the input to its end, and then writes the pages into the output's area, which has to be
/// empty. Gives that area back.
fn follow_area<V: Vault, I: Source>(
    alloc: Global,
    segment: SegSize,
    relseg: u32,
    out: V,
    input: &mut I,
) -> (V, Result<ReplayReport, FollowFault>)
    requires { IsRelseg relseg }
    ensures answer { AnswersFollow V.Vault I.Source segment relseg
        out input.old result.0 input.new result.1 }
    ensures out_later { V.faults out ≤ V.faults result.0 }
    ensures later { I.faults input.old ≤ I.faults input.new }
{
    let mut out = out;
    let (follower, end) = match follow_onto(alloc, segment, relseg, &mut out, input) {
        Ok(came) => came,
        Err(fault) => return (out, Err(fault)),
    };
    let (out, came) = write_pages(alloc, &follower, relseg, out);
    (out, report_of(end, came))
}

/// Follows the input into the area of this name.
fn follow_in<S: Site, I: Source>(
    alloc: Global,
    segment: SegSize,
    relseg: u32,
    out: Text,
    site: &mut S,
    input: &mut I,
) -> Result<ReplayReport, FollowFault>
    requires range { IsRelseg relseg }
    requires home { AllHome (S.areas site.old) }
    ensures site { Works (out ∷ []) (of_site_input S.Site I.Source site.old input.old)
        (of_site_input S.Site I.Source site.new input.new) }
    ensures answer { FollowRan segment relseg out
        (of_site_input S.Site I.Source site.old input.old)
        (of_site_input S.Site I.Source site.new input.new) result }
    ensures later { I.faults input.old ≤ I.faults input.new }
{
    let held = take_one(site, out)?;
    let Held { name, area } = held;
    let (area, answer) = follow_area(alloc, segment, relseg, area, input);
    give_one(site, Held { name, area });
    answer
}

/// `follow`: follows the input to its end as the stream of a WAL by these sizes, and writes the
/// pages that it makes to an output of this name.
pub fn follow<S: Site, I: Source>(
    alloc: Global,
    sizes: FollowSizes,
    name: &[u8],
    site: &mut S,
    input: &mut I,
) -> Result<ReplayReport, FollowFault>
    requires range { IsRelseg sizes.relseg }
    requires home { AllHome (S.areas site.old) }
    ensures does { FollowDoes sizes.segment sizes.relseg name.now
        (of_site_input S.Site I.Source site.old input.old)
        (of_site_input S.Site I.Source site.new input.new) result }
    ensures home { AllHome (S.areas site.new) }
{
    let out = output_name(alloc, name)?;
    follow_in(alloc, sizes.segment, sizes.relseg, out, site, input)
}

/// The input has more bytes than so many.
fn long_text(alloc: Global, most: u64) -> Result<Text, NoMemory>
    ensures { IfOk result (λ text. text ≡ long_text most) }
{
    let most = format!(in alloc; "{most}")?;
    joined(alloc, &[b"18 InputLong ", most.as_bytes()])
}

fn follow_fault_text(alloc: Global, out: &[u8], fault: &FollowFault) -> Result<Text, NoMemory>
    ensures { IfOk result (λ text. text ≡ follow_fault_text out.now fault.now) }
{
    match fault {
        FollowFault::Site(fault) => take_text(alloc, fault),
        FollowFault::NotEmpty => full_text(alloc, out),
        FollowFault::Input(why) => area_text(alloc, b"input", *why),
        FollowFault::Long(most) => long_text(alloc, *most),
        FollowFault::Wal(why) => wal_text(alloc, *why),
        FollowFault::Out(why) => area_text(alloc, out, *why),
    }
}

/// The line that `follow` prints, where this is the output's area.
pub fn follow_text(
    alloc: Global,
    out: &[u8],
    came: &Result<ReplayReport, FollowFault>,
) -> Result<Text, NoMemory>
    ensures { IfOk result (λ text. text ≡ follow_text out.now came.now) }
{
    match came {
        Ok(report) => made_line(alloc, b"followed ", report),
        Err(fault) => refused_line(alloc, follow_fault_text(alloc, out, fault)?.as_bytes()),
    }
}

/// The status that `follow` ends with.
pub fn follow_status(came: &Result<ReplayReport, FollowFault>) -> Status
    ensures { result ≡ follow_status came.now }
{
    match came {
        Ok(_) => Status::Done,
        Err(FollowFault::Site(fault)) => area_status(fault.why),
        Err(FollowFault::NotEmpty | FollowFault::Long(_)) => Status::Refused,
        Err(FollowFault::Wal(why)) => wal_status(*why),
        Err(FollowFault::Input(why) | FollowFault::Out(why)) => area_status(*why),
    }
}

/// Where an area of a WAL has the archive of a stream, and its settings are those that the stream
/// is followed with, what `follow` did is what `replay` of that WAL to its end does.
pub fn follow_does_as_replay()
    ensures { FollowsAsReplay }
{}

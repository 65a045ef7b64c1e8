//! `replay`: the WAL from its beginning, from one area into another.

ghost use Rattle.std.specs.Prelude.{◌≡◌, ◌≢◌, ◌≤◌, [], ◌∷◌, IfOk};
ghost use Rattle.lsn_core.specs.declared.fault.AreaFault.TheVariants as area;
ghost use Rattle.vault.specs.Frame.{OnlyReads};
ghost use Rattle.vault.specs.Site.{AllHome};
ghost use Rattle.store_commands.specs.declared.replaying.ReplayFault.TheVariants as replay;
ghost use Rattle.command_base.specs.Areas.{wal_name};
ghost use Rattle.command_base.specs.Outside.{of_site, Works};
ghost use Rattle.store_commands.specs.Replay.{ReplayRan, ReplayDoes, replay_fault_text, made_line, replay_text, replay_status};
ghost use Rattle.store_commands.specs.Inner.{AnswersPrepared, AnswersReplay, FinishAnswer};

use command_base::{
    Status, area_status, area_text, empty_area, full_text, is_clear, joined, names_of, output_name,
    refused_line, take_text, wal_status, wal_text,
};
use lsn_core::{AreaFault, Lsn, NoMemory, Settings, Text, lsn_text};
use recovery::{
    RecoveryFault, ReplayFault as Unreplayed, Replayed, read_through, replay as replay_into,
    settings_of,
};
use rel_files::Forks;
use std::alloc::Global;
use vault::{Held, Site, TakeFault, Vault, give_two, take_all, two_of};

/// What a replay or a restore came to: where the last entry ends that ends at the target or before
/// it (where there is none, where its reading began), and how many forks and pages there are.
#[derive(Clone, Copy, Debug, PartialEq, Eq)]
pub struct ReplayReport {
    pub end: Lsn,
    pub forks: u64,
    pub pages: u64,
}

/// Why a replay was refused.
#[derive(Debug, Drop)]
pub enum ReplayFault {
    /// The site didn't hand out an area.
    Site(TakeFault),
    /// The output's area holds a file.
    NotEmpty,
    /// The WAL can't be replayed.
    Wal(RecoveryFault),
    /// The output's area failed, or memory ran out.
    Out(AreaFault),
}

impl From<TakeFault> for ReplayFault {
    ghost from_gives = { λ fault e. e ≡ replay.Site fault };

    fn from(fault: TakeFault) -> Self {
        ReplayFault::Site(fault)
    }
}

impl From<RecoveryFault> for ReplayFault {
    ghost from_gives = { λ fault e. e ≡ replay.Wal fault };

    fn from(fault: RecoveryFault) -> Self {
        ReplayFault::Wal(fault)
    }
}

impl From<AreaFault> for ReplayFault {
    ghost from_gives = { λ fault e. e ≡ replay.Out fault };

    fn from(fault: AreaFault) -> Self {
        ReplayFault::Out(fault)
    }
}

impl From<NoMemory> for ReplayFault {
    ghost from_gives = { λ _ e. e ≡ replay.Out area.NoMemory };

    fn from(_: NoMemory) -> Self {
        ReplayFault::Out(AreaFault::NoMemory)
    }
}

/// What a replay needs before anything is written: that the output's area is empty, the settings of
/// the WAL, and a first reading of it up to the target, which finds all damage.
fn prepare<V: Vault>(
    alloc: Global,
    wal: &mut V,
    out: &mut V,
    upto: Option<Lsn>,
) -> Result<Settings, ReplayFault>
    ensures answer { AnswersPrepared V.Vault upto wal.old out.old wal.new out.new result }
    ensures wal { OnlyReads V.Vault wal.old wal.new }
    ensures out { V.files out.new ≡ V.files out.old }
    ensures out_later { V.faults out.old ≤ V.faults out.new }
{
    if !is_clear(alloc, out)? {
        return Err(ReplayFault::NotEmpty);
    }
    let settings = settings_of(alloc, wal)?;
    read_through(alloc, wal, &settings, upto)?;
    Ok(settings)
}

/// Ends a replay into an area that was empty: makes durable what was written, or takes it away
/// again where the WAL couldn't be replayed.
fn finish<V: Vault>(
    alloc: Global,
    out: &mut V,
    came: Result<Replayed, Unreplayed>,
) -> Result<ReplayReport, ReplayFault>
    ensures answer { FinishAnswer V.Vault came out.old out.new result }
    ensures later { V.faults out.old ≤ V.faults out.new }
{
    match came {
        Ok(replayed) => {
            out.sync()?;
            Ok(ReplayReport {
                end: replayed.end,
                forks: replayed.forks,
                pages: replayed.pages,
            })
        }
        Err(Unreplayed::Out(why)) => Err(ReplayFault::Out(why)),
        Err(Unreplayed::Wal(why)) => {
            empty_area(alloc, out)?;
            Err(ReplayFault::Wal(why))
        }
    }
}

/// Reads the WAL up to the target, and then replays it into the output's area, which has to be
/// empty, entry by entry. Gives that area back.
fn replay_areas<V: Vault>(
    alloc: Global,
    wal: &mut V,
    out: V,
    upto: Option<Lsn>,
) -> (V, Result<ReplayReport, ReplayFault>)
    ensures answer { AnswersReplay V.Vault upto wal.old out wal.new result.0 result.1 }
    ensures wal { OnlyReads V.Vault wal.old wal.new }
    ensures out_later { V.faults out ≤ V.faults result.0 }
{
    let mut out = out;
    let settings = match prepare(alloc, wal, &mut out, upto) {
        Ok(settings) => settings,
        Err(fault) => return (out, Err(fault)),
    };
    let mut forks = Forks::new(alloc, out, settings.relseg());
    let came = replay_into(alloc, wal, &settings, upto, &mut forks);
    let mut out = forks.area();
    let answer = finish(alloc, &mut out, came);
    (out, answer)
}

/// Replays the WAL of a site into the area of this name, which isn't that of the WAL.
fn replay_in<S: Site>(
    alloc: Global,
    upto: Option<Lsn>,
    out: &[u8],
    site: &mut S,
) -> Result<ReplayReport, ReplayFault>
    requires other { out.now ≢ wal_name }
    requires home { AllHome (S.areas site.old) }
    ensures site { Works (out.now ∷ []) (of_site S.Site site.old) (of_site S.Site site.new) }
    ensures answer { ReplayRan upto out.now
        (of_site S.Site site.old) (of_site S.Site site.new) result }
{
    let names = names_of(alloc, &[b"wal", out])?;
    let (mut wal, out) = two_of(take_all(alloc, site, names)?);
    let Held { name, area } = out;
    let (area, answer) = replay_areas(alloc, &mut wal.area, area, upto);
    give_two(site, wal, Held { name, area });
    answer
}

/// `replay`: replays the WAL of a site up to the target, or to its end where none is given, to an
/// output of this name.
pub fn replay<S: Site>(
    alloc: Global,
    upto: Option<Lsn>,
    name: &[u8],
    site: &mut S,
) -> Result<ReplayReport, ReplayFault>
    requires { AllHome (S.areas site.old) }
    ensures does { ReplayDoes upto name.now
        (of_site S.Site site.old) (of_site S.Site site.new) result }
    ensures home { AllHome (S.areas site.new) }
{
    let out = output_name(alloc, name)?;
    replay_in(alloc, upto, out.as_bytes(), site)
}

fn replay_fault_text(alloc: Global, out: &[u8], fault: &ReplayFault) -> Result<Text, NoMemory>
    ensures { IfOk result (λ text. text ≡ replay_fault_text out.now fault.now) }
{
    match fault {
        ReplayFault::Site(fault) => take_text(alloc, fault),
        ReplayFault::NotEmpty => full_text(alloc, out),
        ReplayFault::Wal(why) => wal_text(alloc, *why),
        ReplayFault::Out(why) => area_text(alloc, out, *why),
    }
}

/// The line of a report, behind what was done.
pub fn made_line(alloc: Global, done: &[u8], report: &ReplayReport) -> Result<Text, NoMemory>
    ensures { IfOk result (λ text. text ≡ made_line done.now report.now) }
{
    let end = lsn_text(alloc, report.end)?;
    let (forks, pages) = (report.forks, report.pages);
    let counts = format!(in alloc; "{forks} {pages}")?;
    joined(
        alloc,
        &[done, end.as_bytes(), b" ", counts.as_bytes(), b"\n"],
    )
}

/// The line that `replay` prints, where this is the output's area.
pub fn replay_text(
    alloc: Global,
    out: &[u8],
    came: &Result<ReplayReport, ReplayFault>,
) -> Result<Text, NoMemory>
    ensures { IfOk result (λ text. text ≡ replay_text out.now came.now) }
{
    match came {
        Ok(report) => made_line(alloc, b"replayed ", report),
        Err(fault) => refused_line(alloc, replay_fault_text(alloc, out, fault)?.as_bytes()),
    }
}

/// The status that `replay` ends with.
pub fn replay_status(came: &Result<ReplayReport, ReplayFault>) -> Status
    ensures { result ≡ replay_status came.now }
{
    match came {
        Ok(_) => Status::Done,
        Err(ReplayFault::Site(fault)) => area_status(fault.why),
        Err(ReplayFault::NotEmpty) => Status::Refused,
        Err(ReplayFault::Wal(why)) => wal_status(*why),
        Err(ReplayFault::Out(why)) => area_status(*why),
    }
}

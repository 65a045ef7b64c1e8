//! `init`: a new store, of its settings and a WAL of one entry.

ghost use Rattle.std.specs.Prelude.{◌≡◌, ◌≤◌, ◌⊎◌, None, IfOk, IfSome, IfErr, OnOk};
ghost use Rattle.lsn_core.specs.declared.fault.AreaFault.TheVariants as area;
ghost use Rattle.vault.specs.Frame.{OnlyReads};
ghost use Rattle.vault.specs.Site.{AllHome, state_in};
ghost use Rattle.store_commands.specs.declared.new_store.InitFault.TheVariants as init;
ghost use Rattle.command_base.specs.Areas.{IsClear};
ghost use Rattle.command_line.specs.Options.{IsInRange};
ghost use Rattle.command_base.specs.Outside.{of_site, Works};
ghost use Rattle.store_commands.specs.Init.{new_settings, init_writes, InitRan, InitDoes, init_fault_text, init_text, init_status};
ghost use Rattle.store_commands.specs.Inner.{AnswersInit, RefusesInit};
ghost use Rattle.command_base.specs.Outside.{of_site_clock};

use crate::new_wal::write_wal;
use command_base::{
    Status, area_status, area_text, full_text, is_clear, joined, names_of, refused_line, take_text,
};
use command_line::InitOptions;
use lsn_core::{AreaFault, Lsn, MOST_RELSEG, NoMemory, SegSize, Settings, Text, lsn_text};
use std::alloc::Global;
use vault::{Clock, Held, Site, TakeFault, Vault, give_two, take_all, two_of};

/// Why a new store was not made.
#[derive(Debug, Drop)]
pub enum InitFault {
    /// The site didn't hand out an area.
    Site(TakeFault),
    /// The area of the WAL holds a file.
    AlreadyInit,
    /// The area of the summaries holds a file.
    SumsNotEmpty,
    /// The area of the WAL failed, or memory ran out.
    Wal(AreaFault),
    /// The area of the summaries failed, or memory ran out.
    Sums(AreaFault),
}

impl From<TakeFault> for InitFault {
    ghost from_gives = { λ fault e. e ≡ init.Site fault };

    fn from(fault: TakeFault) -> Self {
        InitFault::Site(fault)
    }
}

impl From<NoMemory> for InitFault {
    ghost from_gives = { λ _ e. e ≡ init.Wal area.NoMemory };

    fn from(_: NoMemory) -> Self {
        InitFault::Wal(AreaFault::NoMemory)
    }
}

/// The settings of a new store at a moment.
fn settings_of(options: &InitOptions, moment: u64) -> Settings
    requires { IsInRange options.now }
    ensures { result ≡ new_settings options.now moment }
{
    let segment = options.segment.unwrap_or(SegSize::standard());
    let relseg = options.relseg.unwrap_or(MOST_RELSEG);
    let system = options.system.unwrap_or((moment & 0xffff_ffff) << 32);
    let Some(settings) = Settings::new(segment, relseg, system) else {
        unreachable!()
    };
    settings
}

/// The moment that the system identifier is made of. A clock is asked only where none is given.
fn moment_of<C: Clock>(options: &InitOptions, clock: &mut C) -> u64
    ensures told { IfSome (C.moment clock.old) (λ told. options.now.system ≡ None → result ≡ told) }
    ensures clock { (options.now.system ≡ None) ⊎ (clock.new ≡ clock.old) }
{
    match options.system {
        Some(_) => 0,
        None => clock.now(),
    }
}

/// Whether both areas hold no file. The refusals are those of a store with whatever settings.
fn check_clear<V: Vault>(alloc: Global, wal: &mut V, sums: &mut V) -> Result<(), InitFault>
    ensures wal_clear { OnOk result (IsClear (state_in V.Vault wal.old)) }
    ensures sums_clear { OnOk result (IsClear (state_in V.Vault sums.old)) }
    ensures refused { IfErr result (RefusesInit V.Vault wal.old sums.old wal.new sums.new) }
    ensures wal { OnlyReads V.Vault wal.old wal.new }
    ensures sums { OnlyReads V.Vault sums.old sums.new }
{
    match is_clear(alloc, wal) {
        Ok(true) => {}
        Ok(false) => return Err(InitFault::AlreadyInit),
        Err(fault) => return Err(InitFault::Wal(fault)),
    }
    match is_clear(alloc, sums) {
        Ok(true) => Ok(()),
        Ok(false) => Err(InitFault::SumsNotEmpty),
        Err(fault) => Err(InitFault::Sums(fault)),
    }
}

/// Makes a new store where neither area holds a file: it syncs the area of the WAL, writes the
/// settings and the first entry, and syncs again. The answer is where that entry ends.
fn init_areas<V: Vault>(
    alloc: Global,
    wal: V,
    sums: &mut V,
    settings: Settings,
) -> (V, Result<Lsn, InitFault>)
    ensures answer { AnswersInit V.Vault settings wal sums.old result.0 sums.new result.1 }
    ensures sums { OnlyReads V.Vault sums.old sums.new }
    ensures wal_later { V.faults wal ≤ V.faults result.0 }
{
    let mut wal = wal;
    if let Err(fault) = check_clear(alloc, &mut wal, sums) {
        return (wal, Err(fault));
    }
    let (wal, answer) = write_wal(alloc, wal, settings);
    match answer {
        Ok(end) => (wal, Ok(end)),
        Err(fault) => (wal, Err(InitFault::Wal(fault))),
    }
}

/// Makes a new store with these settings in the areas of a site.
fn init_in<S: Site>(alloc: Global, site: &mut S, settings: Settings) -> Result<Lsn, InitFault>
    requires home { AllHome (S.areas site.old) }
    ensures site { Works init_writes (of_site S.Site site.old) (of_site S.Site site.new) }
    ensures answer { InitRan settings (of_site S.Site site.old) (of_site S.Site site.new) result }
{
    let names = names_of(alloc, &[b"wal", b"sums"])?;
    let (wal, mut sums) = two_of(take_all(alloc, site, names)?);
    let (area, answer) = init_areas(alloc, wal.area, &mut sums.area, settings);
    let name = wal.name;
    give_two(site, Held { name, area }, sums);
    answer
}

/// `init` with these options: makes a new store in the areas of a site.
pub fn init<S: Site, C: Clock>(
    alloc: Global,
    options: InitOptions,
    site: &mut S,
    clock: &mut C,
) -> Result<Lsn, InitFault>
    requires range { IsInRange options }
    requires home { AllHome (S.areas site.old) }
    ensures does { InitDoes options (of_site_clock S.Site C.Clock site.old clock.old)
        (of_site_clock S.Site C.Clock site.new clock.new) result }
    ensures home { AllHome (S.areas site.new) }
    ensures clock { (options.system ≡ None) ⊎ (clock.new ≡ clock.old) }
{
    let moment = moment_of(&options, clock);
    init_in(alloc, site, settings_of(&options, moment))
}

fn init_fault_text(alloc: Global, fault: &InitFault) -> Result<Text, NoMemory>
    ensures { IfOk result (λ text. text ≡ init_fault_text fault.now) }
{
    match fault {
        InitFault::Site(fault) => take_text(alloc, fault),
        InitFault::AlreadyInit => joined(alloc, &[b"42 AlreadyInit"]),
        InitFault::SumsNotEmpty => full_text(alloc, b"sums"),
        InitFault::Wal(why) => area_text(alloc, b"wal", *why),
        InitFault::Sums(why) => area_text(alloc, b"sums", *why),
    }
}

/// The line that `init` prints.
pub fn init_text(alloc: Global, came: &Result<Lsn, InitFault>) -> Result<Text, NoMemory>
    ensures { IfOk result (λ text. text ≡ init_text came.now) }
{
    match came {
        Ok(end) => {
            let end = lsn_text(alloc, *end)?;
            joined(alloc, &[b"initialised ", end.as_bytes(), b"\n"])
        }
        Err(fault) => refused_line(alloc, init_fault_text(alloc, fault)?.as_bytes()),
    }
}

/// The status that `init` ends with.
pub fn init_status(came: &Result<Lsn, InitFault>) -> Status
    ensures { result ≡ init_status came.now }
{
    match came {
        Ok(_) => Status::Done,
        Err(InitFault::Site(fault)) => area_status(fault.why),
        Err(InitFault::AlreadyInit | InitFault::SumsNotEmpty) => Status::Refused,
        Err(InitFault::Wal(why) | InitFault::Sums(why)) => area_status(*why),
    }
}

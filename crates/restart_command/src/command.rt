//! `restart`: a store, brought back after a stop.

ghost use Rattle.std.specs.Prelude.{◌≡◌, IfOk, IfErr};
ghost use Rattle.vault.specs.Site.{AllHome};
ghost use Rattle.command_base.specs.Outside.{of_site};
ghost use Rattle.recovery.specs.declared.fault.RecoveryFault.TheVariants as wal;
ghost use Rattle.restart_command.specs.declared.command.RestartFault.TheVariants as restart;
ghost use Rattle.restart_command.specs.Restart.{RestartDoes};
ghost use Rattle.restart_command.specs.Inner.{AnswersRestart, IsLater};

use crate::lending::{give_store, store_of};
use command_base::names_of;
use lsn_core::{NoMemory, SegSize};
use recovery::{RecoveryFault, settings_of};
use std::alloc::Global;
use store_areas::StoreAreas;
use store_commands::ReplayReport;
use store_restart::{RestartFault as Unrestarted, RestartWhy, Restarted, restart as bring_back};
use vault::{Site, TakeFault, Vault, take_all};

/// Why a store is not brought back.
#[derive(Debug, Drop)]
pub enum RestartFault {
    /// The site didn't hand out an area.
    Site(TakeFault),
    /// The settings of the WAL can't be read.
    Settings(RecoveryFault),
    /// The store, whose WAL has segments of that size, isn't brought back by its settings.
    Store(SegSize, RestartWhy),
}

impl From<TakeFault> for RestartFault {
    ghost from_gives = { λ fault e. e ≡ restart.Site fault };

    fn from(fault: TakeFault) -> Self {
        RestartFault::Site(fault)
    }
}

impl From<NoMemory> for RestartFault {
    ghost from_gives = { λ _ e. e ≡ restart.Settings wal.NoMemory };

    fn from(_: NoMemory) -> Self {
        RestartFault::Settings(RecoveryFault::NoMemory)
    }
}

/// Reads the settings of the WAL, and brings the store back by these. Gives its areas back.
fn restart_areas<V: Vault>(
    alloc: Global,
    areas: StoreAreas<V>,
) -> (StoreAreas<V>, Result<ReplayReport, RestartFault>)
    ensures answer { AnswersRestart V.Vault areas result.0 result.1 }
    ensures later { IsLater V.Vault areas result.0 }
{
    let mut areas = areas;
    let settings = match settings_of(alloc, &mut areas.wal) {
        Ok(settings) => settings,
        Err(why) => return (areas, Err(RestartFault::Settings(why))),
    };
    match bring_back(alloc, areas, &settings) {
        Ok(
            Restarted {
                areas,
                tip,
                forks,
                pages,
            },
        ) => {
            let end = tip.end;
            (areas, Ok(ReplayReport { end, forks, pages }))
        }
        Err(Unrestarted { areas, why }) => {
            (areas, Err(RestartFault::Store(settings.segment(), why)))
        }
    }
}

/// `restart`: brings the WAL and the data areas of a site's store back after a stop.
pub fn restart<S: Site>(alloc: Global, site: &mut S) -> Result<ReplayReport, RestartFault>
    requires { AllHome (S.areas site.old) }
    ensures does { RestartDoes (of_site S.Site site.old) (of_site S.Site site.new) result }
    ensures home { AllHome (S.areas site.new) }
{
    let names = names_of(alloc, &[b"wal", b"data0", b"data1", b"data2", b"data3"])?;
    let areas = store_of(take_all(alloc, site, names)?);
    let (areas, answer) = restart_areas(alloc, areas);
    give_store(site, areas);
    answer
}

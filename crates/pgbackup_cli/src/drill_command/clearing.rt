//! Areas that have to be empty, looked at in order.

ghost use Rattle.std.specs.Prelude.{◌≡◌, map, IfOk, IfErr, OnOk, []};
ghost use Rattle.vault.specs.Site.{AllHome};
ghost use Rattle.command_base.specs.Areas.{TellsClear};
ghost use Rattle.command_base.specs.Outside.{of_site, Works};
ghost use Rattle.pgbackup_cli.specs.declared.drill_command.clearing.Unclear.TheVariants as unclear;
ghost use Rattle.pgbackup_cli.specs.drill_command.Clearing.{AreClear, AreUnclear, IsUnread};

use command_base::{is_clear, joined};
use lsn_core::{AreaFault, NoMemory, Text};
use std::alloc::Global;
use vault::{Held, Site, give_one, take_one};

/// Why areas can't be told to be empty.
#[derive(Debug, Drop)]
pub enum Unclear {
    /// Memory ran out.
    NoMemory,
    /// This area couldn't be looked at; those before it hold no file.
    Unread(Text, AreaFault),
    /// This area is the first that holds a file.
    Full(Text),
}

impl From<NoMemory> for Unclear {
    ghost from_gives = { λ _ e. e ≡ unclear.NoMemory };

    fn from(_: NoMemory) -> Self {
        Unclear::NoMemory
    }
}

/// Whether an area holds no file.
fn look<S: Site>(alloc: Global, site: &mut S, name: &[u8]) -> Result<bool, AreaFault>
    requires home { AllHome (S.areas site.old) }
    ensures clear { IfOk result (TellsClear (S.areas site.old name.now).files) }
    ensures unread { IfErr result
        (IsUnread name.now (of_site S.Site site.old) (of_site S.Site site.new)) }
    ensures reads { Works [] (of_site S.Site site.old) (of_site S.Site site.new) }
{
    let held = match take_one(site, joined(alloc, &[name])?) {
        Ok(held) => held,
        Err(fault) => return Err(fault.why),
    };
    let Held { name, area } = held;
    let mut area = area;
    let clear = is_clear(alloc, &mut area);
    give_one(site, Held { name, area });
    clear
}

/// Whether areas hold no file, looked at in order.
pub fn check_clear<S: Site>(alloc: Global, site: &mut S, names: &[&[u8]]) -> Result<(), Unclear>
    requires home { AllHome (S.areas site.old) }
    ensures clear { OnOk result
        (AreClear (map (λ name. name.now) names.now) (S.areas site.old)) }
    ensures unclear { IfErr result (AreUnclear (map (λ name. name.now) names.now)
        (of_site S.Site site.old) (of_site S.Site site.new)) }
    ensures reads { Works [] (of_site S.Site site.old) (of_site S.Site site.new) }
{
    for name in names {
        let clear = look(alloc, site, name);
        let area = joined(alloc, &[name])?;
        match clear {
            Ok(true) => {}
            Ok(false) => return Err(Unclear::Full(area)),
            Err(why) => return Err(Unclear::Unread(area, why)),
        }
    }
    Ok(())
}

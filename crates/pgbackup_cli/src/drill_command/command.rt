//! `drill`: all of it in one call.

ghost use Rattle.std.specs.Prelude.{[], IfOk, IfErr, IfSome};
ghost use Rattle.vault.specs.Site.{AllHome};
ghost use Rattle.command_base.specs.Outside.{of_site, of_site_clock, Works};
ghost use Rattle.pgbackup_cli.specs.drill_command.Contents.{IsSumOf};
ghost use Rattle.pgbackup_cli.specs.drill_command.Clearing.{IsUnread};
ghost use Rattle.pgbackup_cli.specs.drill_command.Drill.{drill_out, drill_relseg, DrillDoes};

use crate::drill_command::contents::contents_sum;
use crate::drill_command::parts::{RELSEG, restore_drilled};
use crate::drill_command::report::{DrillFault, DrillReport};
use command_base::output_name;
use lsn_core::{AreaFault, Text};
use std::alloc::Global;
use std::sync::Wait;
use std::thread::Threads;
use vault::{Clock, Held, Site, give_one, take_one};

/// The sum of what was restored.
fn sum_restored<S: Site>(alloc: Global, site: &mut S) -> Result<Text, AreaFault>
    requires home { AllHome (S.areas site.old) }
    ensures sum { IfOk result (λ sum.
        IfSome (S.areas site.new drill_out).files (λ m. IsSumOf drill_relseg m sum)) }
    ensures unread { IfErr result
        (IsUnread drill_out (of_site S.Site site.old) (of_site S.Site site.new)) }
    ensures reads { Works [] (of_site S.Site site.old) (of_site S.Site site.new) }
{
    let held = match take_one(site, output_name(alloc, b"drill")?) {
        Ok(held) => held,
        Err(fault) => return Err(fault.why),
    };
    let Held { name, area } = held;
    let (area, sum) = contents_sum(alloc, area, RELSEG);
    give_one(site, Held { name, area });
    sum
}

/// `drill` of a number: makes a new store where the areas of a site that have to be empty are, runs
/// the script of the number on it, restores the chain of its three backups, and sums up what was
/// restored (profile). No input is read, and the clock is asked once.
pub fn drill<R: Threads + Wait + Sync, S: Site, C: Clock>(
    rt: &R,
    alloc: Global,
    n: u32,
    site: &mut S,
    clock: &mut C,
) -> Result<DrillReport, DrillFault>
    requires { AllHome (S.areas site.old) }
    ensures does { DrillDoes n (of_site_clock S.Site C.Clock site.old clock.old)
        (of_site_clock S.Site C.Clock site.new clock.new) result }
    ensures home { AllHome (S.areas site.new) }
{
    let when = clock.now();
    let restored = restore_drilled(rt, alloc, n, when, site, clock)?;
    match sum_restored(alloc, site) {
        Ok(sum) => Ok(DrillReport {
            forks: restored.forks,
            pages: restored.pages,
            sum,
        }),
        Err(why) => Err(DrillFault::Read(why)),
    }
}

//! How many forks and pages the data areas have.

ghost use Rattle.std.specs.Prelude.{IfOk, IfErr};
ghost use Rattle.lsn_core.specs.Causes.{HasCause};
ghost use Rattle.lsn_core.specs.Segment.{IsRelseg};
ghost use Rattle.vault.specs.Frame.{OnlyReads};
ghost use Rattle.data_areas.specs.Areas.{DataCause};
ghost use Rattle.restart_areas.specs.Counting.{IsCountOf, CountsPages, CountsAll, IsSum, EachReads};
ghost use Rattle.restart_areas.specs.Counting.{SumsUp, IsFaultOf};

use crate::calls::fault_of_data;
use data_areas::DataAreas;
use lsn_core::{AreaFault, ForkLen, NoMemory, StoreFault};
use recovery::Tally;
use rel_files::Forks;
use std::alloc::Global;
use vault::Vault;

/// How many forks a list has, and how many pages they have together. Errs where a number would be
/// 2^64 or more.
fn count_list(list: &[ForkLen]) -> Result<Tally, NoMemory>
    ensures { IfOk result (IsCountOf list.now) }
{
    let mut tally = Tally::none();
    for one in list {
        tally.recount(None, Some(one.blocks))?;
    }
    Ok(tally)
}

/// Counts the forks and pages that the segment files of an area hold.
fn count_area<V: Vault>(alloc: Global, area: V, relseg: u32) -> (V, Result<Tally, AreaFault>)
    requires relseg { IsRelseg relseg }
    ensures counts { IfOk result.1 (CountsPages relseg (V.files area)) }
    ensures reads { OnlyReads V.Vault area result.0 }
    ensures cause { HasCause (V.faults area) (V.faults result.0) result.1 }
{
    let mut forks = Forks::new(alloc, area, relseg);
    match forks.list() {
        Ok(list) => match count_list(&list) {
            Ok(tally) => (forks.area(), Ok(tally)),
            Err(_) => (forks.area(), Err(AreaFault::NoMemory)),
        },
        Err(why) => (forks.area(), Err(why)),
    }
}

/// Some counts together. Errs where a number would be 2^64 or more.
fn total(first: Tally, second: Tally, third: Tally, fourth: Tally) -> Result<Tally, NoMemory>
    ensures { IfOk result (IsSum first second third fourth) }
{
    let mut forks = first.forks.checked_add(second.forks).ok_or(NoMemory)?;
    forks = forks.checked_add(third.forks).ok_or(NoMemory)?;
    forks = forks.checked_add(fourth.forks).ok_or(NoMemory)?;
    let mut pages = first.pages.checked_add(second.pages).ok_or(NoMemory)?;
    pages = pages.checked_add(third.pages).ok_or(NoMemory)?;
    pages = pages.checked_add(fourth.pages).ok_or(NoMemory)?;
    Ok(Tally { forks, pages })
}

/// The counts of the four data areas together, or why they aren't told.
fn sum_of(
    first: Result<Tally, AreaFault>,
    second: Result<Tally, AreaFault>,
    third: Result<Tally, AreaFault>,
    fourth: Result<Tally, AreaFault>,
) -> Result<Tally, StoreFault>
    ensures sum { IfOk result (SumsUp first second third fourth) }
    ensures fault { IfErr result (IsFaultOf first second third fourth) }
{
    let (a, b, c, d) = match (first, second, third, fourth) {
        (Ok(a), Ok(b), Ok(c), Ok(d)) => (a, b, c, d),
        (Err(why), _, _, _) => return Err(fault_of_data(0, why)),
        (_, Err(why), _, _) => return Err(fault_of_data(1, why)),
        (_, _, Err(why), _) => return Err(fault_of_data(2, why)),
        (_, _, _, Err(why)) => return Err(fault_of_data(3, why)),
    };
    match total(a, b, c, d) {
        Ok(tally) => Ok(tally),
        Err(_) => Err(StoreFault::NoMemory),
    }
}

/// Counts the forks and pages that the four data areas hold.
pub fn count_all<V: Vault>(
    alloc: Global,
    areas: DataAreas<V>,
    relseg: u32,
) -> (DataAreas<V>, Result<Tally, StoreFault>)
    requires relseg { IsRelseg relseg }
    ensures counts { IfOk result.1 (CountsAll V.Vault relseg areas) }
    ensures reads { EachReads V.Vault areas result.0 }
    ensures cause { IfErr result.1 (DataCause V.Vault areas result.0) }
{
    let (data0, first) = count_area(alloc, areas.data0, relseg);
    let (data1, second) = count_area(alloc, areas.data1, relseg);
    let (data2, third) = count_area(alloc, areas.data2, relseg);
    let (data3, fourth) = count_area(alloc, areas.data3, relseg);
    let counted = sum_of(first, second, third, fourth);
    let areas = DataAreas {
        data0,
        data1,
        data2,
        data3,
    };
    (areas, counted)
}

//! Steps of tests over areas and sites, taken in turn.

ghost use Rattle.vault.specs.Site.{AllHome};

use crate::areas::{Change, begins_in, has_names, holds, holds_in, make, put_in, reads, size_of};
use lsn_core::{AreaFault, NoMemory};
use std::alloc::Global;
use vault::{Site, Vault};

/// A step over an area.
#[derive(Clone, Copy)]
pub enum Step<'a> {
    /// This change is made.
    Makes(Change<'a>),
    /// This change fails.
    Fails(Change<'a>),
    /// These are the names of the files, each with a space behind it.
    Names(&'a [u8]),
    /// A file has this size, or there is none.
    Size(&'a [u8], Option<u64>),
    /// A file has these bytes, or it is missing and there are none.
    Holds(&'a [u8], &'a [u8]),
    /// A read from a place on of so many bytes, eight at most, gives these.
    Reads(&'a [u8], u64, usize, &'a [u8]),
    /// A read fails.
    ReadFails(&'a [u8]),
}

/// A step over a site: the area and the file that it is about.
#[derive(Clone, Copy)]
pub enum SiteStep<'a> {
    /// These bytes are written at the begin of the file.
    Puts(&'a [u8], &'a [u8], &'a [u8]),
    /// That fails.
    PutFails(&'a [u8], &'a [u8], &'a [u8]),
    /// The file has these bytes, or it is missing and there are none.
    Holds(&'a [u8], &'a [u8], &'a [u8]),
    /// The file has so many bytes, and begins with these.
    Begins(&'a [u8], &'a [u8], &'a [u8], usize),
    /// Reading the file fails.
    ReadFails(&'a [u8], &'a [u8]),
}

/// Why steps aren't taken.
#[derive(Clone, Copy, Debug)]
pub enum Wrong {
    /// The step of this number, counted from 0, isn't so.
    Step(usize),
    /// A call failed in a step that has it succeed, or before the steps.
    Call(AreaFault),
}

impl From<AreaFault> for Wrong {
    fn from(fault: AreaFault) -> Self {
        Wrong::Call(fault)
    }
}

impl From<NoMemory> for Wrong {
    fn from(_: NoMemory) -> Self {
        Wrong::Call(AreaFault::NoMemory)
    }
}

/// Takes a step over an area, and says whether it is so.
fn takes(alloc: Global, area: &mut impl Vault, step: &Step) -> Result<bool, AreaFault> {
    match *step {
        Step::Makes(change) => {
            make(area, change)?;
            Ok(true)
        }
        Step::Fails(change) => Ok(make(area, change) == Err(AreaFault::Failed)),
        Step::Names(line) => has_names(alloc, area, line),
        Step::Size(name, size) => Ok(size_of(area, name)? == size),
        Step::Holds(name, bytes) => holds(alloc, area, name, bytes),
        Step::Reads(name, at, count, bytes) => reads(area, name, at, count, bytes),
        Step::ReadFails(name) => Ok(reads(area, name, 0, 8, b"") == Err(AreaFault::Failed)),
    }
}

/// Takes steps over an area in turn. The first one that isn't so is the error.
pub fn take_steps(alloc: Global, area: &mut impl Vault, steps: &[Step]) -> Result<(), Wrong> {
    for (number, step) in steps.iter().enumerate() {
        if !takes(alloc, area, step)? {
            return Err(Wrong::Step(number));
        }
    }
    Ok(())
}

/// Takes a step over a site, and says whether it is so.
fn takes_in<S: Site>(alloc: Global, site: &mut S, step: &SiteStep) -> Result<bool, AreaFault>
    requires { AllHome (S.areas site.old) }
    ensures { AllHome (S.areas site.new) }
{
    match *step {
        SiteStep::Puts(area, file, bytes) => {
            put_in(site, area, file, bytes)?;
            Ok(true)
        }
        SiteStep::PutFails(area, file, bytes) => {
            Ok(put_in(site, area, file, bytes) == Err(AreaFault::Failed))
        }
        SiteStep::Holds(area, file, bytes) => holds_in(alloc, site, area, file, bytes),
        SiteStep::Begins(area, file, bytes, size) => {
            begins_in(alloc, site, area, file, bytes, size)
        }
        SiteStep::ReadFails(area, file) => {
            Ok(holds_in(alloc, site, area, file, b"") == Err(AreaFault::Failed))
        }
    }
}

/// Takes steps over a site in turn. The first one that isn't so is the error.
pub fn take_site_steps<S: Site>(
    alloc: Global,
    site: &mut S,
    steps: &[SiteStep],
) -> Result<(), Wrong>
    requires { AllHome (S.areas site.old) }
    ensures { AllHome (S.areas site.new) }
{
    for (number, step) in steps.iter().enumerate() {
        if !takes_in(alloc, site, step)? {
            return Err(Wrong::Step(number));
        }
    }
    Ok(())
}

//! The command `drill`, from its words to the printed line, over a site in memory. What it prints
//! comes from an independent implementation: the order in which its workers run differs from run to
//! run, and the line doesn't.

use crate::calls::{Call, make_calls};
use memory_vault::MemSite;
use pgbackup_cli::Status;
use test_areas::{SiteStep, Wrong, take_site_steps};

/// A drill, and another one over what it left.
static DRILLS: [Call; 2] = [
    (
        "drill 1",
        "",
        Status::Done,
        "drill 1 writers 4 commands 2084 forks 4 pages 103 contents \
f7d92b6baa897ecf60de91802bc98a6bc8c35d6903747b303f1f97ef1ede1074\n",
    ),
    ("drill 2", "", Status::Refused, "refused 42 AlreadyInit\n"),
];

#[test]
fn a_drill_is_done(rt: HostRuntime) -> Result<(), Wrong> {
    let mut site = MemSite::new(rt.alloc(), &[])?;
    make_calls(&rt, rt.alloc(), &mut site, &DRILLS)
}

/// Files in two of its areas, and the area that is named.
static FULL: [SiteStep; 2] = [
    SiteStep::Puts(b"o/drill", b"x", b"x"),
    SiteStep::Puts(b"b/drill_1", b"x", b"x"),
];

static REFUSED: [Call; 1] = [(
    "drill 0",
    "",
    Status::Refused,
    "refused 41 AreaNotEmpty b/drill_1\n",
)];

#[test]
fn the_first_full_area_is_named(rt: HostRuntime) -> Result<(), Wrong> {
    let mut site = MemSite::new(rt.alloc(), &[])?;
    take_site_steps(rt.alloc(), &mut site, &FULL)?;
    make_calls(&rt, rt.alloc(), &mut site, &REFUSED)
}

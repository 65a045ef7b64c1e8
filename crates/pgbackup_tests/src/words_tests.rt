//! Words of `follow` and of `drill` that aren't taken.

use crate::calls::{Call, make_calls};
use memory_vault::MemSite;
use pgbackup_cli::Status;
use test_areas::Wrong;

const USAGE: &str = "refused 1 Usage\n";

static UNTAKEN: [Call; 15] = [
    ("follow", "", Status::Usage, USAGE),
    ("follow P", "", Status::Usage, USAGE),
    ("follow p q", "", Status::Usage, USAGE),
    ("follow --relseg 131073 p", "", Status::Usage, USAGE),
    ("follow --system-id 7 p", "", Status::Usage, USAGE),
    ("follow --relseg 1 --relseg 2 p", "", Status::Usage, USAGE),
    ("follow --relseg 1 p --relseg 2", "", Status::Usage, USAGE),
    ("follow p --segment-mib", "", Status::Usage, USAGE),
    ("drill", "", Status::Usage, USAGE),
    ("drill 01", "", Status::Usage, USAGE),
    ("drill -1", "", Status::Usage, USAGE),
    ("drill 4294967296", "", Status::Usage, USAGE),
    ("drill 1 2", "", Status::Usage, USAGE),
    ("drill --frames 4 1", "", Status::Usage, USAGE),
    ("drill x", "", Status::Usage, USAGE),
];

#[test]
fn words_are_not_taken(rt: HostRuntime) -> Result<(), Wrong> {
    let mut site = MemSite::new(rt.alloc(), &[])?;
    make_calls(&rt, rt.alloc(), &mut site, &UNTAKEN)
}

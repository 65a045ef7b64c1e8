//! The text of why a member of a chain of backups isn't taken.

ghost use Rattle.std.specs.Prelude.{◌≡◌, IfOk};
ghost use Rattle.chain_commands.specs.Link.{link_text, link_status};

use chain_check::LinkFault;
use command_base::{Status, joined, of_backup, overlap_text, systems_text, with_lsns, with_number};
use lsn_core::{NoMemory, Text};
use std::alloc::Global;

/// The member of this name isn't taken.
pub fn link_text(alloc: Global, name: &[u8], why: &LinkFault) -> Result<Text, NoMemory>
    ensures { IfOk result (λ text. text ≡ link_text name.now why.now) }
{
    match why {
        LinkFault::TooManyMembers => joined(alloc, &[b"37 TooManyMembers"]),
        LinkFault::ManifestVersion(v) => {
            with_number(alloc, b"22 ManifestVersion", name, u64::from(*v))
        }
        LinkFault::TimelineDiffers(v) => {
            with_number(alloc, b"34 TimelineDiffers", name, u64::from(*v))
        }
        LinkFault::FirstIncremental => joined(alloc, &[b"30 FirstIncremental ", name]),
        LinkFault::LaterFull => joined(alloc, &[b"31 LaterFull ", name]),
        LinkFault::SystemDiffers(have, expected) => systems_text(alloc, name, *have, *expected),
        LinkFault::WrongPrior(have, expected) => {
            with_lsns(alloc, b"32 WrongPrior", name, *have, *expected)
        }
        LinkFault::Overlap(start, end) => overlap_text(alloc, name, *start, *end),
        LinkFault::NoPriorFile(path) => of_backup(alloc, b"36 NoPriorFile", name, path.as_bytes()),
        LinkFault::NoMemory => joined(alloc, &[b"61 NoMemory"]),
    }
}

/// The status of a member that isn't taken.
pub fn link_status(why: &LinkFault) -> Status
    ensures { result ≡ link_status why.now }
{
    match why {
        LinkFault::TooManyMembers
        | LinkFault::ManifestVersion(_)
        | LinkFault::TimelineDiffers(_)
        | LinkFault::FirstIncremental
        | LinkFault::LaterFull
        | LinkFault::SystemDiffers(_, _)
        | LinkFault::WrongPrior(_, _)
        | LinkFault::Overlap(_, _)
        | LinkFault::NoPriorFile(_) => Status::Refused,
        LinkFault::NoMemory => Status::Memory,
    }
}

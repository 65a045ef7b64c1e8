//! Calls on the area of one member.

ghost use Rattle.std.specs.Prelude.{◌≡◌, ◌<◌, ◌≤◌, ◌^◌, length, IfOk, OnOk, IfErr, IfSome};
ghost use Rattle.std.specs.FinMap.{get};
ghost use Rattle.chain_files.specs.Told.{told_at, chain_told, ArePlaces, AllOnlyRead, FailsAt};
ghost use Rattle.chain_files.specs.Inside.{IsFormSeen, FitsForm, read_over};
ghost use Rattle.chain_files.specs.Sources.{member_bytes};
ghost use Rattle.vault.specs.Area.{bytes_of};

use crate::fault::MemberFault;
use crate::form::{FileForm, form_in};
use crate::paths::FilePaths;
use std::alloc::Global;
use vault::{Held, Vault};

/// The form in which the member whose area has this place has the file of these paths.
pub(crate) fn form_at<V: Vault>(
    alloc: Global,
    areas: &mut [Held<V>],
    place: u32,
    paths: &FilePaths,
) -> Result<FileForm, MemberFault>
    requires { place < length areas.old }
    ensures seen { IfOk result (λ form. IfSome (told_at V.Vault areas.old place) (λ m.
        IsFormSeen (get m paths.now.incr) (get m paths.now.plain) form)) }
    ensures fits { IfOk result FitsForm }
    ensures reads { AllOnlyRead V.Vault areas.old areas.new }
    ensures cause { IfErr result (FailsAt V.Vault areas.old areas.new) }
{
    match form_in(alloc, &mut areas[place as usize].area, paths) {
        Ok(form) => Ok(form),
        Err(why) => Err(MemberFault { area: place, why }),
    }
}

/// Reads a file of the area at this place over bytes, from a place on.
fn fill_at<V: Vault>(
    areas: &mut [Held<V>],
    place: u32,
    path: &[u8],
    at: u64,
    into: &mut [u8],
) -> Result<(), MemberFault>
    requires place { place < length areas.old }
    requires few { length into.old ≤ 2 ^ 20 }
    ensures filled { OnOk result (IfSome (told_at V.Vault areas.old place) (λ m.
        into.new ≡ read_over (bytes_of m path.now) at into.old)) }
    ensures reads { AllOnlyRead V.Vault areas.old areas.new }
    ensures cause { IfErr result (FailsAt V.Vault areas.old areas.new) }
{
    match areas[place as usize].area.read_at(path, at, into) {
        Ok(_) => Ok(()),
        Err(why) => Err(MemberFault { area: place, why }),
    }
}

/// Reads a member's file over bytes, from a place on. They stay where the file doesn't go on, and
/// where there is no such member.
pub(crate) fn fill_from<V: Vault>(
    areas: &mut [Held<V>],
    places: &[u32],
    member: usize,
    path: &[u8],
    at: u64,
    into: &mut [u8],
) -> Result<(), MemberFault>
    requires places { ArePlaces (length areas.old) places.now }
    requires few { length into.old ≤ 2 ^ 20 }
    ensures filled { OnOk result (IfSome (chain_told V.Vault areas.old places.now) (λ chain.
        into.new ≡ read_over (member_bytes chain member path.now) at into.old)) }
    ensures reads { AllOnlyRead V.Vault areas.old areas.new }
    ensures cause { IfErr result (FailsAt V.Vault areas.old areas.new) }
{
    match places.get(member) {
        Some(place) => fill_at(areas, *place, path, at, into),
        None => Ok(()),
    }
}

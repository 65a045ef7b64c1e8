//! Pages of a combined segment file, read from where they stand.

ghost use Rattle.std.specs.Prelude.{◌≡◌, ◌≤◌, ◌-◌, ◌*◌, map, take, drop, length, IfOk, OnOk, IfErr, IfSome};
ghost use Rattle.lsn_core.specs.Sizes.{page_size};
ghost use Rattle.incr_file.specs.Form.{pages_bytes};
ghost use Rattle.lsn_core.specs.byte_words.Pieces.{zero_page};
ghost use Rattle.chain_files.specs.Sources.{member_bytes, bytes_at, slot_page};
ghost use Rattle.chain_files.specs.Told.{chain_told, ArePlaces, AllOnlyRead, FailsAt};

use crate::fault::MemberFault;
use crate::member::fill_from;
use crate::paths::FilePaths;
use crate::slot::Slot;
use lsn_core::PAGE;
use lsn_core::byte_words::overwrite;
use vault::{Held, Vault};

/// A page of zeros.
fn zeros() -> [u8; 8192]
    ensures { result ≡ zero_page }
{
    [0; 8192]
}

/// The page of a member's file from a place on; zeros for bytes that its area doesn't give.
fn page_in<V: Vault>(
    areas: &mut [Held<V>],
    places: &[u32],
    member: usize,
    path: &[u8],
    at: u32,
) -> Result<[u8; 8192], MemberFault>
    requires places { ArePlaces (length areas.old) places.now }
    ensures page { IfOk result (λ page.
        IfSome (chain_told V.Vault areas.old places.now) (λ chain.
        page ≡ bytes_at (member_bytes chain member path.now) at page_size)) }
    ensures reads { AllOnlyRead V.Vault areas.old areas.new }
    ensures cause { IfErr result (FailsAt V.Vault areas.old areas.new) }
{
    let mut page = zeros();
    fill_from(areas, places, member, path, u64::from(at), &mut page)?;
    Ok(page)
}

/// The page that stands at a slot.
fn page_at<V: Vault>(
    areas: &mut [Held<V>],
    places: &[u32],
    paths: &FilePaths,
    slot: Slot,
) -> Result<[u8; 8192], MemberFault>
    requires places { ArePlaces (length areas.old) places.now }
    ensures page { IfOk result (λ page.
        IfSome (chain_told V.Vault areas.old places.now) (λ chain.
        page ≡ slot_page chain paths.now slot)) }
    ensures reads { AllOnlyRead V.Vault areas.old areas.new }
    ensures cause { IfErr result (FailsAt V.Vault areas.old areas.new) }
{
    match slot {
        Slot::Open | Slot::Zeros => Ok(zeros()),
        Slot::Plain(member, at) => page_in(areas, places, member, paths.plain.as_bytes(), at),
        Slot::Part(member, at) => page_in(areas, places, member, paths.incr.as_bytes(), at),
    }
}

/// Reads pages of a member's plain file from a number on, as many as fit; zeros for bytes that its
/// area doesn't give.
pub(crate) fn read_plain<V: Vault>(
    areas: &mut [Held<V>],
    places: &[u32],
    member: usize,
    paths: &FilePaths,
    number: u32,
    into: &mut [u8; 65536],
) -> Result<(), MemberFault>
    requires { ArePlaces (length areas.old) places.now }
    ensures read { OnOk result (IfSome (chain_told V.Vault areas.old places.now) (λ chain.
        into.new ≡ bytes_at (member_bytes chain member paths.now.plain) (number * 8192) 65536)) }
    ensures reads { AllOnlyRead V.Vault areas.old areas.new }
    ensures cause { IfErr result (FailsAt V.Vault areas.old areas.new) }
{
    into.fill(0);
    let at = u64::from(number) * PAGE;
    fill_from(areas, places, member, paths.plain.as_bytes(), at, into)
}

/// Reads so many pages at slots, from the slot of a number on.
pub(crate) fn read_slots<V: Vault>(
    areas: &mut [Held<V>],
    places: &[u32],
    paths: &FilePaths,
    slots: &[Slot],
    number: u32,
    count: u32,
    into: &mut [u8],
) -> Result<(), MemberFault>
    requires places { ArePlaces (length areas.old) places.now }
    requires few { count * 8192 ≤ length into.old }
    requires there { count ≤ length slots.now - number }
    ensures read { OnOk result (IfSome (chain_told V.Vault areas.old places.now) (λ chain.
        take (count * 8192) into.new ≡ pages_bytes
        (map (slot_page chain paths.now) (take count (drop number slots.now))))) }
    ensures reads { AllOnlyRead V.Vault areas.old areas.new }
    ensures cause { IfErr result (FailsAt V.Vault areas.old areas.new) }
{
    for i in 0..count as usize {
        let page = page_at(areas, places, paths, slots[number as usize + i])?;
        overwrite(into, i * 8192, &page);
    }
    Ok(())
}

//! Calls on the area of one member.

ghost use Rattle.std.specs.Prelude.{◌≡◌, ◌<◌, ◌≤◌, length, take, drop, IfOk, IfErr, IfSome};
ghost use Rattle.vault.specs.Area.{IsSizeIn, bytes_of};
ghost use Rattle.vault.specs.Whole.{HoldsFile};
ghost use Rattle.chain_files.specs.Told.{told_at, AllOnlyRead, FailsAt};

use chain_files::MemberFault;
use std::alloc::Global;
use vault::{Held, Vault, read_whole};

/// How many bytes a file of the area of this place has.
pub(crate) fn size_at<V: Vault>(
    areas: &mut [Held<V>],
    place: u32,
    path: &[u8],
) -> Result<Option<u64>, MemberFault>
    requires { place < length areas.old }
    ensures size { IfOk result (IsSizeIn (told_at V.Vault areas.old place) path.now) }
    ensures reads { AllOnlyRead V.Vault areas.old areas.new }
    ensures cause { IfErr result (FailsAt V.Vault areas.old areas.new) }
{
    match areas[place as usize].area.size(path) {
        Ok(size) => Ok(size),
        Err(why) => Err(MemberFault { area: place, why }),
    }
}

/// Reads a file of the area of this place, from a place on, at most so many bytes, and says how
/// many it read.
pub(crate) fn piece_at<V: Vault>(
    areas: &mut [Held<V>],
    place: u32,
    path: &[u8],
    at: u64,
    most: usize,
    into: &mut [u8; 65536],
) -> Result<u32, MemberFault>
    requires place { place < length areas.old }
    requires few { most ≤ 65536 }
    ensures count { IfOk result (λ count. count ≤ most) }
    ensures read { IfOk result (λ count. IfSome (told_at V.Vault areas.old place) (λ m.
        take count into.new ≡ take most (drop at (bytes_of m path.now)))) }
    ensures reads { AllOnlyRead V.Vault areas.old areas.new }
    ensures cause { IfErr result (FailsAt V.Vault areas.old areas.new) }
{
    match areas[place as usize]
        .area
        .read_at(path, at, &mut into[..most])
    {
        Ok(count) => Ok(count),
        Err(why) => Err(MemberFault { area: place, why }),
    }
}

/// All bytes of a file of the area of this place, none where it isn't there.
pub fn whole_at<V: Vault>(
    alloc: Global,
    areas: &mut [Held<V>],
    place: u32,
    path: &[u8],
) -> Result<Vec<u8>, MemberFault>
    requires { place < length areas.old }
    ensures bytes { IfOk result (λ bytes.
        HoldsFile (told_at V.Vault areas.old place) path.now bytes.items) }
    ensures reads { AllOnlyRead V.Vault areas.old areas.new }
    ensures cause { IfErr result (FailsAt V.Vault areas.old areas.new) }
{
    match read_whole(alloc, &mut areas[place as usize].area, path) {
        Ok(bytes) => Ok(bytes),
        Err(why) => Err(MemberFault { area: place, why }),
    }
}

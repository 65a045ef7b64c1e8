//! The store that a chain of backups holds, copied into the files of an output.

ghost use Rattle.std.specs.Prelude.{◌≡◌, ◌≤◌, ◌<◌, ◌*◌, ℕ, false, [], length, IfOk, OnOk, IfErr, IfSome};
ghost use Rattle.std.specs.Option.{option_map};
ghost use Rattle.std.specs.FinMap.{keys};
ghost use Rattle.lsn_core.specs.Causes.{HasCause};
ghost use Rattle.lsn_core.specs.Names.{fork_path_bytes, IsNamed};
ghost use Rattle.lsn_core.specs.Segment.{IsRelseg};
ghost use Rattle.vault.specs.Area.{after_write};
ghost use Rattle.vault.specs.Frame.{OnlyReads, ChangesOnly};
ghost use Rattle.rel_files.specs.Forks.{IsForkPath};
ghost use Rattle.chain_files.specs.Told.{chain_told, AllOnlyRead, FailsAt, ArePlaces};
ghost use Rattle.backup_restore.specs.Inside.{CopyCause, MakesFork, area_shows, newest_names};
ghost use Rattle.backup_restore.specs.Inside.{PutsSegment, PutsFork, AddsNamed, CopiesStore};

use crate::fault::RestoreFault;
use chain_files::{MemberFault, open_segment};
use lsn_core::{AreaFault, ForkId, NoMemory, PAGE, Text, fork_path, path_fork};
use recovery::Tally;
use std::alloc::Global;
use vault::{Held, Vault};

/// How many pages are copied at once: 64 KiB.
const PIECE: u32 = 8;

/// The path of a segment file of a fork.
fn segment_path(alloc: Global, fork: &ForkId, seg: u32) -> Result<Text, NoMemory>
    ensures named { IsNamed fork.now seg }
    ensures path { IfOk result (λ path. path ≡ fork_path_bytes fork.now seg false) }
{
    // known: the numbers of a relation fit, and aren't 0
    let _numbers = (fork.rel.db(), fork.rel.rel());
    fork_path(alloc, *fork, seg, false)
}

/// Writes bytes into a segment file of this path, from the page of a number on. No bytes make an
/// empty file.
fn write_piece<V: Vault>(
    out: &mut V,
    path: &[u8],
    number: u32,
    piece: &[u8],
) -> Result<(), RestoreFault>
    requires { IsForkPath path.now }
    ensures written { OnOk result (V.files out.new
        ≡ option_map (after_write path.now (number * 8192) piece.now) (V.files out.old)) }
    ensures kept { ChangesOnly V.Vault IsForkPath out.old out.new }
    ensures later { V.faults out.old ≤ V.faults out.new }
    ensures cause { IfErr result (CopyCause V.Vault [] [] (V.faults out.old) (V.faults out.new)) }
{
    match out.write_at(path, u64::from(number) * PAGE, piece) {
        Ok(()) => Ok(()),
        Err(why) => Err(RestoreFault::Out(why)),
    }
}

/// Makes an empty fork.
fn make_fork<V: Vault>(alloc: Global, out: &mut V, fork: &ForkId) -> Result<(), RestoreFault>
    ensures made { OnOk result ((relseg : ℕ) → 0 < relseg
        → MakesFork (area_shows V.Vault relseg) out.old out.new fork.now) }
    ensures kept { ChangesOnly V.Vault IsForkPath out.old out.new }
    ensures later { V.faults out.old ≤ V.faults out.new }
    ensures cause { IfErr result (CopyCause V.Vault [] [] (V.faults out.old) (V.faults out.new)) }
{
    let path = segment_path(alloc, fork, 0)?;
    write_piece(out, path.as_bytes(), 0, &[])
}

/// Copies the pages of a segment file of a fork that the chain is combined to, whose files before
/// it are full, behind those that are there, as far as they are read: how many it copied.
fn copy_segment<V: Vault>(
    alloc: Global,
    areas: &mut [Held<V>],
    places: &[u32],
    relseg: u32,
    fork: &ForkId,
    seg: u32,
    first: u32,
    out: &mut V,
) -> Result<u32, RestoreFault>
    requires range { IsRelseg relseg }
    requires place { first ≡ seg * relseg }
    requires places { ArePlaces (length areas.old) places.now }
    ensures put { IfOk result (PutsSegment (area_shows V.Vault relseg) relseg
        (chain_told V.Vault areas.old places.now) fork.now seg first out.old out.new) }
    ensures reads { AllOnlyRead V.Vault areas.old areas.new }
    ensures kept { ChangesOnly V.Vault IsForkPath out.old out.new }
    ensures later { V.faults out.old ≤ V.faults out.new }
    ensures cause { IfErr result (CopyCause V.Vault areas.old areas.new (V.faults out.old)
        (V.faults out.new)) }
{
    let Some(source) = open_segment(alloc, areas, places, fork, seg)? else {
        return Ok(0);
    };
    let path = segment_path(alloc, fork, seg)?;
    let most = relseg.min(u32::MAX - first);
    let mut piece = [0; 65536];
    let mut count = 0;
    while count < most {
        let asked = PIECE.min(most - count);
        let got = source.read_pages(areas, places, count, asked, &mut piece)?;
        if got == 0 {
            return Ok(count);
        }
        write_piece(out, path.as_bytes(), count, &piece[..got as usize * 8192])?;
        count += got;
    }
    Ok(count)
}

/// Makes a fork and copies all its pages: how many they are.
fn copy_fork<V: Vault>(
    alloc: Global,
    areas: &mut [Held<V>],
    places: &[u32],
    relseg: u32,
    fork: &ForkId,
    out: &mut V,
) -> Result<u32, RestoreFault>
    requires range { IsRelseg relseg }
    requires places { ArePlaces (length areas.old) places.now }
    ensures put { IfOk result (PutsFork (area_shows V.Vault relseg) relseg
        (chain_told V.Vault areas.old places.now) fork.now out.old out.new) }
    ensures reads { AllOnlyRead V.Vault areas.old areas.new }
    ensures kept { ChangesOnly V.Vault IsForkPath out.old out.new }
    ensures later { V.faults out.old ≤ V.faults out.new }
    ensures cause { IfErr result (CopyCause V.Vault areas.old areas.new (V.faults out.old)
        (V.faults out.new)) }
{
    make_fork(alloc, out, fork)?;
    let mut seg = 0;
    let mut count = copy_segment(alloc, areas, places, relseg, fork, seg, 0, out)?;
    let mut all = count;
    while count == relseg {
        seg += 1;
        count = copy_segment(alloc, areas, places, relseg, fork, seg, all, out)?;
        all += count;
    }
    Ok(all)
}

/// Copies the fork whose first file has this name, plain or incremental, if one has, and counts it.
fn copy_named<V: Vault>(
    alloc: Global,
    areas: &mut [Held<V>],
    places: &[u32],
    relseg: u32,
    name: &[u8],
    out: &mut V,
    tally: &mut Tally,
) -> Result<(), RestoreFault>
    requires range { IsRelseg relseg }
    requires places { ArePlaces (length areas.old) places.now }
    ensures added { OnOk result (AddsNamed (area_shows V.Vault relseg) relseg
        (chain_told V.Vault areas.old places.now) name.now out.old out.new tally.old tally.new) }
    ensures reads { AllOnlyRead V.Vault areas.old areas.new }
    ensures kept { ChangesOnly V.Vault IsForkPath out.old out.new }
    ensures later { V.faults out.old ≤ V.faults out.new }
    ensures cause { IfErr result (CopyCause V.Vault areas.old areas.new (V.faults out.old)
        (V.faults out.new)) }
{
    let Some((fork, seg, _)) = path_fork(name) else {
        return Ok(());
    };
    if seg != 0 {
        return Ok(());
    }
    let count = copy_fork(alloc, areas, places, relseg, &fork, out)?;
    tally.recount(None, Some(count))?;
    Ok(())
}

/// All names of an area.
fn names_in<V: Vault>(alloc: Global, held: &mut Held<V>) -> Result<Vec<Text>, AreaFault>
    ensures names { IfOk result
        (λ names. IfSome (V.files held.old.area) (λ m. names.items ≡ keys m)) }
    ensures same { held.new.name ≡ held.old.name }
    ensures reads { OnlyReads V.Vault held.old.area held.new.area }
    ensures cause { HasCause (V.faults held.old.area) (V.faults held.new.area) result }
{
    held.area.names(alloc)
}

/// The names of the files of a chain's newest directory.
fn names_of_newest<V: Vault>(
    alloc: Global,
    areas: &mut [Held<V>],
    places: &[u32],
) -> Result<Vec<Text>, MemberFault>
    requires { ArePlaces (length areas.old) places.now }
    ensures names { IfOk result (λ names. IfSome (chain_told V.Vault areas.old places.now)
        (λ chain. names.items ≡ newest_names chain)) }
    ensures reads { AllOnlyRead V.Vault areas.old areas.new }
    ensures cause { IfErr result (FailsAt V.Vault areas.old areas.new) }
{
    let Some(&area) = places.last() else {
        return Ok(Vec::new(alloc));
    };
    match names_in(alloc, &mut areas[area as usize]) {
        Ok(names) => Ok(names),
        Err(why) => Err(MemberFault { area, why }),
    }
}

/// Copies the store that a chain of backups holds, at so many blocks a file, into an output's area
/// whose files hold no fork: how many forks and pages that are. Each member of the chain, the
/// oldest first, has its directory in the area at its place. It reads and writes 64 KiB at a time.
pub fn copy_store<V: Vault>(
    alloc: Global,
    areas: &mut [Held<V>],
    places: &[u32],
    relseg: u32,
    out: &mut V,
) -> Result<Tally, RestoreFault>
    requires range { IsRelseg relseg }
    requires places { ArePlaces (length areas.old) places.now }
    ensures copied { IfOk result (CopiesStore (area_shows V.Vault relseg) relseg
        (chain_told V.Vault areas.old places.now) out.old out.new) }
    ensures reads { AllOnlyRead V.Vault areas.old areas.new }
    ensures kept { ChangesOnly V.Vault IsForkPath out.old out.new }
    ensures later { V.faults out.old ≤ V.faults out.new }
    ensures cause { IfErr result (CopyCause V.Vault areas.old areas.new (V.faults out.old)
        (V.faults out.new)) }
{
    let names = names_of_newest(alloc, areas, places)?;
    let mut tally = Tally::none();
    for name in &names {
        copy_named(
            alloc,
            areas,
            places,
            relseg,
            name.as_bytes(),
            out,
            &mut tally,
        )?;
    }
    Ok(tally)
}

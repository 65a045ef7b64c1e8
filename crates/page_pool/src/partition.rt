//! A partition of a store over its area.

ghost use Rattle.std.specs.Prelude.{◌≡◌, ◌≤◌, IfOk, IfErr, IsSome, map, max};
ghost use Rattle.std.specs.List.{reduce};
ghost use Rattle.std.specs.FinMap.{empty, len};
ghost use Rattle.std.specs.Option.{option_map};
ghost use Rattle.lsn_core.specs.Causes.{HasCause, Rose};
ghost use Rattle.lsn_core.specs.declared.fault.AreaFault.TheVariants.{Failed};
ghost use Rattle.lsn_core.specs.Segment.{IsRelseg};
ghost use Rattle.lsn_core.specs.Shown.{Turns};
ghost use Rattle.lsn_core.specs.Store.{Store};
ghost use Rattle.vault.specs.Frame.{OnlyReads};
ghost use Rattle.rel_files.specs.Forks.{fork_lengths};
ghost use Rattle.rel_files.specs.Shown.{HoldsStore, AreFilesOf, ListsForks, ReadsWhole};
ghost use Rattle.page_pool.specs.Part.{next_end, newest_end};
ghost use Rattle.page_pool.specs.Steps.{IsClean};
ghost use Rattle.page_pool.specs.Opening.{HoldsWhole, ShowsPages, AreLengths};
ghost use Rattle.page_pool.specs.Calls.{AreWholePages, IsHeld, SameUnwritten, ReadsDisk};
ghost use Rattle.page_pool.specs.Writing.{later_end};

use crate::work::Pending;
use lsn_core::{AreaFault, BlockId, ForkLen, Lsn, NoMemory, Pages};
use page_frames::Frames;
use rel_files::Forks;
use std::alloc::Global;
use std::marker::Model;
use vault::Vault;

/// A partition of a store: its pages, some in frames and the others in its area alone, which lacks
/// of them what is dirty or pending. Contracts see a `Part`. What was written before a fault stays
/// written, and what wasn't stays dirty or pending.
#[derive(Drop)]
pub struct Partition<V: Vault, const Q: u32> {
    pub(crate) disk: Forks<V>,
    pub(crate) frames: Frames,
    /// What is to be done before dirty pages are written, in order.
    pub(crate) works: Vec<Pending>,
    /// Replay from here on makes good what isn't written.
    pub(crate) point: Lsn,
    /// The WAL is flushed up to here: the greatest place that was told.
    pub(crate) flushed: Lsn,
}

impl<V: Vault, const Q: u32> Model for Partition<V, Q> {
    ghost use Rattle.page_pool.specs.Part.{Part};
    ghost use Rattle.page_pool.specs.PartCode.{part_code};

    ghost Value = { Part };

    ghost coded = { part_code };

    ghost use Rattle.page_pool.specs.Partition.{part_in, IsPartition};

    ghost view = { λ p. part_in V.Vault p };

    ghost invariant = { λ p. IsPartition V.Vault p };
}

/// Why an area wasn't opened as a partition's, with the area.
#[derive(Drop)]
pub struct Unopened<V: Vault> {
    /// The area.
    pub area: V,
    /// Why it wasn't.
    pub why: AreaFault,
}

impl<V: Vault, const Q: u32> Partition<V, Q> {
    /// The partition of an area that has these pages, which are clean: the lengths of its forks are
    /// read, and no page is in a frame yet, of so many. Replay has to begin at the point, and the
    /// WAL is flushed up to a place.
    pub fn open(
        alloc: Global,
        disk: Forks<V>,
        frames: u32,
        point: Lsn,
        flushed: Lsn,
    ) -> Result<Partition<V, Q>, Unopened<V>>
        requires relseg { IsRelseg disk.relseg }
        requires whole { IsSome (V.files disk.area) → HoldsWhole V.Vault disk }
        ensures frames { IfOk result (λ part. ShowsPages V.Vault disk part.frames) }
        ensures clean { IfOk result IsClean }
        ensures limit { IfOk result (λ part. part.framed.limit ≡ frames) }
        ensures point { IfOk result (λ part. part.point ≡ point.0) }
        ensures flushed { IfOk result (λ part. part.flushed ≡ flushed.0) }
        ensures relseg { IfOk result (λ part. part.relseg ≡ disk.relseg) }
        ensures disk { IfOk result (λ part. part.disk ≡ V.files disk.area) }
        ensures past { IfOk result (λ part. part.past ≡ V.past disk.area) }
        ensures faults { IfOk result (λ part. V.faults disk.area ≤ part.faults) }
        ensures still { IfErr result (λ u. OnlyReads V.Vault disk.area u.area) }
        ensures cause { IfErr result
            (λ u. u.why ≡ Failed → Rose (V.faults disk.area) (V.faults u.area)) }
    {
        let mut disk = disk;
        match read_lengths(alloc, &mut disk, frames) {
            Ok(frames) => Ok(Partition {
                disk,
                frames,
                works: Vec::new(alloc),
                point,
                flushed,
            }),
            Err(why) => Err(Unopened {
                area: disk.area(),
                why,
            }),
        }
    }

    /// The area again.
    pub fn into_area(self) -> V
        ensures files { V.files result ≡ self.disk }
        ensures past { V.past result ≡ self.past }
        ensures faults { V.faults result ≡ self.faults }
    {
        self.disk.area()
    }

    /// The most pages that are in frames at any time.
    pub fn frames(&self) -> u32
        ensures limit { result ≡ self.now.framed.limit }
        ensures few { len self.now.framed.held ≤ result }
    {
        self.frames.limit()
    }

    /// Where replay has to begin to make good what isn't written.
    pub fn redo_point(&self) -> Lsn
        ensures point { result.0 ≡ self.now.point }
        ensures known { IsHeld self.now }
        ensures whole { AreWholePages self.now.frames }
    {
        self.frames.know();
        self.point
    }

    /// The end of the last entry that touched the block, or entered the work, that `write_one`
    /// would write. None exactly where nothing is dirty or pending.
    pub fn next_lsn(&self) -> Option<Lsn>
        ensures { option_map (λ l. l.0) result ≡ next_end self.now }
    {
        if let Some(first) = self.works.first() {
            return Some(first.end);
        }
        let dirty = self.frames.first_dirty()?;
        Some(Lsn(dirty.end))
    }

    /// The greatest such end of all that is dirty or pending. None exactly where nothing is.
    pub fn newest_lsn(&self) -> Option<Lsn>
        ensures { option_map (λ l. l.0) result ≡ newest_end self.now }
    {
        let works = newest_work(&self.works);
        let dirty = self.frames.newest_dirty();
        Some(Lsn(later(works, dirty)?))
    }

    /// The forks of the area, in order, with the numbers of their blocks.
    pub fn list_forks(&mut self) -> Result<Vec<ForkLen>, AreaFault>
        ensures list { IfOk result
            (λ list. ListsForks (AreFilesOf self.old.relseg self.old.disk) list.items) }
        ensures known { IsHeld self.new }
        ensures whole { AreWholePages self.new.frames }
        ensures same { SameUnwritten self.old self.new }
        ensures reads { ReadsDisk self.old self.new }
        ensures cause { HasCause self.old.faults self.new.faults result }
    {
        self.frames.know();
        self.disk.know_all();
        self.disk.list()
    }

    /// Reads a block of the area. False exactly where there is no such block; `into` is then as
    /// before.
    pub fn read_disk(&mut self, at: BlockId, into: &mut [u8; 8192]) -> Result<bool, AreaFault>
        ensures read { IfOk result
            (ReadsWhole (AreFilesOf self.old.relseg self.old.disk) at into.old into.new) }
        ensures known { IsHeld self.new }
        ensures whole { AreWholePages self.new.frames }
        ensures same { SameUnwritten self.old self.new }
        ensures reads { ReadsDisk self.old self.new }
        ensures cause { HasCause self.old.faults self.new.faults result }
    {
        self.frames.know();
        self.disk.know_all();
        self.disk.read_block(at, into)
    }
}

/// The lengths of an area's forks, beside no page in a frame, of so many.
fn read_lengths<V: Vault>(
    alloc: Global,
    disk: &mut Forks<V>,
    limit: u32,
) -> Result<Frames, AreaFault>
    ensures lengths { IfOk result (λ frames. (s : Store) → HoldsStore V.Vault disk.old s
        → AreLengths (fork_lengths s) frames.lengths) }
    ensures none { IfOk result (λ frames. frames.held ≡ empty) }
    ensures limit { IfOk result (λ frames. frames.limit ≡ limit) }
    ensures held { Turns (HoldsStore V.Vault) disk.old disk.new (λ s. s) }
    ensures reads { OnlyReads V.Vault disk.old.area disk.new.area }
    ensures relseg { disk.new.relseg ≡ disk.old.relseg }
    ensures cause { HasCause (V.faults disk.old.area) (V.faults disk.new.area) result }
{
    let list = disk.list()?;
    Ok(frames_of(alloc, &list, limit)?)
}

/// Frames of forks of these lengths, with no page in one, of so many.
fn frames_of(alloc: Global, list: &[ForkLen], limit: u32) -> Result<Frames, NoMemory>
    ensures lengths { IfOk result (λ frames. AreLengths list.now frames.lengths) }
    ensures none { IfOk result (λ frames. frames.held ≡ empty) }
    ensures limit { IfOk result (λ frames. frames.limit ≡ limit) }
{
    let mut frames = Frames::new(alloc, limit);
    for len in list {
        frames.set_length(&len.fork, len.blocks)?;
    }
    Ok(frames)
}

/// The greatest end of the entries that entered these works.
pub(crate) fn newest_work(works: &[Pending]) -> Option<u64>
    ensures { result ≡ reduce max (map (λ w. w.end.0) works.now) }
{
    let mut newest = None;
    for pending in works {
        newest = later(newest, Some(pending.end.0));
    }
    newest
}

/// The greater one of two ends.
pub(crate) fn later(first: Option<u64>, second: Option<u64>) -> Option<u64>
    ensures { result ≡ later_end first second }
{
    match (first, second) {
        (Some(a), Some(b)) => Some(a.max(b)),
        (Some(a), None) => Some(a),
        (None, second) => second,
    }
}

//! The machine in memory.

ghost use Rattle.std.specs.Prelude.{◌≡◌, ◌<◌, ◌&&◌, ℕ, [], map, None, IfOk, OnOk};
ghost use Rattle.std.specs.Option.{option_map};
ghost use Rattle.wal_record.specs.Spelling.{IsWritable};
ghost use Rattle.history.specs.Entry.{Marking, BackupEnd};
ghost use Rattle.history.specs.Written.{mark_kind};
ghost use Rattle.store_core.specs.declared.step.Step.TheVariants as step;
ghost use Rattle.store_core.specs.State.{State, Worker, end_of_wal, with_worker};
ghost use Rattle.store_core.specs.Parts.{next_write, cleaned};
ghost use Rattle.store_core.specs.Increments.{next_redo};
ghost use Rattle.store_core.specs.Steps.{begun, may_begin, is_behind, summaries_end, published, is_summed, sends, is_complete, machine_after, written, started, completed, listed, copied, ended, step_of, where_part};
ghost use Rattle.core_machine.specs.Inside.{underway_in, MayHaveAppended};
ghost use Rattle.core_machine.specs.Shown.{finished_in, Shows, ShowsRun, IsReached, HasStepped, HasMarked};

use crate::backup::Underway;
use crate::crew::Crew;
use crate::over::FinishedBackup;
use crate::pool::Pool;
use history::PageMap;
use history::checkpointer::{first_kind, online_kind, redo_kind};
use history::partitions::partition_of;
use lsn_core::{BlockId, Lsn, NoMemory, Place, Settings, WalTip};
use std::alloc::Global;
use store_core::increment::PriorBackup;
use store_core::log::next_record;
use store_core::stores::copied;
use store_core::summaries::next_redo;
use store_core::{Asked, Reply};
use wal_pages::Layout;
use wal_record::{Kind, Record, first_tip, tip_after};
use wal_summary::{Summary, summarise};

/// The machine: its settings, its WAL and where that ends, the published summaries and where they
/// end, its partitions by their numbers, its workers, and the finished backups, in order.
#[derive(Drop)]
pub struct Machine {
    pub(crate) settings: Settings,
    pub(crate) records: Vec<Record>,
    pub(crate) tip: WalTip,
    pub(crate) summaries: Vec<Summary>,
    pub(crate) summed: Lsn,
    pub(crate) parts: [Pool; 4],
    pub(crate) crew: Crew,
    pub(crate) finished: Vec<FinishedBackup>,
}

impl Machine {
    /// Writes an entry of a kind behind the WAL. None where the WAL has no room for it.
    pub(crate) fn append(&mut self, alloc: Global, kind: Kind) -> Result<Option<Place>, NoMemory>
        requires { IsWritable kind }
        ensures { IfOk result (MayHaveAppended self.old self.new kind) }
    {
        let next = next_record(alloc, &self.settings, self.tip.end, self.tip.prev, kind)?;
        let Some(record) = next else {
            return Ok(None);
        };
        if self.tip.count >= 1 << 62 {
            return Err(NoMemory);
        }
        self.tip = tip_after(self.tip, &record);
        let place = Place {
            start: record.start,
            end: record.end,
        };
        self.records.push(record)?;
        Ok(Some(place))
    }

    /// The machine of a new store, whose WAL has its first entry alone.
    pub fn new(alloc: Global, settings: &Settings) -> Result<Machine, NoMemory>
        ensures { IfOk result (λ m. Shows m (machine_after settings.now.segment
            settings.now.relseg [])) }
    {
        let first = first_tip(settings.segment());
        let start = Layout::new(settings).start_after(first.end);
        let next = next_record(alloc, settings, first.end, first.prev, first_kind(start))?;
        let Some(record) = next else {
            return Err(NoMemory);
        };
        let end = record.end;
        let summed = record.start;
        let tip = tip_after(first, &record);
        let mut records = Vec::new(alloc);
        records.push(record)?;
        Ok(Machine {
            settings: *settings,
            records,
            tip,
            summaries: Vec::new(alloc),
            summed,
            parts: [
                Pool::new(alloc, end),
                Pool::new(alloc, end),
                Pool::new(alloc, end),
                Pool::new(alloc, end),
            ],
            crew: Crew {
                list: Vec::new(alloc),
            },
            finished: Vec::new(alloc),
        })
    }

    /// What is first to be written of a partition is written to its disk.
    pub(crate) fn write_page(&mut self, part: u32) -> Result<Reply, NoMemory>
        requires { part < 4 }
        ensures { (s : State) → Shows self.old s → IfOk result (HasStepped self.new (written s
            part (next_write (s.parts part) (s.parts part).works (s.parts part).dirty))) }
    {
        match self.parts[part as usize].write_next()? {
            Some(wrote) => Ok(Reply::Written(wrote)),
            None => Ok(Reply::Idle),
        }
    }

    /// All that is dirty or pending in a partition is written to its disk.
    pub(crate) fn clean(&mut self, alloc: Global, part: u32) -> Result<Reply, NoMemory>
        requires { part < 4 }
        ensures { (s : State) → Shows self.old s
            → IfOk result (HasStepped self.new (step_of s (step.Clean part))) }
    {
        let redo = self.redo_point();
        self.parts[part as usize].clean(alloc, redo)?;
        Ok(Reply::Cleaned(redo))
    }

    /// A mark is written to the WAL by a worker. None where there is no room for it.
    fn mark(&mut self, alloc: Global, kind: Kind) -> Result<Option<Place>, NoMemory>
        requires { IsWritable kind }
        ensures { (s : State) (worker : ℕ) (marking : Marking) → IsReached s → Shows self.old s
            → kind ≡ mark_kind marking → IfOk result (HasMarked self.new s worker marking) }
    {
        match self.append(alloc, kind)? {
            None => Ok(None),
            Some(place) => Ok(Some(place)),
        }
    }

    /// The latest redo point.
    pub(crate) fn redo_point(&self) -> Lsn
        ensures { result.0 ≡ self.now.tip.redo }
    {
        self.tip.redo
    }

    /// How many entries the history has.
    pub(crate) fn entries(&self) -> u64
        ensures { result ≡ self.now.tip.count }
    {
        self.tip.count
    }

    /// A worker's redo point and backup are set.
    fn set_worker(
        &mut self,
        number: u32,
        redo: Option<Lsn>,
        backup: Option<Underway>,
    ) -> Result<(), NoMemory>
        ensures { (s : State) → Shows self.old s → OnOk result (Shows self.new (with_worker s number
            (record {
              redo = option_map (λ l. l.0) redo;
              backup = option_map underway_in backup;
            }))) }
    {
        self.crew.set(number, redo, backup)
    }

    /// The start of a checkpoint is written to the WAL.
    pub(crate) fn start(&mut self, alloc: Global, number: u32) -> Result<Reply, NoMemory>
        ensures { (s : State) → IsReached s → Shows self.old s
            → IfOk result (HasStepped self.new (started s number (s.workers number))) }
    {
        if self.crew.is_busy(number) {
            return Ok(Reply::Idle);
        }
        let entries = self.entries();
        match self.mark(alloc, redo_kind())? {
            None => Ok(Reply::WalFull(entries)),
            Some(place) => {
                self.set_worker(number, Some(place.start), None)?;
                Ok(Reply::Started(place.start))
            }
        }
    }

    /// A summary of the next range between redo points is published.
    pub(crate) fn publish(&mut self, alloc: Global) -> Result<Reply, NoMemory>
        ensures { (s : State) → IsReached s → Shows self.old s → IfOk result (HasStepped self.new
            (published s (next_redo (summaries_end s) s.history))) }
    {
        let start = self.summed;
        let Some(end) = next_redo(&self.records, start) else {
            return Ok(Reply::Idle);
        };
        let sum = summarise(alloc, &self.records, start, end, 0)?;
        self.summaries.push(sum)?;
        self.summed = end;
        Ok(Reply::Published(end))
    }

    /// Whether a partition's point is below a redo point.
    fn is_behind(&self, redo: Lsn) -> bool
        ensures { (s : State) → Shows self.now s → result ≡ is_behind s redo.0 }
    {
        self.parts[0].point.0 < redo.0
            || self.parts[1].point.0 < redo.0
            || self.parts[2].point.0 < redo.0
            || self.parts[3].point.0 < redo.0
    }

    /// The end of a checkpoint is written to the WAL; a backup that was asked for begins.
    pub(crate) fn complete(
        &mut self,
        alloc: Global,
        number: u32,
        what: Asked,
    ) -> Result<Reply, NoMemory>
        ensures { (s : State) → IsReached s → Shows self.old s
            → IfOk result (HasStepped self.new (completed s number what (s.workers number).redo)) }
    {
        let Some(redo) = self.crew.redo(number) else {
            return Ok(Reply::Idle);
        };
        if self.is_behind(redo) || !may_begin(&self.finished, redo, what) {
            return Ok(Reply::Idle);
        }
        let entries = self.entries();
        match self.mark(alloc, online_kind(redo))? {
            None => Ok(Reply::WalFull(entries)),
            Some(place) => {
                let backup = begun(alloc, &self.finished, redo, what)?;
                self.set_worker(number, None, backup)?;
                Ok(Reply::Completed(place.start))
            }
        }
    }

    /// The forks on a partition's disk are listed for a worker's backup.
    pub(crate) fn list(&mut self, alloc: Global, number: u32, part: u32) -> Result<Reply, NoMemory>
        requires { part < 4 }
        ensures { (s : State) → Shows self.old s → IfOk result (HasStepped self.new
            (listed s number part (s.workers number).backup)) }
    {
        match self.crew.backup(number) {
            None => return Ok(Reply::Idle),
            Some(backup) => {
                if backup.is_listed(part) {
                    return Ok(Reply::Idle);
                }
            }
        }
        let redo = self.crew.redo(number);
        let Some(mut backup) = self.crew.take(number) else {
            return Err(NoMemory);
        };
        let lengths = backup.list(alloc, part, &self.parts[part as usize].disk)?;
        self.set_worker(number, redo, Some(backup))?;
        Ok(Reply::Listed(lengths))
    }

    /// Whether the published summaries reach the start of an incremental backup.
    fn is_summed(&self, backup: &Underway) -> bool
        ensures { (s : State) → Shows self.now s → result ≡ is_summed s (underway_in backup.now) }
    {
        backup.prior.is_none() || backup.start.0 <= self.summed.0
    }

    /// Whether a backup sends a block, and the published summaries reach its start.
    fn is_sent(&self, alloc: Global, backup: &Underway, at: &BlockId) -> Result<bool, NoMemory>
        ensures { (s : State) → Shows self.now s → IfOk result (λ sent. sent
            ≡ (is_summed s (underway_in backup.now) && sends s.relseg s.published
            (underway_in backup.now) (underway_in backup.now).prior at.now)) }
    {
        if !self.is_summed(backup) {
            return Ok(false);
        }
        backup.sends(alloc, &self.summaries, self.settings.relseg(), at)
    }

    /// A block is copied from its partition's disk into a worker's backup.
    pub(crate) fn copy(
        &mut self,
        alloc: Global,
        number: u32,
        at: &BlockId,
    ) -> Result<Reply, NoMemory>
        ensures { (s : State) → Shows self.old s → IfOk result (HasStepped self.new
            (copied s number at.now (s.workers number).backup)) }
    {
        let part = partition_of(at.fork.rel);
        match self.crew.backup(number) {
            None => return Ok(Reply::Idle),
            Some(backup) => {
                if !backup.is_listed(part) || !backup.is_within(at) || backup.is_copied(at) {
                    return Ok(Reply::Idle);
                }
                if !self.is_sent(alloc, backup, at)? {
                    return Ok(Reply::Idle);
                }
            }
        }
        let redo = self.crew.redo(number);
        let Some(mut backup) = self.crew.take(number) else {
            return Err(NoMemory);
        };
        let found = self.parts[part as usize].disk.block(at).is_some();
        let page = self.parts[part as usize].disk.page_at(at);
        backup.copy_block(at, &page)?;
        self.set_worker(number, redo, Some(backup))?;
        Ok(Reply::Copied(found))
    }

    /// Whether a backup is complete, and the published summaries reach its start.
    fn is_to_end(&self, alloc: Global, backup: &Underway) -> Result<bool, NoMemory>
        ensures { (s : State) → Shows self.now s → IfOk result (λ all. all
            ≡ (is_summed s (underway_in backup.now)
            && is_complete s.relseg s.published (underway_in backup.now))) }
    {
        if !self.is_summed(backup) {
            return Ok(false);
        }
        backup.is_complete(alloc, &self.summaries, self.settings.relseg())
    }

    /// The end of a worker's backup is written to the WAL.
    pub(crate) fn end(&mut self, alloc: Global, number: u32) -> Result<Reply, NoMemory>
        ensures { (s : State) → IsReached s → Shows self.old s
            → IfOk result (HasStepped self.new (ended s number (s.workers number).backup)) }
    {
        let start = match self.crew.backup(number) {
            None => return Ok(Reply::Idle),
            Some(backup) => {
                if !self.is_to_end(alloc, backup)? {
                    return Ok(Reply::Idle);
                }
                backup.start
            }
        };
        let entries = self.entries();
        let place = match self.mark(alloc, end_kind(start))? {
            None => return Ok(Reply::WalFull(entries)),
            Some(place) => place,
        };
        let Some(backup) = self.crew.take(number) else {
            return Err(NoMemory);
        };
        let relseg = self.settings.relseg();
        let finished = backup.finish(alloc, &self.summaries, relseg, place.end)?;
        self.set_worker(number, None, None)?;
        self.finished.push(finished)?;
        Ok(Reply::Ended(place.end))
    }
}

/// The backup that begins with a checkpoint, where one was asked for.
fn begun(
    alloc: Global,
    finished: &[FinishedBackup],
    redo: Lsn,
    what: Asked,
) -> Result<Option<Underway>, NoMemory>
    ensures { IfOk result (λ backup. option_map underway_in backup
        ≡ begun (map finished_in finished.now) redo.0 what) }
{
    match what {
        Asked::Nothing => Ok(None),
        Asked::Full => Ok(Some(Underway::new(alloc, redo, None))),
        Asked::Incr(number) => match finished.get(number as usize) {
            None => Ok(None),
            Some(backup) => {
                let prior = PriorBackup {
                    start: backup.start,
                    copy: copied(alloc, &backup.copy)?,
                };
                Ok(Some(Underway::new(alloc, redo, Some(prior))))
            }
        },
    }
}

/// Whether the backup that is asked for may begin at a redo point.
fn may_begin(finished: &[FinishedBackup], redo: Lsn, what: Asked) -> bool
    ensures { result ≡ may_begin (map finished_in finished.now) redo.0 what }
{
    match what {
        Asked::Nothing => true,
        Asked::Full => true,
        Asked::Incr(number) => match finished.get(number as usize) {
            None => false,
            Some(backup) => backup.end.0 <= redo.0,
        },
    }
}

/// The kind of the entry that ends a backup which started at a place.
fn end_kind(start: Lsn) -> Kind
    ensures kind { result ≡ mark_kind (BackupEnd start.0) }
    ensures writable { IsWritable result }
{
    Kind::BackupEnd(start)
}

//! What areas tell of how far they have come.

ghost use Rattle.std.specs.Prelude.{◌≡◌, IfSome, string_bytes};
ghost use Rattle.progress.specs.Moved.{plus};

use crate::line::line_of;
use crate::moved::Moved;
use crate::pace::{PAUSE, next_due};
use std::alloc::Global;
use std::sync::Arc;
use std::sync::atomic::{AtomicU64, Ordering};
use std::time::Instant;

/// All steps on the shared words are in one order.
const ORDER: Ordering = Ordering::SeqCst;

/// What the areas of a program have in common: how many bytes they read and wrote, and from when on
/// the next line is due, in milliseconds since the beginning.
#[derive(Drop)]
struct Shared {
    began: Instant,
    due: AtomicU64,
    read: AtomicU64,
    written: AtomicU64,
}

impl Shared {
    /// Whether a line is due now, which then is the only one until a second later. Where the clock
    /// can't be read none is.
    fn is_due(&self, rt: &HostRuntime) -> bool {
        let Ok(passed) = self.began.elapsed(rt) else {
            return false;
        };
        let seconds = passed.as_secs().saturating_mul(1000);
        let now = seconds.saturating_add(u64::from(passed.subsec_millis()));
        self.due
            .fetch_update(ORDER, ORDER, |due| next_due(due, now))
            .is_ok()
    }

    /// What all areas moved so far.
    fn moved(&self) -> Moved {
        Moved {
            read: self.read.load(ORDER),
            written: self.written.load(ORDER),
        }
    }
}

/// What makes the meters of a program's areas.
#[derive(Drop)]
pub struct Progress {
    rt: HostRuntime,
    shared: Arc<Shared, Global>,
}

impl Progress {
    /// The progress of a program that begins now. None where the clock can't be read, or there is
    /// no memory for it.
    pub fn new(rt: HostRuntime) -> Option<Progress> {
        let shared = Shared {
            began: Instant::now(&rt).ok()?,
            due: AtomicU64::new(PAUSE),
            read: AtomicU64::new(0),
            written: AtomicU64::new(0),
        };
        let shared = Arc::new(rt.alloc(), shared).ok()?;
        Some(Progress { rt, shared })
    }

    /// The meter of an area, by its name. None where there is no memory for it.
    pub fn meter(&self, area: &str) -> Option<Meter>
        ensures area { IfSome result (λ meter. string_bytes meter.area ≡ area.now) }
        ensures read { IfSome result (λ meter. meter.moved.read ≡ 0) }
        ensures written { IfSome result (λ meter. meter.moved.written ≡ 0) }
    {
        Some(Meter {
            rt: self.rt.clone().ok()?,
            shared: Arc::try_clone(&self.shared).ok()?,
            area: String::from_str(self.rt.alloc(), area).ok()?,
            moved: Moved::nothing(),
        })
    }
}

/// Counts what an area moves, and prints a line where one is due.
#[derive(Drop)]
pub struct Meter {
    rt: HostRuntime,
    shared: Arc<Shared, Global>,
    area: String,
    moved: Moved,
}

impl Meter {
    /// Counts bytes that the area read.
    pub fn add_read(&mut self, count: u64)
        ensures area { self.new.area ≡ self.old.area }
        ensures read { self.new.moved.read ≡ plus self.old.moved.read count }
        ensures written { self.new.moved.written ≡ self.old.moved.written }
    {
        self.moved.add_read(count);
        self.shared.read.fetch_add(count, ORDER);
        self.tell();
    }

    /// Counts bytes that the area wrote.
    pub fn add_written(&mut self, count: u64)
        ensures area { self.new.area ≡ self.old.area }
        ensures read { self.new.moved.read ≡ self.old.moved.read }
        ensures written { self.new.moved.written ≡ plus self.old.moved.written count }
    {
        self.moved.add_written(count);
        self.shared.written.fetch_add(count, ORDER);
        self.tell();
    }

    /// Prints a line where one is due. That it can't be printed changes nothing.
    fn tell(&self) {
        if !self.shared.is_due(&self.rt) {
            return;
        }
        let all = self.shared.moved();
        if let Ok(line) = line_of(self.rt.alloc(), self.area.as_str(), self.moved, all) {
            let _ = self.rt.eprintln(line.as_str());
        }
    }
}

//! What was read and written.

ghost use Rattle.std.specs.Prelude.{◌≡◌};
ghost use Rattle.progress.specs.Moved.{plus};

/// How many bytes were read and written. Both counts stay at the end of their type.
#[derive(Clone, Copy)]
pub struct Moved {
    pub read: u64,
    pub written: u64,
}

impl Moved {
    /// Nothing was.
    pub(crate) fn nothing() -> Moved
        ensures read { result.read ≡ 0 }
        ensures written { result.written ≡ 0 }
    {
        Moved {
            read: 0,
            written: 0,
        }
    }

    /// Counts bytes that were read.
    pub(crate) fn add_read(&mut self, count: u64)
        ensures read { self.new.read ≡ plus self.old.read count }
        ensures written { self.new.written ≡ self.old.written }
    {
        self.read = self.read.saturating_add(count);
    }

    /// Counts bytes that were written.
    pub(crate) fn add_written(&mut self, count: u64)
        ensures read { self.new.read ≡ self.old.read }
        ensures written { self.new.written ≡ plus self.old.written count }
    {
        self.written = self.written.saturating_add(count);
    }
}

//! Who hears what a replay reads.

ghost use Rattle.std.specs.Prelude.{◌≡◌, ◌<◌, ◌^◌, List, [], ◌∷◌, ◌++◌, length, Option, None, IfSome};
ghost use Rattle.std.specs.Option.{option_map};
ghost use Rattle.history.specs.Entry.{Entry};
ghost use Rattle.history.specs.Whole.{entry_of};

use wal_record::Record;

/// Who hears the entries that a replay reads, one after the other.
pub trait Listener {
    /// What it heard so far, the first entry first. None of one that doesn't tell.
    ghost heard: { Self → Option (List Entry) };

    /// Hears the next entry.
    fn hear(&mut self, entry: &Record)
        requires room { IfSome (heard self.old) (λ es. length es < 2 ^ 50) }
        ensures { heard self.new
            ≡ option_map (λ es. es ++ entry_of entry.now ∷ []) (heard self.old) };
}

/// Who hears nothing of what it is told.
#[derive(Drop)]
pub struct Deaf;

impl Listener for Deaf {
    ghost heard = { λ _. None };

    fn hear(&mut self, _entry: &Record) {}
}

//! When a line is due.

ghost use Rattle.std.specs.Prelude.{◌≡◌, ℕ, List};
ghost use Rattle.progress.specs.Pace.{next_due, told, AreApart};

/// How long the next line waits behind one, and the first one behind the beginning: a second, in
/// milliseconds.
pub(crate) const PAUSE: u64 = 1000;

/// From when on the next line is due, where one is due now. None where none is. Both moments are in
/// milliseconds since the beginning.
pub(crate) fn next_due(due: u64, now: u64) -> Option<u64>
    ensures { result ≡ next_due due now }
{
    if now < due {
        return None;
    }
    now.checked_add(PAUSE)
}

/// Lines are told a second apart or more, whichever moments are asked about, and in which order.
pub fn lines_are_a_second_apart()
    ensures { (due : ℕ) (moments : List ℕ) → AreApart due (told due moments) }
{}

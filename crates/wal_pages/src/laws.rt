//! Laws of places, heads and cut entries: each is the contract of a function that does nothing.

ghost use Rattle.wal_pages.specs.Laws.{PlacesAreFoundAgain, PlacesAreBehindHeads, FlatBytesAreBehindHeads, PlacesRise, StartsAreAligned, EndsAreAligned, EndsAreNumbered, EntryBytesStandInOrder, WrittenHeadsPass};

/// A flat byte's place leads to its number and back, behind a page's head, and places rise with
/// the numbers.
pub fn places_are_found_again()
    ensures again { PlacesAreFoundAgain }
    ensures back { PlacesAreBehindHeads }
    ensures behind { FlatBytesAreBehindHeads }
    ensures rise { PlacesRise }
{}

/// Entries start behind heads, and start and end at multiples of 8; an end's number is that of the
/// start, and so many more as the entry has bytes up to a multiple of 8.
pub fn entries_stand_at_multiples_of_eight()
    ensures starts { StartsAreAligned }
    ensures ends { EndsAreAligned }
    ensures numbers { EndsAreNumbered }
{}

/// Each byte of an entry that `Layout::spread` cuts stands at the place of its number.
pub fn entry_bytes_stand_in_order()
    ensures { EntryBytesStandInOrder }
{}

/// The head of a page as it is written passes `Layout::check_head`.
pub fn written_heads_pass()
    ensures { WrittenHeadsPass }
{}

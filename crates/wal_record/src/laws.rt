//! Laws of entries, for all lists of bytes: contracts of functions that do nothing.

ghost use Rattle.std.specs.Prelude.{◌≡◌, ◌<◌, ◌≤◌, ◌^◌, ◌++◌, ℕ, List, Option, Some, Ok, length, true};
ghost use Rattle.lsn_core.specs.byte_words.Numbers.{IsBytes, u32_in};
ghost use Rattle.lsn_core.specs.declared.lsn.Lsn.{Lsn};
ghost use Rattle.lsn_core.specs.declared.lsn.Place.{Place};
ghost use Rattle.wal_record.specs.declared.record.Kind.{Kind};
ghost use Rattle.wal_record.specs.declared.record.Record.{Record};
ghost use Rattle.wal_pages.specs.wal_heads.Header.{least_total, most_total, is_linked};
ghost use Rattle.wal_record.specs.Spelling.{sealed, IsWritable};
ghost use Rattle.wal_record.specs.Decoding.{may_come, record_at};
ghost use Rattle.wal_record.specs.Sound.{IsSound};
ghost use Rattle.wal_record.specs.Entry.{own_place, IsEntry};

/// What is read as an entry is of the grammar of entries, and what is of the grammar is read,
/// whatever stands behind it. An entry has the place that was told, and none begins another one.
pub fn entries_are_read()
    ensures of_grammar { (bytes : List ℕ) (place : Place) (prev : Option Lsn) (r : Record)
        → IsBytes bytes → record_at place prev bytes ≡ Ok r
        → (entry : List ℕ) × (behind : List ℕ) × (bytes ≡ entry ++ behind)
        × IsEntry entry place prev r }
    ensures read { (entry behind : List ℕ) (place : Place) (prev : Option Lsn) (r : Record)
        → IsEntry entry place prev r → record_at place prev (entry ++ behind) ≡ Ok r }
    ensures place { (bytes : List ℕ) (place : Place) (prev : Option Lsn) (r : Record)
        → record_at place prev bytes ≡ Ok r → (r.start ≡ place.start) × (r.end ≡ place.end) }
    ensures one { (a b x y : List ℕ) (place : Place) (prev before : Option Lsn) (r s : Record)
        → IsEntry a place prev r → IsEntry b place before s → a ++ x ≡ b ++ y
        → (a ≡ b) × (x ≡ y) × (r ≡ s) }
{}

/// What is written of an entry is of the grammar of entries, and so it is read again, whatever
/// stands behind it, where the links that are asked are its own.
pub fn written_is_read()
    ensures of_grammar { (r : Record) (prev : Option Lsn) → IsWritable r.kind
        → r.xid < 2 ^ 32 → r.prev.0 < 2 ^ 64
        → is_linked prev r.prev.0 ≡ true → may_come prev r.start r.kind ≡ true
        → IsEntry (sealed r) (own_place r) prev r }
    ensures read { (r : Record) (prev : Option Lsn) (behind : List ℕ) → IsWritable r.kind
        → r.xid < 2 ^ 32 → r.prev.0 < 2 ^ 64
        → is_linked prev r.prev.0 ≡ true → may_come prev r.start r.kind ≡ true
        → record_at (own_place r) prev (sealed r ++ behind) ≡ Ok r }
    ensures total { (r : Record) → IsWritable r.kind
        → (u32_in (sealed r) 0 ≡ length (sealed r))
        × ((least_total ≤ length (sealed r)) × (length (sealed r) ≤ most_total)) }
{}

/// What is read is sound, and so is what can be written.
pub fn entries_are_sound()
    ensures read { (bytes : List ℕ) (place : Place) (prev : Option Lsn) (r : Record)
        → record_at place prev bytes ≡ Ok r → IsSound r.kind }
    ensures written { (kind : Kind) → IsWritable kind → IsSound kind }
{}

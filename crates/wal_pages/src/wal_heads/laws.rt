//! Laws of announcements, for all lists of bytes: contracts of functions that do nothing.

ghost use Rattle.std.specs.Prelude.{◌≡◌, ℕ, List, Some};
ghost use Rattle.lsn_core.specs.byte_words.Numbers.{IsBytes};
ghost use Rattle.wal_pages.specs.declared.wal_heads.announce.BlockHead.{BlockHead};
ghost use Rattle.wal_pages.specs.declared.wal_heads.announce.MainHead.{MainHead};
ghost use Rattle.wal_pages.specs.wal_heads.Heads.{heads_bytes, AreHeads};
ghost use Rattle.wal_pages.specs.wal_heads.Announcements.{Heads, heads_at};

/// What is read as announcements is of their grammar, and what is of the grammar is read.
pub fn announcements_are_read()
    ensures of_grammar { (bytes : List ℕ) (x : Heads) → IsBytes bytes
        → heads_at 34 0 0 bytes ≡ Some x
        → (bytes ≡ heads_bytes x.0 x.1 x.2) × AreHeads 0 0 x.0 x.1 x.2 }
    ensures read { (hs : List BlockHead) (main : MainHead) (parts : List ℕ)
        → AreHeads 0 0 hs main parts
        → heads_at 34 0 0 (heads_bytes hs main parts) ≡ Some (hs, main, parts) }
{}

//! Laws of a WAL that comes as a stream of bytes: the segment files that the bytes fill in order,
//! what a reader finds in them as they come, and what a window on their end shows of it.
//!
//! `specs/Streams.antt` says what the files of a stream are and `specs/Windows.antt` what a window
//! shows. What stands behind a tip is decided by the bytes from its end on, and but for an archive
//! that ends there it stays, whatever bytes come: so a follower needs no byte before its tip, and
//! it doesn't matter how the bytes were cut.
//!
//! Left to others: the rules of reading (`wal_archive`), which entries stand there and what they
//! do (`follow_laws`), and the follower (`wal_follow`).
#![tactic(auto)]

ghost use Rattle.stream_laws.specs.Waiting.{FoundStays, EndStays, BytesDecide, FinalNeedsHead};
ghost use Rattle.stream_laws.specs.Streams.{StreamsAreArchives};
ghost use Rattle.stream_laws.specs.Names.{NamesStand};
ghost use Rattle.stream_laws.specs.Held.{FilesStand, NoneElse};
ghost use Rattle.stream_laws.specs.Windows.{WindowsShowTheEnd, WindowsTake, WindowsForget};

/// What a reader finds behind a tip is decided by the bytes from there on; an entry, and damage
/// other than that the archive ends within an entry or a head, stay whatever bytes come; and an end
/// stays one where only zeros come.
pub fn reading_waits_for_bytes()
    ensures decide { BytesDecide }
    ensures stays { FoundStays }
    ensures ends { EndStays }
    ensures head { FinalNeedsHead }
{}

/// The archive of a stream's files has the stream's bytes, without a gap.
pub fn streams_are_archives()
    ensures { StreamsAreArchives }
{}

/// The names of a stream's files stand in the order of their segments.
pub fn names_stand()
    ensures { NamesStand }
{}

/// Each segment that a stream's bytes begin has a file with its part of them, and there is no
/// other.
pub fn files_stand()
    ensures stand { FilesStand }
    ensures none { NoneElse }
{}

/// Behind a tip that isn't before a window a reader finds in it what it finds in the whole stream.
pub fn windows_show_the_end()
    ensures { WindowsShowTheEnd }
{
    // known: a stream's files have its bytes, and the bytes behind a tip decide what is found
    streams_are_archives();
    reading_waits_for_bytes();
}

/// A window that takes a piece as far as the archive has room is the end of the longer stream.
pub fn windows_take()
    ensures { WindowsTake }
{}

/// A window that forgets bytes at its beginning is still the end of its stream.
pub fn windows_forget()
    ensures { WindowsForget }
{}

//! What a stream's bytes make, as far as they came: the entries that are whole, and the store that
//! they make from nothing. It doesn't matter how the bytes came, a refusal stays, and what a window
//! on their end gives is what follows in the stream.
//!
//! `specs/Followed.antt` says what it is to be followed and to be refused. A stream waits where its
//! archive ends, or ends within an entry or a head.
//!
//! Left to others: what the files of a stream are, and which bytes decide what is found
//! (`stream_laws`), what an entry does (`history`), and the follower (`wal_follow`).
#![tactic(auto)]

ghost use Rattle.follow_laws.specs.Followed.{FollowingIsOne, FollowedOrRefused, RefusedInOneWay, RefusalsStay};
ghost use Rattle.follow_laws.specs.Steps.{EntriesGoOn, StreamsGoOn, ZerosGoOn};
ghost use Rattle.follow_laws.specs.Windows.{WindowsShow, WindowsFollow, WindowsRefuse};

use stream_laws::{reading_waits_for_bytes, streams_are_archives, windows_show_the_end};

/// A stream's bytes make one list of entries and one store, however they came, or they are refused
/// for one reason.
pub fn following_is_one()
    ensures one { FollowingIsOne }
    ensures apart { FollowedOrRefused }
    ensures refused { RefusedInOneWay }
{}

/// A stream that is refused stays refused in the same way, whatever bytes come.
pub fn refusals_stay()
    ensures { RefusalsStay }
{
    // known: a stream's files have its bytes, and what stays is found
    streams_are_archives();
    reading_waits_for_bytes();
}

/// An entry that is found behind what was read, and applied, is read.
pub fn entries_go_on()
    ensures { EntriesGoOn }
{}

/// What was read stays so when a piece comes.
pub fn streams_go_on()
    ensures { StreamsGoOn }
{
    // known: a stream's files have its bytes, and what stays is found
    streams_are_archives();
    reading_waits_for_bytes();
}

/// An end stays one where zeros come.
pub fn zeros_go_on()
    ensures { ZerosGoOn }
{
    // known: a stream's files have its bytes, and an end stays one
    streams_are_archives();
    reading_waits_for_bytes();
}

/// What is read and applied through a window on a stream's end is what follows in the stream, and
/// what is refused there is refused of the stream.
pub fn windows_follow()
    ensures show { WindowsShow }
    ensures follow { WindowsFollow }
    ensures refuse { WindowsRefuse }
{
    // known: a window shows the end
    windows_show_the_end();
}

//! Laws of a restart: each is the contract of a function that does nothing.

ghost use Rattle.comeback_laws.specs.Laws.{CountsAreTallies, ComebacksAreWhole};
ghost use Rattle.comeback_laws.specs.Laws.{RestartsHoldWhole};

use vault::Vault;

/// What data areas count are the forks and pages of the store whose parts they hold.
pub fn counts_are_tallies<V: Vault>()
    ensures { CountsAreTallies V.Vault }
{}

/// Data areas that a stop left, and that were brought to the end of the survivors, hold what these
/// make from nothing.
pub fn comebacks_are_whole<V: Vault>()
    ensures { ComebacksAreWhole V.Vault }
{}

/// A store that was restarted after a stop has the WAL of just the entries that survived, the first
/// of its history with all that were flushed, and in its data areas the files of just what these
/// make from nothing. So many forks and pages were told.
pub fn restarts_hold_whole<V: Vault>()
    ensures { RestartsHoldWhole V.Vault }
{}

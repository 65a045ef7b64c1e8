//! What holds of every piece of a WAL that is known.

ghost use Rattle.wal_reader.specs.wal_pieces.Laws.{PiecesAreParts, PiecesEndAtTheTarget, KnownPiecesAreWhole};
ghost use Rattle.wal_reader.specs.wal_pieces.Laws.{PiecesGoOn, PiecesGoOnWhole, NoneStartsBehind};

/// Of a WAL whose first entries are known a piece that is read from the start of one of them on has
/// the entries from there on, one by one: all of it, where the target is the end of the known ones,
/// and else as far as they are known. Before that target such a piece meets no damage.
pub fn pieces_are_parts_of_the_wal()
    ensures parts { PiecesAreParts }
    ensures target { PiecesEndAtTheTarget }
    ensures whole { KnownPiecesAreWhole }
{}

/// A piece that is read from where an entry may start behind the end of a known one, or from the
/// start of one, up to where the known ones end, has those that start there or past it, in order;
/// so a reading goes on from the end of the last entry of a piece. There are none from where the
/// last known one ends.
pub fn pieces_go_on_where_an_entry_ends()
    ensures on { PiecesGoOn }
    ensures whole { PiecesGoOnWhole }
    ensures behind { NoneStartsBehind }
{}

//! Pieces of the archive of WAL: the first entries from a place on, so that whoever goes through a
//! WAL holds no more than a piece of it.
//!
//! `specs/wal_pieces/Piece.antt` says which entries a piece has, in the words of the crate, and
//! `specs/wal_pieces/Laws.antt` that a piece of a WAL that is known, read from the start of one of
//! its entries, is a part of its entries.

mod laws;
mod piece;

pub use laws::{pieces_are_parts_of_the_wal, pieces_go_on_where_an_entry_ends};
pub use piece::read_piece;

//! What several crates say and prove of lists of bytes, so that each definition and lemma stands
//! once: numbers as little-endian bytes, bytes written at a place, a page of zeros, texts cut in
//! two, buffers to read into, places rounded up, and facts about contents that may not be told.
//!
//! Each reader answers exactly what stands in the bytes, None where too few do. The lemmas for
//! readers of many fields stand in `proofs/byte_words/Fields.antt`, those on cut texts in
//! `proofs/byte_words/Cutting.antt`, those on bytes written over others in
//! `proofs/byte_words/Overwritten.antt`. What the bytes mean is left to the crates above.

mod buffers;
mod cuts;
mod pieces;
mod places;
mod reading;

pub use buffers::zeros;
pub use cuts::{behind, behind_prefix, cut_at, place_of};
pub use pieces::overwrite;
pub use places::aligned;
pub use reading::{u8_at, u16_at, u16_in, u32_at, u32_in, u64_at, u64_in};

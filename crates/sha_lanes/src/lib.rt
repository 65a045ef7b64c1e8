//! SHA-256 (FIPS 180-4) of four messages side by side, each in a lane of its own: together in less
//! than half the time of one after another.
//!
//! `Lanes` sees the messages in whole blocks, of each message as many at once. A message ends by
//! itself, with its last bytes, and another one begins in its lane while the others go on. What a
//! lane has seen is `HasSeen` of `specs/Lanes.antt`; that the digest of a message is the kit's
//! `sha256` of it is proved. `vectors` has the standard's functions on words in each lane, `block`
//! the rounds of a block, and `lanes` the messages.
//!
//! Left to others: reading what is hashed, which message goes into which lane, and other sums than
//! those of SHA-256 (`sha2`). Nothing here takes memory or can fail.
#![tactic(auto)]

mod block;
mod lanes;
mod vectors;

pub use lanes::Lanes;

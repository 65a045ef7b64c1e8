//! The incremental files of a backup: the head of such a file, which tells the blocks that it
//! holds of a fork's segment file, and the plan by which a segment file is sent whole or so.
//!
//! `specs/Head.antt` has the grammar of a head and its text, `specs/Reading.antt` how it is read,
//! which fault comes first, and where a listed block begins. `encode_head` gives exactly the text,
//! `decode_head` takes exactly the grammar, and `laws` say that what is written is read as it was.
//! `specs/Plan.antt` has the plan of a segment file, which `plan_segment` gives, and
//! `specs/Form.antt` what a file of one form or the other says of a block, alone and over those of
//! earlier backups.
//!
//! Left to others: reading and writing the files, the names of their paths, and the summary of the
//! WAL that a plan is made of.
#![tactic(auto)]

mod decode;
mod encode;
mod head;
mod laws;
mod place;
mod plan;
mod sizes;

pub use decode::{HeadFault, decode_head};
pub use encode::encode_head;
pub use head::{HeadBlocks, HeadView, IncrHead};
pub use laws::{heads_are_read_as_written, origins_are_right, plans_may_be_written};
pub use place::block_place;
pub use plan::{FilePlan, plan_segment};
pub use sizes::head_size;

//! What writes a directory that a manifest lists, each file in place of one that another backup's
//! manifest lists.
//!
//! `specs/Relisted.antt` says what such a directory is, with the rule for its files as a parameter.
//! A file grows piece by piece and is hashed as it is written (`Growing`): `copy_file` copies one
//! of a member's area, `rebuild_file` writes the pages that a chain has of a segment file,
//! `add_pages` some of them. `can_list` says whether a manifest can list the files, `list_file`
//! lists one,
//! `relisted_text` is the manifest. The members' areas are lent, and read in pieces of 64 KiB.
//!
//! Left to others: which files stand for which (`combine` and what merges backups), where the pages
//! of a file stand (`chain_files`), and the writing of the manifest (`backup_files`).
#![tactic(auto)]

mod copying;
mod fault;
mod growing;
mod label;
mod listable;
mod reading;
mod rebuilding;
mod rows;
mod targets;
mod text;

pub use copying::copy_file;
pub use fault::WriteFault;
pub use growing::Growing;
pub use label::full_end;
pub use listable::can_list;
pub use reading::whole_at;
pub use rebuilding::{add_pages, rebuild_file};
pub use rows::list_file;
pub use targets::Target;
pub use text::relisted_text;

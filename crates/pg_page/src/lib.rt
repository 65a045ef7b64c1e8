//! Pages of 8192 bytes, their header and their hole (PostgreSQL manual, Database Page Layout), and
//! fragments of them.
//!
//! A `Page` has a good header, which `specs/Header.antt` says: its version and size are right, and
//! pd_lower, pd_upper and pd_special stand in order. So its hole, from pd_lower to pd_upper, lies
//! within it. `make_page` makes a page from nothing, and `restored_page` one of its image, where
//! the bytes of the hole are left out (`specs/Image.antt`). `patch` writes fragments over a page,
//! and `check_frags` tells which can't be written (`specs/Frags.antt`). The laws of holes and
//! patches are contracts of their own (`specs/Laws.antt`).
//!
//! Left to others: what a change does to a store (`history`) and how its image or its fragments are
//! announced (`wal_record`). Checksums, flags and items are not looked at. Memory is taken for
//! fragments and for a `Page`, which stands on the heap.
#![tactic(auto)]

mod frags;
mod image;
mod laws;
mod make;
mod page;

pub use frags::{Frag, Frags, check_frags, patch, write_frags};
pub use image::restored_page;
pub use laws::{
    patched_holes_are_zero, patches_differ_in_lsn, patches_keep_headers, zeroing_twice_is_once,
};
pub use make::make_page;
pub use page::{Page, lsn_of, set_lsn, zero_hole, zero_page};

//! Fragments of a page, and a page that they are written over.

ghost use Rattle.std.specs.Prelude.{◌≡◌, ◌<◌, ◌≤◌, ◌+◌, None, IfOk, length, if◌then◌else◌};
ghost use Rattle.std.specs.List.{All};
ghost use Rattle.pg_page.specs.Frags.{bad_frag, written_frags, patched, is_good};

use crate::page::{is_good, set_lsn, zero_hole};
use lsn_core::byte_words::overwrite;
use std::alloc::{AllocError, Global};
use std::marker::Model;

/// Bytes, and the place of a page that they are written at. Contracts see a `Fragment`.
#[derive(Debug, Drop)]
pub struct Frag {
    at: u16,
    bytes: Vec<u8>,
}

impl Model for Frag {
    ghost use Rattle.pg_page.specs.Frags.{Fragment};

    ghost Value = { Fragment };

    ghost view = { λ f. record { at = f.at; bytes = f.bytes.items } };
}

impl Frag {
    /// These bytes at that place of a page, good or bad.
    pub fn new(alloc: Global, at: u16, bytes: &[u8]) -> Result<Frag, AllocError>
        ensures { IfOk result (λ f. f ≡ record { at = at; bytes = bytes.now }) }
    {
        let mut copy = Vec::new(alloc);
        copy.extend_from_slice(bytes)?;
        Ok(Frag { at, bytes: copy })
    }

    /// The place of the page, counted from 0.
    pub fn at(&self) -> u16
        ensures { result ≡ self.now.at }
    {
        self.at
    }

    /// The bytes.
    pub fn bytes(&self) -> &[u8]
        ensures { result.now ≡ self.now.bytes }
    {
        &self.bytes
    }
}

/// The fragments of one block, in the order in which they are written. Contracts see the list.
#[derive(Debug, Drop)]
pub struct Frags {
    list: Vec<Frag>,
}

impl Model for Frags {
    ghost use Rattle.std.specs.Prelude.{List};
    ghost use Rattle.pg_page.specs.Frags.{Fragment};

    ghost Value = { List Fragment };

    ghost view = { λ f. f.list.items };
}

impl Frags {
    /// These fragments. Takes no memory.
    pub fn from_vec(list: Vec<Frag>) -> Frags
        ensures { result ≡ list.items }
    {
        Frags { list }
    }

    /// The fragments.
    pub fn as_slice(&self) -> &[Frag]
        ensures { result.now ≡ self.now }
    {
        &self.list
    }

    /// The same fragments once more.
    pub fn copied(&self, alloc: Global) -> Result<Frags, AllocError>
        ensures { IfOk result (λ f. f ≡ self.now) }
    {
        let mut list = Vec::new(alloc);
        for frag in &self.list {
            list.push(Frag::new(alloc, frag.at, &frag.bytes)?)?;
        }
        Ok(Frags { list })
    }
}

/// The number of the first bad fragment, counted from 0, and 0 where there is none at all. None
/// exactly where no fragment is bad. A fragment is bad where it has no bytes, where it ends past
/// byte 8192, and where it and those before it take more than 65,535 bytes of a delta, 4 and its
/// bytes each (profile).
pub fn check_frags(frags: &[Frag]) -> Option<u32>
    ensures { result ≡ bad_frag frags.now }
{
    if frags.is_empty() {
        return Some(0);
    }
    let mut size: usize = 0;
    let mut number: u32 = 0;
    for frag in frags {
        let len = frag.bytes.len();
        let end = usize::from(frag.at) + len;
        if len == 0 || end > 8192 || size + 4 + len > 65_535 {
            return Some(number);
        }
        size += 4 + len;
        number += 1;
    }
    None
}

/// Writes fragments over a page in turn, by an entry that ends at a place: the hole of the new
/// header becomes zeros, and the page's LSN that end. False exactly where the page then has a bad
/// header; its bytes are then unchanged.
pub fn patch(bytes: &mut [u8; 8192], frags: &[Frag], end: u64) -> bool
    requires { bad_frag frags.now ≡ None }
    ensures good { result ≡ is_good (written_frags frags.now bytes.old) }
    ensures bytes { bytes.new ≡ (if result then patched frags.now end bytes.old else bytes.old) }
{
    let mut changed = *bytes;
    write_frags(&mut changed, frags);
    if !is_good(&changed) {
        return false;
    }
    zero_hole(&mut changed);
    set_lsn(&mut changed, end);
    *bytes = changed;
    true
}

/// Writes fragments over a page in turn, each of which ends within it.
pub fn write_frags(page: &mut [u8; 8192], frags: &[Frag])
    requires { All (λ f. f.at + length f.bytes ≤ 8192) frags.now }
    ensures { page.new ≡ written_frags frags.now page.old }
{
    for frag in frags {
        overwrite(page, usize::from(frag.at), &frag.bytes);
    }
}

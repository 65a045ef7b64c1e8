//! The running sum.

ghost use Rattle.std.specs.Prelude.{◌≡◌, ℕ, fold, length};
ghost use Rattle.wal_crc.specs.Crc.{bit_steps, byte_step, crc_start, crc_run, finished};

use crate::tables::{after_block, after_zeros};
use std::marker::Model;

/// The CRC-32C of the bytes seen so far. A contract sees the register.
#[derive(Clone, Copy, Debug)]
pub struct Crc {
    register: u32,
}

impl Model for Crc {
    ghost Value = { ℕ };

    ghost view = { λ c. c.register };

    ghost inverse = { λ r. record { register = r } };
}

impl Crc {
    /// Has seen no byte.
    pub fn new() -> Crc
        ensures { result ≡ crc_start }
    {
        Crc {
            register: 0xffff_ffff,
        }
    }

    /// Sees the bytes, after those that it has seen.
    pub fn add(&mut self, bytes: &[u8])
        ensures { self.new ≡ crc_run self.old bytes.now }
    {
        let (blocks, rest) = bytes.as_chunks::<256>();
        self.register = after_rest(after_blocks(self.register, blocks), rest);
    }

    /// The CRC-32C of all bytes seen.
    pub fn value(&self) -> u32
        ensures { result ≡ finished self.now }
    {
        self.register ^ 0xffff_ffff
    }
}

/// The register after some bytes more, in blocks of 256.
fn after_blocks(register: u32, blocks: &[[u8; 256]]) -> u32
    ensures { result ≡ fold crc_run register blocks.now }
{
    blocks
        .iter()
        .fold(register, |r, block| after_block_of(r, block))
}

/// The registers after some bytes more, and after as many others behind nothing, side by side.
#[inline(always)]
fn two_runs(register: u32, front: &[[u8; 16]], back: &[[u8; 16]]) -> (u32, u32)
    requires { length back.now ≡ length front.now }
    ensures first { result.0 ≡ fold crc_run register front.now }
    ensures second { result.1 ≡ fold crc_run 0 back.now }
{
    let mut first = register;
    let mut second = 0;
    'pairs: for i in 0..front.len() {
        first = after_sixteen(first, front[i]);
        second = after_sixteen(second, back[i]);
    }
    (first, second)
}

/// The register after a block more: its halves go side by side.
fn after_block_of(register: u32, block: &[u8; 256]) -> u32
    ensures { result ≡ crc_run register block.now }
{
    let (front, back) = block.split_at(128);
    let (front, _) = front.as_chunks::<16>();
    let (back, _) = back.as_chunks::<16>();
    let (first, second) = two_runs(register, front, back);
    moved(first) ^ second
}

/// The register once 128 bytes of zeros have left it.
#[inline(always)]
fn moved(register: u32) -> u32
    ensures { result ≡ bit_steps 1024 register }
{
    let bytes = register.to_le_bytes();
    after_block(0, bytes[0])
        ^ after_block(1, bytes[1])
        ^ after_block(2, bytes[2])
        ^ after_block(3, bytes[3])
}

/// The register after fewer bytes than a block.
fn after_rest(register: u32, bytes: &[u8]) -> u32
    ensures { result ≡ crc_run register bytes.now }
{
    let (sixteens, rest) = bytes.as_chunks::<16>();
    after_eight_or(after_sixteens(register, sixteens), rest)
}

/// The register after some bytes more, in sixteens.
fn after_sixteens(register: u32, sixteens: &[[u8; 16]]) -> u32
    ensures { result ≡ fold crc_run register sixteens.now }
{
    sixteens
        .iter()
        .fold(register, |r, sixteen| after_sixteen(r, *sixteen))
}

/// The register after some bytes more, the first eight of them at once.
fn after_eight_or(register: u32, bytes: &[u8]) -> u32
    ensures { result ≡ crc_run register bytes.now }
{
    let (eights, rest) = bytes.as_chunks::<8>();
    after_bytes(after_eights(register, eights), rest)
}

/// The register after some bytes more, in eights.
fn after_eights(register: u32, eights: &[[u8; 8]]) -> u32
    ensures { result ≡ fold crc_run register eights.now }
{
    eights
        .iter()
        .fold(register, |r, eight| after_eight(r, *eight))
}

/// The register after some bytes more.
fn after_bytes(register: u32, bytes: &[u8]) -> u32
    ensures { result ≡ crc_run register bytes.now }
{
    bytes.iter().fold(register, |r, byte| after_byte(r, *byte))
}

/// The register after sixteen bytes more.
#[inline(always)]
fn after_sixteen(register: u32, sixteen: [u8; 16]) -> u32
    ensures { result ≡ crc_run register sixteen }
{
    let [a, b, c, d, e, f, g, h, i, j, k, l, m, n, o, p] = sixteen;
    emptied_later(u64::from_le_bytes([a, b, c, d, e, f, g, h]) ^ u64::from(register))
        ^ emptied(u64::from_le_bytes([i, j, k, l, m, n, o, p]))
}

/// The register once the 64 bits of a word and 64 bits of zeros have left it.
#[inline(always)]
fn emptied_later(word: u64) -> u32
    ensures { result ≡ bit_steps 128 word }
{
    let bytes = word.to_le_bytes();
    after_zeros(15, bytes[0])
        ^ after_zeros(14, bytes[1])
        ^ after_zeros(13, bytes[2])
        ^ after_zeros(12, bytes[3])
        ^ after_zeros(11, bytes[4])
        ^ after_zeros(10, bytes[5])
        ^ after_zeros(9, bytes[6])
        ^ after_zeros(8, bytes[7])
}

/// The register after eight bytes more.
#[inline(always)]
fn after_eight(register: u32, eight: [u8; 8]) -> u32
    ensures { result ≡ crc_run register eight }
{
    emptied(u64::from_le_bytes(eight) ^ u64::from(register))
}

/// The register once the 64 bits of a word have left it.
#[inline(always)]
fn emptied(word: u64) -> u32
    ensures { result ≡ bit_steps 64 word }
{
    let bytes = word.to_le_bytes();
    after_zeros(7, bytes[0])
        ^ after_zeros(6, bytes[1])
        ^ after_zeros(5, bytes[2])
        ^ after_zeros(4, bytes[3])
        ^ after_zeros(3, bytes[4])
        ^ after_zeros(2, bytes[5])
        ^ after_zeros(1, bytes[6])
        ^ after_zeros(0, bytes[7])
}

/// The register after one byte more.
#[inline(always)]
fn after_byte(register: u32, byte: u8) -> u32
    ensures { result ≡ byte_step register byte }
{
    let mixed = register ^ u32::from(byte);
    after_zeros(0, (mixed & 0xff) as u8) ^ (mixed >> 8)
}

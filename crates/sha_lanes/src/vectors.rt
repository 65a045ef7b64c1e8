//! The standard's functions on words, in each lane of a vector.

ghost use Rattle.std.specs.Prelude.{◌≡◌, ℕ, ◌+◌, ◌*◌, ◌/◌, ◌%◌, ◌^◌, ◌<◌, slice_index, bit_xor};
ghost use Rattle.std.specs.Prelude.{bit_and};
ghost use Rattle.std.specs.Int.{w32, bit_not, rotate_right};
ghost use Rattle.sha2.specs.Sha256.{add32, big_sigma0, big_sigma1, ch, maj, small_sigma0};
ghost use Rattle.sha2.specs.Sha256.{small_sigma1};

use std::simd::u32x4;

/// Sums, 2^32 left out.
#[inline(always)]
pub(crate) fn add(a: u32x4, b: u32x4) -> u32x4
    ensures { (j : ℕ) → j < 4 → slice_index result j ≡ add32 (slice_index a j) (slice_index b j) }
{
    a + b
}

/// The bits that differ.
#[inline(always)]
fn xor(a: u32x4, b: u32x4) -> u32x4
    ensures { (j : ℕ) → j < 4 → slice_index result j ≡ bit_xor (slice_index a j) (slice_index b j) }
{
    a ^ b
}

/// The bits that both have.
#[inline(always)]
fn and(a: u32x4, b: u32x4) -> u32x4
    ensures { (j : ℕ) → j < 4 → slice_index result j ≡ bit_and (slice_index a j) (slice_index b j) }
{
    a & b
}

/// The bits that it hasn't.
#[inline(always)]
fn not(a: u32x4) -> u32x4
    ensures { (j : ℕ) → j < 4 → slice_index result j ≡ bit_not w32 (slice_index a j) }
{
    !a
}

/// The bits moved down by so many places.
#[inline(always)]
fn shift(a: u32x4, k: u32) -> u32x4
    requires { k < 32 }
    ensures { (j : ℕ) → j < 4 → slice_index result j ≡ slice_index a j / 2 ^ k }
{
    a >> u32x4::splat(k)
}

/// The bits moved down by so many places, those that fall out going to the top.
#[inline(always)]
fn rotate(a: u32x4, k: u32) -> u32x4
    requires { (0 < k) × (k < 32) }
    ensures { (j : ℕ) → j < 4 → slice_index result j ≡ rotate_right w32 (slice_index a j) k }
{
    (a >> u32x4::splat(k)) | (a << u32x4::splat(32 - k))
}

/// The function of a round on `a`.
#[inline(always)]
pub(crate) fn big_sigma0(a: u32x4) -> u32x4
    ensures { (j : ℕ) → j < 4 → slice_index result j ≡ big_sigma0 (slice_index a j) }
{
    xor(xor(rotate(a, 2), rotate(a, 13)), rotate(a, 22))
}

/// The function of a round on `e`.
#[inline(always)]
pub(crate) fn big_sigma1(a: u32x4) -> u32x4
    ensures { (j : ℕ) → j < 4 → slice_index result j ≡ big_sigma1 (slice_index a j) }
{
    xor(xor(rotate(a, 6), rotate(a, 11)), rotate(a, 25))
}

/// The function of the schedule on the word 15 before.
#[inline(always)]
pub(crate) fn small_sigma0(a: u32x4) -> u32x4
    ensures { (j : ℕ) → j < 4 → slice_index result j ≡ small_sigma0 (slice_index a j) }
{
    xor(xor(rotate(a, 7), rotate(a, 18)), shift(a, 3))
}

/// The function of the schedule on the word 2 before.
#[inline(always)]
pub(crate) fn small_sigma1(a: u32x4) -> u32x4
    ensures { (j : ℕ) → j < 4 → slice_index result j ≡ small_sigma1 (slice_index a j) }
{
    xor(xor(rotate(a, 17), rotate(a, 19)), shift(a, 10))
}

/// Each bit of the second or the third word, as the first one has it or not.
#[inline(always)]
pub(crate) fn ch(x: u32x4, y: u32x4, z: u32x4) -> u32x4
    ensures { (j : ℕ) → j < 4 → slice_index result j
        ≡ ch (slice_index x j) (slice_index y j) (slice_index z j) }
{
    xor(and(x, y), and(not(x), z))
}

/// Each bit that two of the words have at least. One round's `x ^ y` is the next round's `y ^ z`,
/// so it is computed once.
#[inline(always)]
pub(crate) fn maj(x: u32x4, y: u32x4, z: u32x4) -> u32x4
    ensures { (j : ℕ) → j < 4 → slice_index result j
        ≡ maj (slice_index x j) (slice_index y j) (slice_index z j) }
{
    xor(y, and(xor(x, y), xor(y, z)))
}

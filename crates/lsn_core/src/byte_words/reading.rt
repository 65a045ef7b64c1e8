//! Numbers at the front of bytes, least byte first.

ghost use Rattle.std.specs.Prelude.{◌≡◌, ◌+◌, ◌≤◌, length};
ghost use Rattle.std.specs.Option.{option_map};
ghost use Rattle.std.specs.Int.{w8, w16, w32, w64};
ghost use Rattle.lsn_core.specs.byte_words.Numbers.{number_at, u16_in, u32_in, u64_in};

/// The byte at the front, and the bytes after it. None exactly where there is none.
pub fn u8_at(bytes: &[u8]) -> Option<(u8, &[u8])>
    ensures { option_map (λ x. (x.0, x.1.now)) result ≡ number_at w8 bytes.now }
{
    if bytes.is_empty() {
        return None;
    }
    let (front, rest) = bytes.split_at(1);
    Some((u8::from_le_bytes([front[0]]), rest))
}

/// The number of the first two bytes, and the bytes after them. None exactly where there are fewer.
pub fn u16_at(bytes: &[u8]) -> Option<(u16, &[u8])>
    ensures { option_map (λ x. (x.0, x.1.now)) result ≡ number_at w16 bytes.now }
{
    if bytes.len() < 2 {
        return None;
    }
    let (front, rest) = bytes.split_at(2);
    Some((u16::from_le_bytes([front[0], front[1]]), rest))
}

/// The number of the first four bytes, and the bytes after them. None exactly where there are
/// fewer.
pub fn u32_at(bytes: &[u8]) -> Option<(u32, &[u8])>
    ensures { option_map (λ x. (x.0, x.1.now)) result ≡ number_at w32 bytes.now }
{
    if bytes.len() < 4 {
        return None;
    }
    let (front, rest) = bytes.split_at(4);
    let number = u32::from_le_bytes([front[0], front[1], front[2], front[3]]);
    Some((number, rest))
}

/// The number of the first eight bytes, and the bytes after them. None exactly where there are
/// fewer.
pub fn u64_at(bytes: &[u8]) -> Option<(u64, &[u8])>
    ensures { option_map (λ x. (x.0, x.1.now)) result ≡ number_at w64 bytes.now }
{
    if bytes.len() < 8 {
        return None;
    }
    let (front, rest) = bytes.split_at(8);
    let number = u64::from_le_bytes([
        front[0], front[1], front[2], front[3], front[4], front[5], front[6], front[7],
    ]);
    Some((number, rest))
}

/// The number of the two bytes at a place.
pub fn u16_in(bytes: &[u8], at: usize) -> u16
    requires { at + 2 ≤ length bytes.now }
    ensures { result ≡ u16_in bytes.now at }
{
    u16::from_le_bytes([bytes[at], bytes[at + 1]])
}

/// The number of the four bytes at a place.
pub fn u32_in(bytes: &[u8], at: usize) -> u32
    requires { at + 4 ≤ length bytes.now }
    ensures { result ≡ u32_in bytes.now at }
{
    u32::from(u16_in(bytes, at)) + 65_536 * u32::from(u16_in(bytes, at + 2))
}

/// The number of the eight bytes at a place.
pub fn u64_in(bytes: &[u8], at: usize) -> u64
    requires { at + 8 ≤ length bytes.now }
    ensures { result ≡ u64_in bytes.now at }
{
    u64::from(u32_in(bytes, at)) + 4_294_967_296 * u64::from(u32_in(bytes, at + 4))
}

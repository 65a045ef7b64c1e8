//! The header of an entry, its 24 bytes, and the sum that it tells (access/xlogrecord.h).

ghost use Rattle.std.specs.Prelude.{◌≡◌, ◌++◌, take};
ghost use Rattle.std.specs.Option.{option_map};
ghost use Rattle.wal_crc.specs.Crc.{crc32c};
ghost use Rattle.wal_pages.specs.wal_heads.Header.{entry_at, header_at, parts_at, entry_sum, is_linked, form_of};

use lsn_core::Lsn;
use lsn_core::byte_words::{u8_at, u16_at, u32_at, u64_at};
use wal_crc::Crc;

/// The least total length of an entry, which is its header's.
pub const LEAST_TOTAL: u32 = 24;

/// The greatest total length of an entry (profile).
pub const MOST_TOTAL: u32 = 4_194_304;

/// The header's fields behind its total length: the transaction, the start of the entry before, the
/// info byte, the resource manager, and the sum.
#[derive(Clone, Copy, Debug)]
pub struct Header {
    pub xid: u32,
    pub prev: u64,
    pub info: u8,
    pub manager: u8,
    pub crc: u32,
}

/// What kind of entry a header announces, by its manager and the upper four bits of its info byte.
#[derive(Clone, Copy, Debug)]
pub enum Form {
    Shutdown,
    Online,
    RedoMark,
    NoOp,
    BackupEnd,
    Images,
    Generic,
    Create,
    Truncate,
    /// A commit that tells its time alone.
    Commit,
    /// A commit that tells more.
    CommitMore,
}

/// The bytes of the entry at the front, as many as its total length tells. None exactly where that
/// is below 24 or above 4,194,304, or where so many bytes aren't there.
#[tactic(auto, unfolding(crate::specs::wal_heads::Header::entry_at))]
pub fn entry_of(bytes: &[u8]) -> Option<&[u8]>
    ensures { option_map (λ x. x.now) result ≡ entry_at bytes.now }
{
    let (total, _) = u32_at(bytes)?;
    if total < LEAST_TOTAL || total > MOST_TOTAL || total as usize > bytes.len() {
        return None;
    }
    Some(&bytes[..total as usize])
}

/// The header, and the bytes behind it. Its total length and its bytes 18 and 19 may be any.
#[tactic(auto, unfolding(crate::specs::wal_heads::Header::header_at))]
pub fn header_of(bytes: &[u8]) -> Option<(Header, &[u8])>
    ensures { option_map (λ x. (x.0, x.1.now)) result ≡ header_at bytes.now }
{
    let (_, rest) = u32_at(bytes)?;
    let (xid, rest) = u32_at(rest)?;
    let (prev, rest) = u64_at(rest)?;
    let (info, rest) = u8_at(rest)?;
    let (manager, rest) = u8_at(rest)?;
    let (_, rest) = u16_at(rest)?;
    let (crc, rest) = u32_at(rest)?;
    let header = Header {
        xid,
        prev,
        info,
        manager,
        crc,
    };
    Some((header, rest))
}

/// The header of the entry at the front, and the entry's bytes behind it. None exactly where there
/// is no entry of a good total length.
#[tactic(auto, unfolding(crate::specs::wal_heads::Header::parts_at))]
pub fn parts_of(bytes: &[u8]) -> Option<(Header, &[u8])>
    ensures { option_map (λ x. (x.0, x.1.now)) result ≡ parts_at bytes.now }
{
    header_of(entry_of(bytes)?)
}

/// The first 20 bytes, which the sum covers.
pub fn summed_front(bytes: &[u8]) -> &[u8]
    ensures { result.now ≡ take 20 bytes.now }
{
    &bytes[..bytes.len().min(20)]
}

/// Whether an entry that tells this link may stand behind one that starts at `prev`.
pub fn is_linked(prev: Option<Lsn>, at: u64) -> bool
    ensures { result ≡ is_linked prev at }
{
    match prev {
        None => true,
        Some(prev) => prev.0 == at,
    }
}

/// The CRC-32C of the bytes behind the header and then of the header's first 20 bytes.
pub fn sum_of(front: &[u8], body: &[u8]) -> u32
    ensures sum { result ≡ crc32c (body.now ++ front.now) }
    ensures held { result ≡ entry_sum front.now body.now }
{
    let mut crc = Crc::new();
    crc.add(body);
    crc.add(front);
    crc.value()
}

/// The form of a manager and an info byte. None exactly where they are those of no kind.
pub fn form_of(manager: u8, info: u8) -> Option<Form>
    ensures { result ≡ form_of manager info }
{
    match (manager, info / 16) {
        (0, 0x0) => Some(Form::Shutdown),
        (0, 0x1) => Some(Form::Online),
        (0, 0x2) => Some(Form::NoOp),
        (0, 0x5) => Some(Form::BackupEnd),
        (0, 0xB) => Some(Form::Images),
        (0, 0xE) => Some(Form::RedoMark),
        (1, 0x0) => Some(Form::Commit),
        (1, 0x8) => Some(Form::CommitMore),
        (2, 0x1) => Some(Form::Create),
        (2, 0x2) => Some(Form::Truncate),
        (20, 0x0) => Some(Form::Generic),
        _ => None,
    }
}

//! Sums of bytes: CRC-32C, by pieces of several lengths, and SHA-256 of four messages side by side.
//! The expected values are those of the formats' documents, of a CRC-32C bit by bit in Python, and
//! of Python's `hashlib`.

use lsn_core::NoMemory;
use sha_lanes::Lanes;
use std::alloc::Global;
use wal_crc::Crc;

/// Bytes of which the messages are parts.
fn all_bytes(alloc: Global) -> Result<Vec<u8>, NoMemory> {
    let mut bytes = Vec::new(alloc);
    for i in 0..1100u32 {
        bytes.push((i * i * 7 % 251) as u8)?;
    }
    Ok(bytes)
}

/// The message of a lane: so many of the bytes from its number on, as far as there are so many.
fn message_of(bytes: &[u8], lane: usize, length: usize) -> &[u8] {
    let from = bytes.get(lane..).unwrap_or(&[]);
    from.get(..length).unwrap_or(from)
}

/// Bytes and their sums.
static SUMS: [(&[u8], u32); 6] = [
    (b"", 0x00000000),
    (b"123456789", 0xe3069283),
    (b"The quick brown fox jumps over the lazy dog", 0x22620404),
    (&[0; 32], 0x8a9136aa),
    (&[0xff; 32], 0x62a8ab43),
    (
        &[
            0, 1, 2, 3, 4, 5, 6, 7, 8, 9, 10, 11, 12, 13, 14, 15, 16, 17, 18, 19, 20, 21, 22, 23,
            24, 25, 26, 27, 28, 29, 30, 31,
        ],
        0x46dd794e,
    ),
];

/// How many of the bytes of `all_bytes`, from the first one on, have which sum: lengths about one
/// and several of the pieces that are taken at once.
static FRONTS: [(usize, u32); 16] = [
    (1, 0x527d5351),
    (8, 0xc6486dda),
    (15, 0x0055e4dd),
    (16, 0x4a0ca26d),
    (17, 0xbf34fd68),
    (127, 0xf3743b1c),
    (128, 0x815dc6c1),
    (255, 0xacd90e9a),
    (256, 0xda030a7d),
    (257, 0x604fc107),
    (271, 0x90f5bf83),
    (272, 0x373c8457),
    (511, 0x1cc02d04),
    (512, 0x26eb9adc),
    (513, 0x29e7579c),
    (1000, 0xc2287c10),
];

fn sum_of(bytes: &[u8]) -> u32 {
    let mut crc = Crc::new();
    crc.add(bytes);
    crc.value()
}

#[test]
fn known_sums(rt: HostRuntime) -> Result<(), NoMemory> {
    for (bytes, sum) in &SUMS {
        assert!(rt; sum_of(bytes) == *sum, "{bytes:?}");
    }
    let bytes = all_bytes(rt.alloc())?;
    for (length, sum) in &FRONTS {
        assert!(rt; sum_of(message_of(&bytes, 0, *length)) == *sum, "{length}");
    }
    Ok(())
}

/// A message's length and its digest.
type Row<'a> = (usize, &'a [u8; 32]);

/// Messages of four lanes, each of so many of the bytes from its lane's number on.
static ROWS: [[Row; 4]; 2] = [
    [
        (
            0,
            b"\
            \xe3\xb0\xc4\x42\x98\xfc\x1c\x14\x9a\xfb\xf4\xc8\x99\x6f\xb9\x24\
            \x27\xae\x41\xe4\x64\x9b\x93\x4c\xa4\x95\x99\x1b\x78\x52\xb8\x55",
        ),
        (
            3,
            b"\
            \x22\x75\xa8\x62\xe3\x9b\xd8\xbb\x48\xf5\x42\x39\x99\xe3\xfd\xbb\
            \x06\x2b\x38\xf0\xdb\x4c\xdb\x87\x95\x83\xa2\x27\x9e\xca\x58\x2b",
        ),
        (
            55,
            b"\
            \xb9\x6e\x3e\x0b\x9b\x5b\x48\x2e\xd9\xde\xc5\xdd\x9e\x64\x22\xa2\
            \x39\xba\x0f\xd4\xbd\x9d\x79\x1e\x62\x0a\xec\x38\xea\x2e\x2f\x2f",
        ),
        (
            56,
            b"\
            \x3b\x65\x2f\x21\x48\xc0\x5c\x8f\x78\xb8\xa2\x06\xdd\xa3\xa8\x5d\
            \x1e\x95\x24\x16\x52\x64\x89\x4b\x74\x52\x71\x6c\x50\x8f\x4c\x74",
        ),
    ],
    [
        (
            64,
            b"\
            \x54\xb6\x73\x27\xb3\x3f\xed\x11\x7f\x28\x68\xf3\xac\x90\x9c\xd7\
            \x86\x24\x06\x34\x84\x97\x3b\x7d\xb9\x10\xdb\x74\x61\x87\xdc\xb1",
        ),
        (
            119,
            b"\
            \xd6\x67\x24\x4f\x92\x06\x9a\x22\xbc\x6d\xc6\x82\x94\x24\x24\x11\
            \x5b\x7f\xad\x0d\xaf\xa1\x94\x66\x60\x2c\x85\xaf\x89\xca\x9e\x81",
        ),
        (
            1000,
            b"\
            \x13\xaa\xc3\xfc\x03\xa6\x7e\x6d\xf6\x99\x3a\xcc\x61\x59\xd6\x7a\
            \x28\x3b\x2b\x96\xd4\x23\x05\xc1\xf7\x84\x8a\xab\x1b\x5f\xb2\xf1",
        ),
        (
            128,
            b"\
            \x44\xc2\x3d\x0c\x73\x85\x2a\x36\x56\xd7\xd3\xd9\xb9\xba\x78\x0c\
            \xbf\x99\xd5\x84\x79\xc7\x09\x96\xa3\x16\x26\xd9\x19\x6f\x6a\xdf",
        ),
    ],
];

/// A whole block of a message, or zeros behind the last one.
fn block_of(message: &[u8], number: usize) -> [u8; 64] {
    let (blocks, _) = message.as_chunks::<64>();
    blocks.get(number).copied().unwrap_or([0; 64])
}

/// Whether a lane's digest is this one, of a message whose whole blocks it has seen.
fn is_digest(lanes: &Lanes, bytes: &[u8], lane: usize, row: &Row) -> bool {
    let message = message_of(bytes, lane, row.0);
    let (_, rest) = message.as_chunks::<64>();
    lane < 4 && rest.len() < 64 && lanes.digest(lane, rest, message.len() as u64) == *row.1
}

/// Each lane sees its message's block of this number.
fn see_blocks(lanes: &mut Lanes, bytes: &[u8], rows: &[Row; 4], number: usize) {
    let [a, b, c, d] = *rows;
    lanes.see(
        &block_of(message_of(bytes, 0, a.0), number),
        &block_of(message_of(bytes, 1, b.0), number),
        &block_of(message_of(bytes, 2, c.0), number),
        &block_of(message_of(bytes, 3, d.0), number),
    );
}

/// How many digests of four messages, seen side by side, are these.
fn count_digests(bytes: &[u8], rows: &[Row; 4]) -> usize {
    let mut lanes = Lanes::new();
    let mut found = 0usize;
    for number in 0..17 {
        for (lane, row) in rows.iter().enumerate() {
            if row.0 / 64 == number && is_digest(&lanes, bytes, lane, row) {
                found = found.saturating_add(1);
            }
        }
        see_blocks(&mut lanes, bytes, rows, number);
    }
    found
}

#[test]
fn four_messages_have_their_digests(rt: HostRuntime) -> Result<(), NoMemory> {
    let bytes = all_bytes(rt.alloc())?;
    for rows in &ROWS {
        assert!(rt; count_digests(&bytes, rows) == 4);
    }
    Ok(())
}

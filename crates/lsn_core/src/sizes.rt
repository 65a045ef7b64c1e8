//! Sizes and limits of pages, files and the WAL.

/// The bytes of a page, of a fork or of the WAL (PostgreSQL manual, Preset Options, block_size and
/// wal_block_size).
pub const PAGE: u64 = 8192;

/// The bytes of the header of a WAL page (PostgreSQL manual, WAL Internals; profile).
pub const SHORT_HEAD: u64 = 24;

/// The bytes of the header of a segment's first WAL page.
pub const LONG_HEAD: u64 = 40;

/// The number at the front of each WAL page (profile).
pub const PAGE_MAGIC: u16 = 0xD116;

/// The most blocks in one file of a fork: 1 GiB (PostgreSQL manual, Preset Options, segment_size).
pub const MOST_RELSEG: u32 = 131_072;

/// The number of the last segment that a WAL may have (profile).
pub const MOST_SEGMENTS: u64 = 1_048_576;

/// The most blocks of a fork that a store's commands and records name: block numbers stand below
/// it (profile).
pub const MOST_BLOCKS: u32 = 32_768;

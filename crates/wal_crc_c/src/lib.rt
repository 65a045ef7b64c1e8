//! CRC-32C for a caller in C, as bench/ measures it.
//!
//! `wal_crc32c` gives the sum that `specs/Crc.antt` of `wal_crc` says. It is a static library of
//! that one function, which `rt lib` builds.
//!
//! Left to the caller, of whom no proof knows: that the pointer and the length are those of bytes
//! that may be read.
#![tactic(auto)]

ghost use Rattle.std.specs.Prelude.{◌≡◌};
ghost use Rattle.wal_crc.specs.Crc.{crc32c};

use wal_crc::Crc;

/// The CRC-32C of the bytes, which C passes as a pointer and a length.
#[unsafe(no_mangle)]
pub extern "C" fn wal_crc32c(bytes: &[u8]) -> u32
    ensures { result ≡ crc32c bytes.now }
{
    let mut crc = Crc::new();
    crc.add(bytes);
    crc.value()
}

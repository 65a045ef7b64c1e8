//! Places.

ghost use Rattle.std.specs.Prelude.{◌≡◌, ◌<◌, ◌^◌};
ghost use Rattle.lsn_core.specs.byte_words.Numbers.{aligned};

/// A place rounded up to a multiple of 8, as entries of the WAL are (PostgreSQL's MAXALIGN).
pub fn aligned(at: u64) -> u64
    requires { at < 2 ^ 63 }
    ensures { result ≡ aligned at }
{
    (at + 7) / 8 * 8
}

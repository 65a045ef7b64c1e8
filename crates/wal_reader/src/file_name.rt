//! The name of a segment file.

ghost use Rattle.std.specs.Prelude.{◌≡◌, IsSome, IfSome, ◌↔◌, length};

use std::marker::Model;

/// The name of a segment file, 24 bytes (PostgreSQL manual, WAL Internals). Contracts see its
/// bytes.
#[derive(Clone, Copy, Debug, PartialEq, Eq)]
pub struct FileName {
    bytes: [u8; 24],
}

impl Model for FileName {
    ghost use Rattle.std.specs.Prelude.{List, ℕ, ◌≡◌, length};

    ghost Value = { List ℕ };

    ghost view = { λ n. n.bytes };

    ghost invariant = { λ n. length n.bytes ≡ 24 };

    ghost inverse = { λ bytes. record { bytes = bytes } };
}

impl FileName {
    /// The name of these bytes. None exactly where they aren't 24.
    pub fn new(bytes: &[u8]) -> Option<FileName>
        ensures some { IsSome result ↔ (length bytes.now ≡ 24) }
        ensures value { IfSome result (λ name. name ≡ bytes.now) }
    {
        match <[u8; 24]>::try_from(bytes) {
            Ok(bytes) => Some(FileName { bytes }),
            Err(_) => None,
        }
    }

    /// The name's bytes.
    pub fn as_bytes(&self) -> &[u8]
        ensures { result.now ≡ self.now }
    {
        &self.bytes
    }
}

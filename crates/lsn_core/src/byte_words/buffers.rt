//! Buffers.

ghost use Rattle.std.specs.Prelude.{◌≡◌, length, replicate, IfOk};

use std::alloc::{AllocError, Global};

/// So many zeros, as a buffer to read into.
pub fn zeros(alloc: Global, size: usize) -> Result<Vec<u8>, AllocError>
    ensures size { IfOk result (λ bytes. length bytes.items ≡ size) }
    ensures zeros { IfOk result (λ bytes. bytes.items ≡ replicate size 0) }
{
    vec![in alloc; 0u8; size]
}

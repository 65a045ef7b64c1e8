//! The script of the input.

ghost use Rattle.std.specs.Prelude.{◌+◌, ◌<◌, IfOk};
ghost use Rattle.lsn_core.specs.Causes.{HasCause};
ghost use Rattle.scripts.specs.Reasons.{script_limit};
ghost use Rattle.run_command.specs.Input.{TakesAtMost};
ghost use Rattle.run_command.specs.Inner.{IsReadOn, IsInputOf};

use lsn_core::AreaFault;
use lsn_core::byte_words::zeros;
use scripts::SCRIPT_LIMIT;
use std::alloc::Global;
use vault::Source;

/// How many bytes of the input are looked at: one more than a script may have (profile).
const LIMIT: usize = SCRIPT_LIMIT + 1;

/// How many bytes one read asks for at most: a longest script comes in 64 pieces.
const PIECE: usize = SCRIPT_LIMIT / 64;

/// Reads behind the bytes that were read, at most so many, and says whether the input has ended.
fn read_more<I: Source>(
    alloc: Global,
    input: &mut I,
    bytes: &mut Vec<u8>,
    most: usize,
) -> Result<bool, AreaFault>
    requires { 0 < most }
    ensures more { IfOk result (IsReadOn I.Source input.old input.new bytes.old bytes.new most) }
    ensures taken { TakesAtMost most (I.left input.old) (I.left input.new) }
    ensures cause { HasCause (I.faults input.old) (I.faults input.new) result }
{
    let mut piece = zeros(alloc, most.min(PIECE))?;
    let count = input.read(&mut piece)? as usize;
    bytes.extend_from_slice(&piece[..count])?;
    Ok(count == 0)
}

/// The input to its end; or, where that is longer than a script may be, one byte more than that.
/// What is behind these bytes is left. It holds what it read, and one piece.
pub fn read_input<I: Source>(alloc: Global, input: &mut I) -> Result<Vec<u8>, AreaFault>
    ensures input { IfOk result (λ bytes. IsInputOf I.Source input.old input.new bytes.items) }
    ensures taken { TakesAtMost (script_limit + 1) (I.left input.old) (I.left input.new) }
    ensures cause { HasCause (I.faults input.old) (I.faults input.new) result }
{
    let mut bytes = Vec::new(alloc);
    while bytes.len() < LIMIT {
        let most = LIMIT - bytes.len();
        if read_more(alloc, input, &mut bytes, most)? {
            return Ok(bytes);
        }
    }
    Ok(bytes)
}

//! The input that is followed.

ghost use Rattle.std.specs.Prelude.{◌≡◌, ◌≤◌, ◌<◌, [], take, drop, length, Err, IfOk, IfSome};
ghost use Rattle.std.specs.Option.{option_map, unwrap_or};
ghost use Rattle.lsn_core.specs.Causes.{HasCause, Rose};
ghost use Rattle.lsn_core.specs.declared.fault.AreaFault.TheVariants as area;
ghost use Rattle.wal_follow.specs.Following.{StandsBehind};
ghost use Rattle.follow_command.specs.declared.input.InputFault.TheVariants as refusal;
ghost use Rattle.follow_command.specs.Input.{most_input, IsInputFront, FeedAnswer, InputAnswer};

use lsn_core::byte_words::zeros;
use lsn_core::{AreaFault, Lsn, NoMemory};
use std::alloc::Global;
use vault::Source;
use wal_follow::{FollowFault, Follower};

/// How many bytes of an input are followed at most (profile).
pub const MOST_INPUT: u64 = 268_435_456;

/// How many bytes one read asks for at most.
const PIECE: usize = 65_536;

/// Why an input isn't followed.
#[derive(Clone, Copy, Debug, PartialEq, Eq)]
pub enum InputFault {
    /// The input failed, or memory ran out.
    Input(AreaFault),
    /// It has more bytes than so many.
    Long(u64),
    /// The stream's WAL can't be followed, or ends within an entry.
    Wal(FollowFault),
}

impl From<AreaFault> for InputFault {
    ghost from_gives = { λ fault e. e ≡ refusal.Input fault };

    fn from(fault: AreaFault) -> Self {
        InputFault::Input(fault)
    }
}

impl From<NoMemory> for InputFault {
    ghost from_gives = { λ _ e. e ≡ refusal.Input area.NoMemory };

    fn from(_: NoMemory) -> Self {
        InputFault::Input(AreaFault::NoMemory)
    }
}

impl From<FollowFault> for InputFault {
    ghost from_gives = { λ fault e. e ≡ refusal.Wal fault };

    fn from(fault: FollowFault) -> Self {
        InputFault::Wal(fault)
    }
}

/// Reads a piece of an input, of at most so many bytes; none exactly at its end.
fn read_piece<I: Source>(alloc: Global, input: &mut I, most: usize) -> Result<Vec<u8>, AreaFault>
    requires { 0 < most }
    ensures front { IfOk result
        (λ piece. IfSome (I.left input.old) (λ bytes. IsInputFront bytes piece.items)) }
    ensures size { IfOk result (λ piece. length piece.items ≤ most) }
    ensures left { IfOk result
        (λ piece. I.left input.new ≡ option_map (drop (length piece.items)) (I.left input.old)) }
    ensures cause { HasCause (I.faults input.old) (I.faults input.new) result }
{
    let mut piece = zeros(alloc, most)?;
    let count = input.read(&mut piece)? as usize;
    piece.truncate(count);
    Ok(piece)
}

/// The first bytes of a piece, at most so many.
fn first_bytes(piece: &[u8], most: u64) -> &[u8]
    ensures { result.now ≡ take most piece.now }
{
    let count = most.min(piece.len() as u64) as usize;
    &piece[..count]
}

/// Reads one more piece of an input and feeds it, where there is room for so many bytes; none at
/// the input's end. It reads one byte more than there is room for at most.
fn feed_more<I: Source>(
    alloc: Global,
    input: &mut I,
    follower: &mut Follower,
    room: u64,
) -> Result<Option<u64>, InputFault>
    requires { room ≤ most_input }
    ensures answer { IfSome (I.left input.old)
        (λ bytes. FeedAnswer follower.old follower.new room bytes result) }
    ensures left { IfOk result
        (λ fed. I.left input.new ≡ option_map (drop (unwrap_or fed 0)) (I.left input.old)) }
    ensures more { IfOk result (λ fed. IfSome fed (λ count. 0 < count)) }
    ensures within { IfOk result (λ fed. IfSome fed (λ count. count ≤ room)) }
    ensures later { I.faults input.old ≤ I.faults input.new }
    ensures failed { result ≡ Err (refusal.Input area.Failed)
        → Rose (I.faults input.old) (I.faults input.new) }
{
    let piece = read_piece(alloc, input, PIECE.min(room as usize + 1))?;
    if piece.is_empty() {
        return Ok(None);
    }
    let front = first_bytes(&piece, room);
    follower.feed(front)?;
    if front.len() < piece.len() {
        return Err(InputFault::Long(MOST_INPUT));
    }
    Ok(Some(piece.len() as u64))
}

/// Reads an input to its end, of at most so many bytes, and feeds it to a follower that got no
/// byte yet; and answers where the archive of the stream ends. `Wal` and `Long` only where the
/// bytes before are not refused. Behind the first bytes, so many, it reads one at most.
pub fn follow_input<I: Source>(
    alloc: Global,
    input: &mut I,
    follower: &mut Follower,
) -> Result<Lsn, InputFault>
    requires { StandsBehind follower.old [] }
    ensures answer { IfSome (I.left input.old)
        (λ bytes. InputAnswer follower.old follower.new bytes result) }
    ensures ended { IfOk result
        (λ end. I.left input.new ≡ option_map (λ bytes. []) (I.left input.old)) }
    ensures later { I.faults input.old ≤ I.faults input.new }
    ensures failed { result ≡ Err (refusal.Input area.Failed)
        → Rose (I.faults input.old) (I.faults input.new) }
{
    let mut total: u64 = 0;
    while let Some(count) = feed_more(alloc, input, follower, MOST_INPUT - total)? {
        total += count;
    }
    Ok(follower.finish()?)
}

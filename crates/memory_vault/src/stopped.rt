//! What a stop keeps of the changes of an area in memory.

ghost use Rattle.std.specs.Prelude.{◌≡◌, ◌≤◌, length, IfOk};
ghost use Rattle.memory_vault.specs.Stopped.{pick_of, kept_piece, IsSplitAt};

use lsn_core::NoMemory;
use std::alloc::Global;
use vault::Change;

/// What a stop keeps of what happened since the last sync.
#[derive(Clone, Copy, Debug)]
pub enum Pick {
    /// Nothing of it.
    Nothing,
    /// All of it.
    All,
    /// Of each write the first half of its bytes.
    FirstHalves,
    /// Of each write as many bytes 0xA5.
    Noise,
}

impl Pick {
    /// The pick with this number modulo 4.
    pub fn of(number: u64) -> Pick
        ensures { result ≡ pick_of number }
    {
        match number % 4 {
            0 => Pick::Nothing,
            1 => Pick::All,
            2 => Pick::FirstHalves,
            _ => Pick::Noise,
        }
    }

    /// What it keeps of a piece that was written.
    pub fn kept(self, alloc: Global, piece: &[u8]) -> Result<Vec<u8>, NoMemory>
        ensures { IfOk result (λ kept. kept.items ≡ kept_piece self piece.now) }
    {
        let mut kept = Vec::new(alloc);
        match self {
            Pick::Nothing => {}
            Pick::All => kept.extend_from_slice(piece)?,
            Pick::FirstHalves => kept.extend_from_slice(&piece[..piece.len() / 2])?,
            Pick::Noise => kept.resize(piece.len(), 0xa5)?,
        }
        Ok(kept)
    }
}

/// How many changes there are up to the last sync.
pub fn durable_count(changes: &[Change]) -> usize
    ensures within { result ≤ length changes.now }
    ensures splits { IsSplitAt result changes.now }
{
    let mut count = changes.len();
    while count > 0 && !changes[count - 1].is_sync() {
        count -= 1;
    }
    count
}

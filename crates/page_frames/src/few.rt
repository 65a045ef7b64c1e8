//! Up to four blocks.

ghost use Rattle.std.specs.Prelude.{◌≡◌, ◌<◌, ◌≤◌, [], ◌∷◌, ◌++◌, ◌-◌, length, IfSome, IfNone, slice_get, Some};

use lsn_core::BlockId;
use std::marker::Model;

/// Up to four blocks. Contracts see a list.
#[derive(Drop)]
pub struct Few {
    blocks: [BlockId; 4],
    count: usize,
}

impl Model for Few {
    ghost use Rattle.std.specs.Prelude.{List, take, ◌≤◌};
    ghost use Rattle.lsn_core.specs.declared.ids.BlockId.{BlockId};

    ghost Value = { List BlockId };

    ghost view = { λ f. take f.count f.blocks };

    ghost invariant = { λ f. f.count ≤ 4 };
}

impl Few {
    /// None; the place of each is filled with this one.
    pub fn none(filler: BlockId) -> Few
        ensures { result ≡ [] }
    {
        Few {
            blocks: [filler; 4],
            count: 0,
        }
    }

    /// How many there are.
    pub fn len(&self) -> usize
        ensures len { result ≡ length self.now }
    {
        self.blocks[..self.count].len()
    }

    /// One of them, counted from 0.
    pub fn get(&self, at: usize) -> Option<BlockId>
        ensures { result ≡ slice_get self.now at }
    {
        if at < self.count {
            Some(self.blocks[at])
        } else {
            None
        }
    }

    /// The last of them.
    pub fn last(&self) -> Option<BlockId>
        ensures { result ≡ slice_get self.now (length self.now - 1) }
    {
        self.as_slice().last().copied()
    }

    /// All of them.
    pub fn as_slice(&self) -> &[BlockId]
        ensures { result.now ≡ self.now }
    {
        &self.blocks[..self.count]
    }

    /// One more.
    pub fn push(&mut self, at: BlockId)
        requires { length self.old < 4 }
        ensures { self.new ≡ self.old ++ (at ∷ []) }
    {
        self.blocks[self.count] = at;
        self.count += 1;
    }
}

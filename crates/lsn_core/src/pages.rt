//! A store of pages behind a trait.

ghost use Rattle.std.specs.Prelude.{◌<◌, ◌-◌, ◌^◌, ℕ, IfOk, OnOk};
ghost use Rattle.lsn_core.specs.Causes.{HasCause};
ghost use Rattle.lsn_core.specs.Store.{Store};
ghost use Rattle.lsn_core.specs.Blocks.{page_put, with_fork, with_cut, without_fork};
ghost use Rattle.lsn_core.specs.Shown.{Turns, CountsBlocks, ReadsBlock};

use crate::fault::AreaFault;
use crate::ids::{BlockId, ForkId};

/// A map from fork to a list of pages of 8192 bytes, with a count of faults. Each call may fail:
/// `Failed` where what lies below failed, and the count rose, `NoMemory` where memory ran out. Of
/// the pages behind a failed call nothing is said.
pub trait Pages {
    /// It shows this store; one that doesn't tell shows none.
    ghost shows: { Self → Store → Type 0 };

    /// What every call keeps of what lies below the pages.
    ghost keeps: { Self → Self → Type 0 };

    /// How often a call failed.
    ghost faults: { Self → ℕ };

    /// How many blocks a fork has. None exactly where there is no such fork.
    fn blocks(&mut self, fork: ForkId) -> Result<Option<u32>, AreaFault>
        ensures blocks { IfOk result (CountsBlocks (shows self.old) fork) }
        ensures same { Turns shows self.old self.new (λ s. s) }
        ensures kept { keeps self.old self.new }
        ensures cause { HasCause (faults self.old) (faults self.new) result };

    /// Reads a block. False exactly where there is no such block; `into` is then as before.
    fn read_block(&mut self, at: BlockId, into: &mut [u8; 8192]) -> Result<bool, AreaFault>
        ensures read { IfOk result (ReadsBlock (shows self.old) at into.old into.new) }
        ensures same { Turns shows self.old self.new (λ s. s) }
        ensures kept { keeps self.old self.new }
        ensures cause { HasCause (faults self.old) (faults self.new) result };

    /// Writes a block, whose number is below 4,294,967,295. It makes a missing fork, and adds zero
    /// pages up to the block.
    fn write_block(&mut self, at: BlockId, from: &[u8; 8192]) -> Result<(), AreaFault>
        requires { at.block < 2 ^ 32 - 1 }
        ensures written { OnOk result (Turns shows self.old self.new (page_put at from.now)) }
        ensures kept { keeps self.old self.new }
        ensures cause { HasCause (faults self.old) (faults self.new) result };

    /// Makes an empty fork, where there is none of that name.
    fn make(&mut self, fork: ForkId) -> Result<(), AreaFault>
        ensures made { OnOk result (Turns shows self.old self.new (λ s. with_fork s fork)) }
        ensures kept { keeps self.old self.new }
        ensures cause { HasCause (faults self.old) (faults self.new) result };

    /// Cuts a fork to so many blocks, where it has more.
    fn cut(&mut self, fork: ForkId, to: u32) -> Result<(), AreaFault>
        ensures cut { OnOk result (Turns shows self.old self.new (λ s. with_cut s fork to)) }
        ensures kept { keeps self.old self.new }
        ensures cause { HasCause (faults self.old) (faults self.new) result };

    /// Removes a fork, where there is one of that name.
    fn remove(&mut self, fork: ForkId) -> Result<(), AreaFault>
        ensures gone { OnOk result (Turns shows self.old self.new (λ s. without_fork s fork)) }
        ensures kept { keeps self.old self.new }
        ensures cause { HasCause (faults self.old) (faults self.new) result };

    /// No call at all keeps what lies below.
    ghost keeps_refl: { (p : Self) → keeps p p };

    /// Calls one after the other keep what each keeps.
    ghost keeps_trans: { (a b c : Self) → keeps a b → keeps b c → keeps a c };
}

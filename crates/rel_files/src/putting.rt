//! Pages put at blocks of a fork.

ghost use Rattle.std.specs.Prelude.{◌≡◌, ◌-◌, ◌<◌, ◌^◌, OnOk, OnErr};
ghost use Rattle.lsn_core.specs.byte_words.Pieces.{zero_page};
ghost use Rattle.lsn_core.specs.Causes.{HasCause};
ghost use Rattle.vault.specs.Frame.{ChangesOnly, Adds};
ghost use Rattle.rel_files.specs.Events.{IsPut};
ghost use Rattle.rel_files.specs.Forks.{IsForkPath};
ghost use Rattle.rel_files.specs.Inside.{Puts, TearsPut};

use crate::one_file::OneFile;
use crate::relseg::Relseg;
use lsn_core::{AreaFault, BlockId};
use std::alloc::Global;
use vault::Vault;

/// Pages put at blocks of a fork.
pub trait Putting: Vault {
    /// Puts a page at a block of a fork of so many whole pages. Missing pages before it are written
    /// as zero pages, one after the other.
    fn put_page(
        &mut self,
        alloc: Global,
        relseg: Relseg,
        count: u32,
        at: &BlockId,
        from: &[u8; 8192],
    ) -> Result<(), AreaFault>
        requires { at.now.block < 2 ^ 32 - 1 };
}

impl<V: Vault> Putting for V {
    fn put_page(
        &mut self,
        alloc: Global,
        relseg: Relseg,
        count: u32,
        at: &BlockId,
        from: &[u8; 8192],
    ) -> Result<(), AreaFault>
        requires { at.now.block < 2 ^ 32 - 1 }
        ensures put { OnOk result (Puts V.Vault relseg count at.now from.now self.old self.new) }
        ensures torn { OnErr result (TearsPut V.Vault relseg count at.now self.old self.new) }
        ensures frame { ChangesOnly V.Vault IsForkPath self.old self.new }
        ensures events { Adds (IsPut relseg count at.now) (V.past self.old) (V.past self.new) }
        ensures cause { HasCause (V.faults self.old) (V.faults self.new) result }
    {
        for block in count..at.block {
            let zeros = zero_page();
            let fork = at.fork;
            self.write_page(alloc, relseg, &BlockId { fork, block }, &zeros)?;
        }
        self.write_page(alloc, relseg, at, from)
    }
}

/// A page of zeros.
#[tactic(auto, unfolding(lsn_core::specs::byte_words::Pieces::zero_page))]
fn zero_page() -> [u8; 8192]
    ensures { result ≡ zero_page }
{
    [0; 8192]
}

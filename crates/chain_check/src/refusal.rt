//! Why a directory isn't taken, and how far its check came.

ghost use Rattle.std.specs.Prelude.{◌≡◌};
ghost use Rattle.chain_check.specs.declared.fault.ChainFault.TheVariants as chain;
ghost use Rattle.chain_check.specs.Refusals.{refusal_of, chain_fault_of};

use crate::fault::ChainFault;
use lsn_core::{AreaFault, NoMemory};
use std::alloc::AllocError;

/// The first fault of a backup's directory, and how many files were found as listed before it.
#[derive(Debug, Drop)]
pub struct Refusal {
    /// The first fault.
    pub fault: ChainFault,
    /// How many of the rows, in their order, have files as listed before the first whose file
    /// isn't; all of them, where each is; none, where the manifest is refused. After `Failed` and
    /// `NoMemory` any number.
    pub checked: u64,
}

impl From<ChainFault> for Refusal {
    ghost from_gives = { λ fault e. e ≡ refusal_of fault };

    fn from(fault: ChainFault) -> Self {
        Refusal { fault, checked: 0 }
    }
}

impl From<AreaFault> for Refusal {
    ghost from_gives = { λ fault e. e ≡ refusal_of (chain_fault_of fault) };

    fn from(fault: AreaFault) -> Self {
        Refusal::from(ChainFault::from(fault))
    }
}

impl From<NoMemory> for Refusal {
    ghost from_gives = { λ _ e. e ≡ refusal_of chain.NoMemory };

    fn from(_: NoMemory) -> Self {
        Refusal::from(ChainFault::NoMemory)
    }
}

impl From<AllocError> for Refusal {
    ghost from_gives = { λ _ e. e ≡ refusal_of chain.NoMemory };

    fn from(_: AllocError) -> Self {
        Refusal::from(ChainFault::NoMemory)
    }
}

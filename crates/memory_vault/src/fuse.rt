//! A fuse that areas share.

ghost use Rattle.std.specs.Prelude.{◌≡◌, IfOk, false, true, not};

use lsn_core::NoMemory;
use std::alloc::Global;
use std::sync::Arc;
use std::sync::atomic::{AtomicU64, Ordering};

/// A share of a fuse: so many calls of all that share it pass, and every later one fails. What the
/// shared count is at a moment, no contract can say; once a call of this share failed, every later
/// one fails.
#[derive(Drop)]
pub struct Fuse {
    /// How many more calls pass.
    left: Arc<AtomicU64, Global>,
    /// Whether a call of this share failed.
    burned: bool,
}

impl Fuse {
    /// A fuse through which so many calls pass.
    pub fn new(alloc: Global, calls: u64) -> Result<Fuse, NoMemory>
        ensures { IfOk result (λ fuse. fuse.burned ≡ false) }
    {
        Ok(Fuse {
            left: Arc::new(alloc, AtomicU64::new(calls))?,
            burned: false,
        })
    }

    /// Another share of it.
    pub fn share(&self) -> Result<Fuse, NoMemory>
        ensures { IfOk result (λ fuse. fuse.burned ≡ false) }
    {
        Ok(Fuse {
            left: Arc::try_clone(&self.left)?,
            burned: false,
        })
    }

    /// Counts a call, and says whether it passes.
    pub fn passes(&mut self) -> bool
        ensures burns { self.new.burned ≡ not result }
        ensures stays { self.old.burned ≡ true → result ≡ false }
    {
        if !self.burned {
            let order = Ordering::SeqCst;
            self.burned = self
                .left
                .fetch_update(order, order, |left| left.checked_sub(1))
                .is_err();
        }
        !self.burned
    }
}

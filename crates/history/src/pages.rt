//! A store of pages in memory, behind calls that may fail.

ghost use Rattle.std.specs.Prelude.{◌≡◌};

use crate::page_map::PageMap;
use lsn_core::{AreaFault, BlockId, ForkId, NoMemory, Pages};

/// It shows the store that it is. A call fails where memory ran out, and where a fork has
/// more blocks than a u32 counts, which no memory holds.
impl Pages for PageMap {
    ghost shows = { λ m s. m ≡ s };

    ghost keeps = { λ before behind. Unit {0} };

    ghost faults = { λ m. 0 };

    ghost keeps_refl = { λ m. tt };

    ghost keeps_trans = { λ a b c first second. tt };

    fn blocks(&mut self, fork: ForkId) -> Result<Option<u32>, AreaFault> {
        match PageMap::blocks(self, &fork) {
            Some(count) => Ok(Some(u32::try_from(count).map_err(|_| NoMemory)?)),
            None => Ok(None),
        }
    }

    fn read_block(&mut self, at: BlockId, into: &mut [u8; 8192]) -> Result<bool, AreaFault> {
        match self.block(&at) {
            Some(page) => {
                *into = *page;
                Ok(true)
            }
            None => Ok(false),
        }
    }

    fn write_block(&mut self, at: BlockId, from: &[u8; 8192]) -> Result<(), AreaFault> {
        self.put(&at, from)?;
        Ok(())
    }

    fn make(&mut self, fork: ForkId) -> Result<(), AreaFault> {
        self.create(&fork)?;
        Ok(())
    }

    fn cut(&mut self, fork: ForkId, to: u32) -> Result<(), AreaFault> {
        PageMap::cut(self, &fork, to as usize);
        Ok(())
    }

    fn remove(&mut self, fork: ForkId) -> Result<(), AreaFault> {
        self.unmake(&fork);
        Ok(())
    }
}

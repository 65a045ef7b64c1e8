//! An area on the heap.

ghost use Rattle.std.specs.Prelude.{box_value};

use crate::area::Vault;
use lsn_core::{AreaFault, Text};
use std::alloc::Global;
use std::boxed::Box;

/// An area on the heap: a value that holds it has a known size, whatever the area is. It is the
/// area that it holds.
#[derive(Drop)]
pub struct BoxedArea<V: Vault> {
    pub area: Box<V>,
}

impl<V: Vault> Vault for BoxedArea<V> {
    ghost files = { λ boxed. V.files (box_value boxed.area) };

    ghost faults = { λ boxed. V.faults (box_value boxed.area) };

    ghost past = { λ boxed. V.past (box_value boxed.area) };

    ghost tells_alike = { λ a b. V.tells_alike (box_value a.area) (box_value b.area) };

    fn names(&mut self, alloc: Global) -> Result<Vec<Text>, AreaFault> {
        self.area.names(alloc)
    }

    fn size(&mut self, name: &[u8]) -> Result<Option<u64>, AreaFault> {
        self.area.size(name)
    }

    fn read_at(&mut self, name: &[u8], at: u64, into: &mut [u8]) -> Result<u32, AreaFault> {
        self.area.read_at(name, at, into)
    }

    fn write_at(&mut self, name: &[u8], at: u64, piece: &[u8]) -> Result<(), AreaFault> {
        self.area.write_at(name, at, piece)
    }

    fn cut(&mut self, name: &[u8], size: u64) -> Result<(), AreaFault> {
        self.area.cut(name, size)
    }

    fn remove(&mut self, name: &[u8]) -> Result<(), AreaFault> {
        self.area.remove(name)
    }

    fn sync(&mut self) -> Result<(), AreaFault> {
        self.area.sync()
    }
}

//! The four data areas of a store.

use lsn_core::StoreFault;
use vault::{BoxedArea, Vault};

/// The four data areas of a store, by partition.
#[derive(Drop)]
pub struct DataAreas<V: Vault> {
    pub data0: V,
    pub data1: V,
    pub data2: V,
    pub data3: V,
}

/// Why data areas weren't rebuilt, with the areas.
#[derive(Drop)]
pub struct RebuildFault<V: Vault> {
    pub areas: DataAreas<BoxedArea<V>>,
    pub why: StoreFault,
}

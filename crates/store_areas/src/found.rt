//! A store that was found on its areas, or why none was begun.

use crate::areas::StoreAreas;
use data_areas::Partitions;
use journal::HistoryEntry;
use lsn_core::{Settings, WalTip};
use store_faults::BeginWhy;
use timeline::Opened;
use vault::Vault;

/// Why a store was not begun, with its areas.
#[derive(Drop)]
pub struct BeginFault<V: Vault> {
    pub areas: StoreAreas<V>,
    pub why: BeginWhy,
}

/// A store that was found on its areas, and isn't begun yet: the history that its WAL tells, which
/// has no name yet, how many pages that makes and where it ends, and the partitions that hold them.
#[derive(Drop)]
pub struct Found<V: Vault> {
    pub opened: Opened<HistoryEntry>,
    pub settings: Settings,
    pub pages: u64,
    pub tip: WalTip,
    pub wal: V,
    pub parts: Partitions<V>,
}

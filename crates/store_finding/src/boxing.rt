//! The areas of a store, of which the data areas move to the heap and back.

ghost use Rattle.std.specs.Prelude.{◌≡◌, IfOk, IfErr, box_value};
ghost use Rattle.store_finding.specs.Filling.{areas_with};

use data_areas::DataAreas;
use std::alloc::Global;
use std::boxed::Box;
use store_areas::StoreAreas;
use vault::{BoxedArea, Vault};

/// The areas of a store, of which the data areas are on the heap.
#[derive(Drop)]
pub(crate) struct BoxedAreas<V: Vault> {
    pub wal: V,
    pub pages: DataAreas<BoxedArea<V>>,
}

/// Moves the data areas of a store to the heap. Where memory runs out it hands the areas back.
pub(crate) fn boxed<V: Vault>(
    alloc: Global,
    areas: StoreAreas<V>,
) -> Result<BoxedAreas<V>, StoreAreas<V>>
    ensures boxed { IfOk result (λ boxed. areas_with boxed.wal boxed.pages ≡ areas) }
    ensures back { IfErr result (λ back. back ≡ areas) }
{
    let wal = areas.wal;
    let (data0, data1) = match box_two(alloc, areas.data0, areas.data1) {
        Ok(two) => two,
        Err((data0, data1)) => {
            return Err(StoreAreas {
                wal,
                data0,
                data1,
                data2: areas.data2,
                data3: areas.data3,
            });
        }
    };
    match box_two(alloc, areas.data2, areas.data3) {
        Ok((data2, data3)) => Ok(BoxedAreas {
            wal,
            pages: DataAreas {
                data0,
                data1,
                data2,
                data3,
            },
        }),
        Err((data2, data3)) => Err(StoreAreas {
            wal,
            data0: Box::into_inner(data0.area),
            data1: Box::into_inner(data1.area),
            data2,
            data3,
        }),
    }
}

/// Moves two areas to the heap, or hands both back.
fn box_two<V: Vault>(
    alloc: Global,
    first: V,
    second: V,
) -> Result<(BoxedArea<V>, BoxedArea<V>), (V, V)>
    ensures first { IfOk result (λ two. box_value two.0.area ≡ first) }
    ensures second { IfOk result (λ two. box_value two.1.area ≡ second) }
    ensures back { IfErr result (λ two. (two.0 ≡ first) × (two.1 ≡ second)) }
{
    let first = match Box::new(alloc, first) {
        Ok(area) => area,
        Err(refused) => return Err((refused.value, second)),
    };
    match Box::new(alloc, second) {
        Ok(second) => Ok((BoxedArea { area: first }, BoxedArea { area: second })),
        Err(refused) => Err((Box::into_inner(first), refused.value)),
    }
}

/// The areas of a store, with the data areas moved back from the heap.
pub(crate) fn unboxed<V: Vault>(wal: V, pages: DataAreas<BoxedArea<V>>) -> StoreAreas<V>
    ensures { result ≡ areas_with wal pages }
{
    StoreAreas {
        wal,
        data0: Box::into_inner(pages.data0.area),
        data1: Box::into_inner(pages.data1.area),
        data2: Box::into_inner(pages.data2.area),
        data3: Box::into_inner(pages.data3.area),
    }
}

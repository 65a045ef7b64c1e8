//! The areas of a store, moved to the heap and back.

ghost use Rattle.std.specs.Prelude.{◌≡◌, IfOk, IfErr, box_value};
ghost use Rattle.store_restart.specs.Restarted.{plain};

use std::alloc::Global;
use std::boxed::Box;
use store_areas::StoreAreas;
use vault::{BoxedArea, Vault};

/// Moves two areas to the heap, or hands both back.
fn box_two<V: Vault>(
    alloc: Global,
    first: V,
    second: V,
) -> Result<(BoxedArea<V>, BoxedArea<V>), (V, V)>
    ensures first { IfOk result (λ two. box_value two.0.area ≡ first) }
    ensures second { IfOk result (λ two. box_value two.1.area ≡ second) }
    ensures back { IfErr result (λ two. (two.0 ≡ first) × (two.1 ≡ second)) }
{
    let first = match Box::new(alloc, first) {
        Ok(area) => area,
        Err(refused) => return Err((refused.value, second)),
    };
    match Box::new(alloc, second) {
        Ok(second) => Ok((BoxedArea { area: first }, BoxedArea { area: second })),
        Err(refused) => Err((Box::into_inner(first), refused.value)),
    }
}

/// Moves an area to the heap, or hands it back.
fn box_one<V: Vault>(alloc: Global, area: V) -> Result<BoxedArea<V>, V>
    ensures boxed { IfOk result (λ one. box_value one.area ≡ area) }
    ensures back { IfErr result (λ back. back ≡ area) }
{
    match Box::new(alloc, area) {
        Ok(area) => Ok(BoxedArea { area }),
        Err(refused) => Err(refused.value),
    }
}

/// Moves the areas of a store to the heap. Where memory runs out it hands the areas back.
pub(crate) fn boxed<V: Vault>(
    alloc: Global,
    areas: StoreAreas<V>,
) -> Result<StoreAreas<BoxedArea<V>>, StoreAreas<V>>
    ensures boxed { IfOk result (λ boxed. plain boxed ≡ areas) }
    ensures back { IfErr result (λ back. back ≡ areas) }
{
    let (data2, data3) = (areas.data2, areas.data3);
    let wal = match box_one(alloc, areas.wal) {
        Ok(wal) => wal,
        Err(wal) => {
            return Err(StoreAreas {
                wal,
                data0: areas.data0,
                data1: areas.data1,
                data2,
                data3,
            });
        }
    };
    let (data0, data1) = match box_two(alloc, areas.data0, areas.data1) {
        Ok(two) => two,
        Err((data0, data1)) => {
            return Err(StoreAreas {
                wal: Box::into_inner(wal.area),
                data0,
                data1,
                data2,
                data3,
            });
        }
    };
    match box_two(alloc, data2, data3) {
        Ok((data2, data3)) => Ok(StoreAreas {
            wal,
            data0,
            data1,
            data2,
            data3,
        }),
        Err((data2, data3)) => Err(StoreAreas {
            wal: Box::into_inner(wal.area),
            data0: Box::into_inner(data0.area),
            data1: Box::into_inner(data1.area),
            data2,
            data3,
        }),
    }
}

/// The areas of a store, moved back from the heap.
pub(crate) fn unboxed<V: Vault>(areas: StoreAreas<BoxedArea<V>>) -> StoreAreas<V>
    ensures { result ≡ plain areas }
{
    StoreAreas {
        wal: Box::into_inner(areas.wal.area),
        data0: Box::into_inner(areas.data0.area),
        data1: Box::into_inner(areas.data1.area),
        data2: Box::into_inner(areas.data2.area),
        data3: Box::into_inner(areas.data3.area),
    }
}

//! The areas of a store, taken from a site and given back.

ghost use Rattle.std.specs.Prelude.{◌≡◌};
ghost use Rattle.vault.specs.Lending.{AreOut, GivesBack, names_of};
ghost use Rattle.restart_command.specs.Restart.{store_asks};
ghost use Rattle.restart_command.specs.Inner.{store_held};

use store_areas::StoreAreas;
use vault::{Held, Site, Vault};

/// The areas that were taken, in their order, as those of a store.
pub(crate) fn store_of<V: Vault>(held: Vec<Held<V>>) -> StoreAreas<V>
    requires { names_of held.items ≡ store_asks }
    ensures { held.items ≡ store_held result }
{
    let mut held = held;
    match (held.pop(), held.pop(), held.pop(), held.pop(), held.pop()) {
        (Some(fifth), Some(fourth), Some(third), Some(second), Some(first)) => StoreAreas {
            wal: first.area,
            data0: second.area,
            data1: third.area,
            data2: fourth.area,
            data3: fifth.area,
        },
        _ => unreachable!(),
    }
}

/// Gives the areas of a store back. It can't fail.
pub(crate) fn give_store<S: Site>(site: &mut S, areas: StoreAreas<S::Area>)
    requires { AreOut S.Area.Vault (S.areas site.old) (store_held areas) }
    ensures gives { GivesBack S.Site S.Area.Vault (store_held areas) site.old site.new }
{
    let StoreAreas {
        wal,
        data0,
        data1,
        data2,
        data3,
    } = areas;
    site.give(b"data3", data3);
    site.give(b"data2", data2);
    site.give(b"data1", data1);
    site.give(b"data0", data0);
    site.give(b"wal", wal);
}

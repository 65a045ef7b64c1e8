//! What an open store offers to whoever summarises its WAL.

ghost use Rattle.std.specs.Prelude.{◌≡◌, true, take, IfOk};
ghost use Rattle.history.specs.fuzzy_copies.Orderly.{IsOrderly};
ghost use Rattle.store_locks.specs.Records.{IsPlaceOf};
ghost use Rattle.shared_summaries.specs.summary_publish.Entries.{first_start};
ghost use Rattle.shared_summaries.specs.summary_publish.Inside.{AreRecordsOf, RiseBehind, from_place};
ghost use Rattle.shared_summaries.specs.summary_publish.Published.{LooksOn, ReadTakes};

use lsn_core::{Lsn, StoreFault};
use shared_store::{Pass, Store};
use std::alloc::Global;
use std::sync::Wait;
use store_locks::OfCrew;
use vault::Vault;
use wal_pages::Layout;
use wal_record::Record;

/// Where the first entry of a store's history starts, as a pass has seen it.
pub fn first_start<J: OfCrew, V: Vault>(store: &Store<J, V>, pass: &Pass<J>) -> Lsn
    ensures first { J.tells ≡ true → result.0 ≡ first_start pass.now.list }
    ensures place { J.tells ≡ true → IsPlaceOf pass.now.list result.0 }
{
    pass.know();
    let settings = store.settings();
    Layout::new(&settings).start_after(Lsn(settings.segment().bytes()))
}

/// What a pass has seen stands in order.
pub(crate) fn know<J: OfCrew>(pass: &Pass<J>)
    ensures { J.tells ≡ true → IsOrderly 0 pass.now.list }
{
    pass.know();
}

/// The first `most` records of the history's entries that start at a place or past it. The place is
/// one where an entry that the pass has seen starts or ends.
pub(crate) fn records_from<J: OfCrew, V: Vault>(
    rt: &impl Wait,
    alloc: Global,
    store: &Store<J, V>,
    pass: &mut Pass<J>,
    from: Lsn,
    most: u32,
) -> Result<Vec<Record>, StoreFault>
    requires place { J.tells ≡ true → IsPlaceOf pass.old.list from.0 }
    ensures records { J.tells ≡ true → IfOk result (λ v.
        AreRecordsOf v.items (take most (from_place from.0 pass.new.list))) }
    ensures rise { IfOk result (λ v. RiseBehind from.0 v.items) }
    ensures orderly { J.tells ≡ true → IsOrderly 0 pass.new.list }
    ensures looks { LooksOn pass.old pass.new }
    ensures faults { ReadTakes pass.old pass.new result }
{
    let answer = store.records(rt, alloc, pass, from, most);
    pass.know();
    answer
}

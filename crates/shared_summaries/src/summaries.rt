//! The summaries of an open store's WAL, shared by reference between its workers.

ghost use Rattle.std.specs.Prelude.{◌≡◌, ◌<◌, ◌≤◌, true, IfOk, box_value};
ghost use Rattle.journal.specs.Lawful.{IsLawful};
ghost use Rattle.store_locks.specs.Locked.{HasRisen};
ghost use Rattle.shared_store.specs.Shared.{TakesFaults};
ghost use Rattle.summary_store.specs.Expiry.{age_limit};
ghost use Rattle.shared_summaries.specs.summary_publish.Published.{LooksOn};
ghost use Rattle.shared_summaries.specs.Shelf.{AreShelved, HasPublished, HasCovered, TakesAdvanceFaults};

use crate::kept::Kept;
use crate::naming::OfRetention;
use crate::summary_publish::{Known, first_start};
use lsn_core::{Lsn, StoreFault};
use shared_store::{Pass, Store};
use std::alloc::Global;
use std::boxed::Box;
use std::sync::ledger::Book;
use std::sync::{Mutex, Wait};
use store_faults::AdvanceFault;
use store_ledgers::AreaFaults;
use summary_store::age_limit;
use vault::Vault;
use wal_summary::Summary;

/// The area of the summaries of an open store's WAL, under a lock of its own, which is taken before
/// any of the store's.
#[derive(Drop)]
pub struct Summaries<J: OfRetention, V: Vault> {
    kept: Mutex<Kept<J, V>>,
}

impl<J: OfRetention, V: Vault> Summaries<J, V> {
    /// Puts an area under its lock, as it is when the run begins, for a run at this moment that
    /// keeps summaries for so many days, or all where these are 0. It reads nothing, takes no
    /// memory, and can't fail. Nothing is in the book yet.
    pub fn begin(
        area: Box<V>,
        store: &Store<J, V>,
        pass: &mut Pass<J>,
        book: Book<AreaFaults<J, 5>>,
        days: u32,
        when: u64,
    ) -> Summaries<J, V>
        requires begun { V.files (box_value area) ≡ J.sums }
        requires starts { J.starts 5 ≡ V.faults (box_value area) }
        requires none { book.total ≡ 0 }
        requires limit { J.limit ≡ age_limit days when }
        ensures { pass.new ≡ pass.old }
    {
        pass.know();
        let known = Known {
            place: first_start(store, pass),
            kept: None,
        };
        let note = store.seen(pass);
        Summaries {
            kept: Mutex::new(Kept {
                area,
                note,
                known,
                limit: age_limit(days, when),
                book,
            }),
        }
    }

    /// Publishes under the lock what `crate::summary_publish::advance` publishes of all that the
    /// pass sees then, and says how many summaries that were; then it removes the old ones, of
    /// which those that it publishes are none. Memory as there.
    pub fn advance(
        &self,
        rt: &impl Wait,
        alloc: Global,
        store: &Store<J, V>,
        pass: &mut Pass<J>,
        when: u64,
    ) -> Result<u64, StoreFault>
        requires young { J.limit ≤ when }
        ensures published { IfOk result (HasPublished (J.tells ≡ true) J.found J.sums
            pass.new.list when J.limit) }
        ensures lawful { J.tells ≡ true → IsLawful J.settings.segment pass.new.list }
        ensures looks { LooksOn pass.old pass.new }
        ensures faults { TakesFaults pass.old pass.new result }
    {
        self.kept.lock(rt).advance(rt, alloc, store, pass, when)
    }

    /// The same, and the merge of the summaries that are kept then whose ranges overlap the range
    /// from
    /// `from` to below `to`, where they cover it. `Gap` exactly where a place of the range isn't
    /// covered, with the least such.
    pub fn advance_covering(
        &self,
        rt: &impl Wait,
        alloc: Global,
        store: &Store<J, V>,
        pass: &mut Pass<J>,
        from: Lsn,
        to: Lsn,
        when: u64,
    ) -> Result<Summary, AdvanceFault>
        requires range { from.0 < to.0 }
        requires young { J.limit ≤ when }
        ensures covered { HasCovered (J.tells ≡ true) J.found J.sums pass.new.list when
            J.limit from.0 to.0 result }
        ensures lawful { J.tells ≡ true → IsLawful J.settings.segment pass.new.list }
        ensures looks { LooksOn pass.old pass.new }
        ensures faults { TakesAdvanceFaults pass.old pass.new result }
    {
        self.kept
            .lock(rt)
            .advance_covering(rt, alloc, store, pass, from, to, when)
    }

    /// Takes the area back from under its lock, behind all workers, with the book of its faults.
    /// The pass learns what the lock knew: the area is true for that.
    pub fn close(self, store: &Store<J, V>, pass: &mut Pass<J>) -> (V, Book<AreaFaults<J, 5>>)
        ensures shelved { AreShelved (J.tells ≡ true) J.found J.sums pass.new.list
            (V.files result.0) }
        ensures risen { HasRisen (J.starts 5) result.1.total (V.faults result.0) }
        ensures lawful { J.tells ≡ true → IsLawful J.settings.segment pass.new.list }
        ensures looks { LooksOn pass.old pass.new }
        ensures faults { pass.new.faults ≡ pass.old.faults }
    {
        self.kept.into_inner().close(store, pass)
    }
}

//! What lies under the lock of the summaries.

ghost use Rattle.std.specs.Prelude.{◌≡◌, ◌<◌, ◌≤◌, true, IfOk, box_value};
ghost use Rattle.journal.specs.Lawful.{IsLawful};
ghost use mathlib.Core.List.{IsPrefix};
ghost use Rattle.store_locks.specs.Locked.{HasRisen, RunsOn};
ghost use Rattle.shared_store.specs.Shared.{TakesFaults};
ghost use Rattle.shared_summaries.specs.summary_publish.Published.{LooksOn};
ghost use Rattle.shared_summaries.specs.Shelf.{AreShelved, HasPublished, HasCovered, TakesAdvanceFaults};
ghost use Rattle.shared_summaries.specs.Inside.{IsShelf, HasBooked, fault_of, advance_fault};

use crate::naming::OfRetention;
use crate::summary_publish::{Known, advance, advance_covering};
use journal::HistoryEntry;
use lsn_core::{Lsn, StoreArea, StoreFault};
use shared_store::{Pass, Store};
use std::alloc::Global;
use std::boxed::Box;
use std::marker::Model;
use std::sync::Wait;
use std::sync::ledger::Book;
use store_faults::AdvanceFault;
use store_ledgers::AreaFaults;
use timeline::Note;
use vault::Vault;
use wal_summary::Summary;

/// What the lock holds: the area, a note of what its summaries were made of, where publishing goes
/// on there, the moment before which a summary is old that was made then, and the book of the
/// area's faults. Contracts see a `Shelf` of
/// `specs/Inside.antt`.
#[derive(Drop)]
pub(crate) struct Kept<J: OfRetention, V: Vault> {
    pub(crate) area: Box<V>,
    pub(crate) note: Note<HistoryEntry, J>,
    pub(crate) known: Known,
    pub(crate) limit: u64,
    pub(crate) book: Book<AreaFaults<J, 5>>,
}

impl<J: OfRetention, V: Vault> Model for Kept<J, V> {
    ghost use Rattle.std.specs.Prelude.{◌≡◌, true, box_value};
    ghost use Rattle.shared_summaries.specs.Inside.{Shelf, IsShelf};

    ghost Value = { Shelf V };

    ghost view = { λ k. record {
      area = box_value k.area;
      list = k.note.list;
      known = k.known;
      limit = k.limit;
      booked = k.book.total;
    } };

    ghost invariant = { λ k. IsShelf V.Vault (J.tells ≡ true) J.settings J.found J.sums
        J.limit (J.starts 5) (record {
          area = box_value k.area;
          list = k.note.list;
          known = k.known;
          limit = k.limit;
          booked = k.book.total;
        }) };
}

impl<J: OfRetention, V: Vault> Kept<J, V> {
    /// Publishes what can be published of what the pass sees, which learns what the lock knows, and
    /// removes what is old.
    pub(crate) fn advance(
        &mut self,
        rt: &impl Wait,
        alloc: Global,
        store: &Store<J, V>,
        pass: &mut Pass<J>,
        when: u64,
    ) -> Result<u64, StoreFault>
        requires young { J.limit ≤ when }
        ensures published { IfOk result (HasPublished (J.tells ≡ true) J.found J.sums
            pass.new.list when J.limit) }
        ensures lawful { J.tells ≡ true → IsLawful J.settings.segment pass.new.list }
        ensures looks { LooksOn pass.old pass.new }
        ensures faults { TakesFaults pass.old pass.new result }
    {
        let Kept {
            area,
            note,
            known,
            limit,
            book,
        } = self;
        advance_in(
            rt,
            alloc,
            &mut **area,
            note,
            known,
            *limit,
            book,
            store,
            pass,
            when,
        )
    }

    /// The same, and what covers a range then.
    pub(crate) fn advance_covering(
        &mut self,
        rt: &impl Wait,
        alloc: Global,
        store: &Store<J, V>,
        pass: &mut Pass<J>,
        from: Lsn,
        to: Lsn,
        when: u64,
    ) -> Result<Summary, AdvanceFault>
        requires range { from.0 < to.0 }
        requires young { J.limit ≤ when }
        ensures covered { HasCovered (J.tells ≡ true) J.found J.sums pass.new.list when
            J.limit from.0 to.0 result }
        ensures lawful { J.tells ≡ true → IsLawful J.settings.segment pass.new.list }
        ensures looks { LooksOn pass.old pass.new }
        ensures faults { TakesAdvanceFaults pass.old pass.new result }
    {
        let Kept {
            area,
            note,
            known,
            limit,
            book,
        } = self;
        cover_in(
            rt,
            alloc,
            &mut **area,
            note,
            known,
            *limit,
            book,
            store,
            pass,
            from,
            to,
            when,
        )
    }

    /// The area and the book of its faults. The pass learns what the lock knew.
    pub(crate) fn close(
        self,
        store: &Store<J, V>,
        pass: &mut Pass<J>,
    ) -> (V, Book<AreaFaults<J, 5>>)
        ensures shelved { AreShelved (J.tells ≡ true) J.found J.sums pass.new.list
            (V.files result.0) }
        ensures risen { HasRisen (J.starts 5) result.1.total (V.faults result.0) }
        ensures lawful { J.tells ≡ true → IsLawful J.settings.segment pass.new.list }
        ensures looks { LooksOn pass.old pass.new }
        ensures faults { pass.new.faults ≡ pass.old.faults }
    {
        let kept = self;
        store.learn(pass, kept.note);
        (Box::into_inner(kept.area), kept.book)
    }
}

/// The same for the parts of what the lock holds.
fn advance_in<J: OfRetention, V: Vault>(
    rt: &impl Wait,
    alloc: Global,
    area: &mut V,
    note: &mut Note<HistoryEntry, J>,
    known: &mut Known,
    limit: u64,
    book: &mut Book<AreaFaults<J, 5>>,
    store: &Store<J, V>,
    pass: &mut Pass<J>,
    when: u64,
) -> Result<u64, StoreFault>
    requires young { J.limit ≤ when }
    requires shelf { IsShelf V.Vault (J.tells ≡ true) J.settings J.found J.sums
        J.limit (J.starts 5) (record {
          area = area.old;
          list = note.old.list;
          known = known.old;
          limit = limit;
          booked = book.old.total;
        }) }
    ensures shelf { IsShelf V.Vault (J.tells ≡ true) J.settings J.found J.sums
        J.limit (J.starts 5) (record {
          area = area.new;
          list = note.new.list;
          known = known.new;
          limit = limit;
          booked = book.new.total;
        }) }
    ensures published { IfOk result (HasPublished (J.tells ≡ true) J.found J.sums
        pass.new.list when J.limit) }
    ensures lawful { J.tells ≡ true → IsLawful J.settings.segment pass.new.list }
    ensures looks { LooksOn pass.old pass.new }
    ensures faults { TakesFaults pass.old pass.new result }
{
    learn(store, pass, note);
    let answer = advance(rt, alloc, area, store, pass, known, limit, when);
    book_fault(store, pass, book, fault_of(&answer));
    renew(store, pass, note);
    answer
}

/// The same, and what covers a range then.
fn cover_in<J: OfRetention, V: Vault>(
    rt: &impl Wait,
    alloc: Global,
    area: &mut V,
    note: &mut Note<HistoryEntry, J>,
    known: &mut Known,
    limit: u64,
    book: &mut Book<AreaFaults<J, 5>>,
    store: &Store<J, V>,
    pass: &mut Pass<J>,
    from: Lsn,
    to: Lsn,
    when: u64,
) -> Result<Summary, AdvanceFault>
    requires range { from.0 < to.0 }
    requires young { J.limit ≤ when }
    requires shelf { IsShelf V.Vault (J.tells ≡ true) J.settings J.found J.sums
        J.limit (J.starts 5) (record {
          area = area.old;
          list = note.old.list;
          known = known.old;
          limit = limit;
          booked = book.old.total;
        }) }
    ensures shelf { IsShelf V.Vault (J.tells ≡ true) J.settings J.found J.sums
        J.limit (J.starts 5) (record {
          area = area.new;
          list = note.new.list;
          known = known.new;
          limit = limit;
          booked = book.new.total;
        }) }
    ensures covered { HasCovered (J.tells ≡ true) J.found J.sums pass.new.list when
        J.limit from.0 to.0 result }
    ensures lawful { J.tells ≡ true → IsLawful J.settings.segment pass.new.list }
    ensures looks { LooksOn pass.old pass.new }
    ensures faults { TakesAdvanceFaults pass.old pass.new result }
{
    learn(store, pass, note);
    let answer = advance_covering(rt, alloc, area, store, pass, known, limit, from, to, when);
    book_fault(store, pass, book, advance_fault(&answer));
    renew(store, pass, note);
    answer
}

/// The pass learns what a note knows.
fn learn<J: OfRetention, V: Vault>(
    store: &Store<J, V>,
    pass: &mut Pass<J>,
    note: &mut Note<HistoryEntry, J>,
)
    requires begins { RunsOn J.found note.old.list }
    requires lawful { J.tells ≡ true → IsLawful J.settings.segment note.old.list }
    ensures same { note.new.list ≡ note.old.list }
    ensures learnt { IsPrefix note.old.list pass.new.list }
    ensures looks { LooksOn pass.old pass.new }
    ensures faults { pass.new.faults ≡ pass.old.faults }
{
    let copy = store.line().split(note);
    store.learn(pass, copy);
}

/// The note becomes one of all that the pass has seen.
fn renew<J: OfRetention, V: Vault>(
    store: &Store<J, V>,
    pass: &mut Pass<J>,
    note: &mut Note<HistoryEntry, J>,
)
    ensures same { pass.new ≡ pass.old }
    ensures renewed { note.new.list ≡ pass.old.list }
    ensures begins { RunsOn J.found pass.old.list }
    ensures lawful { J.tells ≡ true → IsLawful J.settings.segment pass.old.list }
{
    pass.know();
    *note = store.seen(pass);
}

/// Books a fault, where it is one of the area of the summaries.
fn book_fault<J: OfRetention, V: Vault>(
    store: &Store<J, V>,
    pass: &mut Pass<J>,
    book: &mut Book<AreaFaults<J, 5>>,
    fault: Option<StoreFault>,
)
    ensures { HasBooked fault pass.old pass.new book.old.total book.new.total }
{
    if let Some(StoreFault::Failed(StoreArea::Sums)) = fault {
        store.failed(pass, book);
    }
}

/// The fault that a call answers, if any.
fn fault_of(answer: &Result<u64, StoreFault>) -> Option<StoreFault>
    ensures { result ≡ fault_of answer.now }
{
    match answer {
        Ok(_) => None,
        Err(fault) => Some(*fault),
    }
}

/// The same where a range was to be covered.
fn advance_fault(answer: &Result<Summary, AdvanceFault>) -> Option<StoreFault>
    ensures { result ≡ advance_fault answer.now }
{
    match answer {
        Ok(_) => None,
        Err(AdvanceFault::Gap(_)) => None,
        Err(AdvanceFault::Store(fault)) => Some(*fault),
    }
}

//! The records that the WAL of an open store has for its history, piece by piece.

ghost use Rattle.std.specs.Prelude.{◌≡◌, true, IfOk, IfErr};
ghost use Rattle.journal.specs.Lawful.{IsLawful};
ghost use Rattle.store_locks.specs.Seen.{StaysBy};
ghost use Rattle.store_locks.specs.Records.{IsPlaceOf, HasRecords, AreSome};
ghost use Rattle.store_locks.specs.Locked.{IsOfWal};
ghost use Rattle.shared_store.specs.Shared.{TakesFaults};

use crate::pass::Pass;
use crate::store::Store;
use lsn_core::{Lsn, StoreFault};
use std::alloc::Global;
use std::sync::Wait;
use store_locks::OfCrew;
use vault::Vault;
use wal_record::Record;

impl<J: OfCrew, V: Vault> Store<J, V> {
    /// Flushes the WAL, and answers the first `most` records of it that start at a place or past
    /// it, of the whole history, which the pass has seen then. The place is one where an entry that
    /// the pass has seen starts or ends: to go on behind a piece, where its last record ends. There
    /// are fewer exactly where the WAL has no more for the history. Over areas that don't tell
    /// their files, a WAL that can't be read there is taken as ended.
    pub fn records(
        &self,
        rt: &impl Wait,
        alloc: Global,
        pass: &mut Pass<J>,
        from: Lsn,
        most: u32,
    ) -> Result<Vec<Record>, StoreFault>
        requires { J.tells ≡ true → IsPlaceOf pass.old.list from.0 }
        ensures records { J.tells ≡ true
            → IfOk result (λ v. HasRecords J.settings pass.new.list from.0 most v.items) }
        ensures some { IfOk result (λ v. AreSome J.settings.segment from.0 most v.items) }
        ensures lawful { J.tells ≡ true → IsLawful J.settings.segment pass.new.list }
        ensures wal { IfErr result IsOfWal }
        ensures faults { TakesFaults pass.old pass.new result }
        ensures seen { StaysBy pass.old pass.new }
        ensures accepted { pass.new.accepted ≡ pass.old.accepted }
        ensures marks { pass.new.marks ≡ pass.old.marks }
    {
        let settings = self.settings;
        self.desk
            .lock(rt)
            .records(alloc, &self.line, &mut pass.own, &settings, from, most)
    }
}

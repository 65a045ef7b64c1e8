//! A cursor over the archive.

ghost use Rattle.std.specs.Prelude.{◌≡◌, false};
ghost use Rattle.vault.specs.Frame.{OnlyReads};
ghost use Rattle.wal_reader.specs.Cursor.{at_start, at_place, IsReached, Steps};

use crate::fault::WalFault;
use crate::step::step;
use lsn_core::{Lsn, Settings, WalTip};
use std::alloc::Global;
use std::marker::Model;
use vault::Vault;
use wal_pages::Layout;
use wal_record::{Record, first_tip, tip_after};

/// A cursor over the archive. It holds nothing of the area, which is given to each step. Contracts
/// see a `Cursor`: the settings, whether it was set at a place and gave no entry yet, where it
/// stands, and the fault that it goes on to answer.
#[derive(Debug, Drop)]
pub struct WalCursor {
    layout: Layout,
    set: bool,
    tip: WalTip,
    fault: Option<WalFault>,
}

impl Model for WalCursor {
    ghost use Rattle.wal_reader.specs.Cursor.{Cursor, CanStep};

    ghost Value = { Cursor };

    ghost view = { λ c. record { settings = c.layout; set = c.set; tip = c.tip; fault = c.fault } };

    ghost invariant = { λ c. CanStep c.layout.segment c.set c.tip };
}

impl WalCursor {
    /// A cursor at the beginning of the archive.
    pub fn first(settings: &Settings) -> WalCursor
        ensures { result ≡ at_start settings.now }
    {
        WalCursor {
            layout: Layout::new(settings),
            set: false,
            tip: first_tip(settings.segment()),
            fault: None,
        }
    }

    /// A cursor that is set at a place, also where no entry starts there. It doesn't test the link
    /// of the first entry that it gives, nor what an entry has on the first page.
    pub fn at(settings: &Settings, from: Lsn) -> WalCursor
        ensures { result ≡ at_place settings.now from.0 }
    {
        WalCursor {
            layout: Layout::new(settings),
            set: true,
            tip: WalTip {
                end: from,
                prev: Lsn(0),
                redo: Lsn(0),
                count: 0,
            },
            fault: None,
        }
    }

    /// A cursor that goes on behind entries that were read, where their tip is this one.
    pub fn behind(settings: &Settings, tip: WalTip) -> WalCursor
        requires { IsReached settings.now.segment tip }
        ensures { result ≡ record (at_start settings.now) { tip = tip } }
    {
        WalCursor {
            layout: Layout::new(settings),
            set: false,
            tip,
            fault: None,
        }
    }

    /// The end of the WAL as far as the cursor gave its entries, and at the archive's end that of
    /// the WAL. Of a cursor that was set at a place it counts from there.
    pub fn tip(&self) -> WalTip
        ensures tip { result ≡ self.now.tip }
        ensures reached { self.now.set ≡ false
            → IsReached self.now.settings.segment self.now.tip }
    {
        self.tip
    }

    /// The next entry, in order. None exactly at the archive's end, where the cursor stays and may
    /// be asked again. `Damaged` exactly where the archive is damaged behind the entries so far,
    /// with the place and why. After a fault other than `Failed` it answers the same fault again;
    /// after `Failed` it stands as before the call. `SettingsDamaged`, `Timeline` and `NotInit`
    /// never come.
    pub fn next<V: Vault>(&mut self, alloc: Global, wal: &mut V) -> Result<Option<Record>, WalFault>
        ensures answer { Steps V.Vault self.old self.new wal.old wal.new result }
        ensures reads { OnlyReads V.Vault wal.old wal.new }
    {
        if let Some(fault) = self.fault {
            return Err(fault);
        }
        let answer = step(alloc, wal, &self.layout, self.set, self.tip);
        match &answer {
            Ok(Some(record)) => {
                self.set = false;
                self.tip = tip_after(self.tip, record);
            }
            Ok(None) | Err(WalFault::Failed) => {}
            Err(fault) => self.fault = Some(*fault),
        }
        answer
    }
}

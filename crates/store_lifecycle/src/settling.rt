//! The passes of a store that is closed, given back by its workers.

ghost use Rattle.std.specs.Prelude.{◌≡◌, [], ◌∷◌, length};
ghost use Rattle.std.specs.List.{All};
ghost use mathlib.Core.List.{IsPrefix};
ghost use Rattle.store_locks.specs.Seen.{Seen};
ghost use Rattle.shared_store.specs.Shared.{CountsItsOwn, CountsNoMore};
ghost use Rattle.store_locks.specs.Locked.{AreNumbered, empty_shares, gathered, made_in};

use journal::HistoryEntry;
use shared_store::{Pass, Shares};
use std::sync::ledger::Share;
use store_ledgers::Made;
use store_locks::{Desk, Knowing, OfCrew};
use timeline::Timeline;
use vault::Vault;

/// All passes are given back: each saw a beginning of the history, and counted just the commands
/// and the marks of its worker that are there. Their shares are gathered.
pub fn settle<J: OfCrew, W: Vault>(
    desk: &mut Desk<J, W>,
    line: &Timeline<HistoryEntry, J>,
    passes: Vec<Pass<J>>,
    all: &mut Shares<J>,
)
    requires none { all.old ≡ empty_shares 0 }
    requires order { AreNumbered (λ (p : Seen). p.worker) 0 passes.items }
    requires many { length passes.items ≡ J.workers }
    requires parts { J.passes ≡ J.workers }
    ensures same { desk.new ≡ desk.old }
    ensures all { all.new ≡ gathered (empty_shares 0) passes.items }
    ensures full { all.new.parts ≡ J.passes }
    ensures seen { All (λ (p : Seen). IsPrefix p.list desk.old) passes.items }
    ensures counted { All (CountsItsOwn desk.old) passes.items }
{
    gather(desk, line, passes, all);
    audit_all(desk, &mut all.made);
}

/// All shares together count the workers' entries.
fn audit_all<J: OfCrew, W: Vault>(desk: &mut Desk<J, W>, share: &mut Share<Made<J>>)
    requires { share.old.parts ≡ J.passes }
    ensures same { desk.new ≡ desk.old }
    ensures parts { share.new.parts ≡ share.old.parts }
    ensures amount { share.new.amount ≡ share.old.amount }
    ensures all { share.old.amount ≡ length (made_in desk.old) }
{
    desk.made.audit(share);
}

/// Takes in the shares of the workers, and shows that each pass saw a beginning of the history.
fn gather<J: OfCrew, W: Vault>(
    desk: &mut Desk<J, W>,
    line: &Timeline<HistoryEntry, J>,
    passes: Vec<Pass<J>>,
    all: &mut Shares<J>,
)
    ensures same { desk.new ≡ desk.old }
    ensures all { all.new ≡ gathered all.old passes.items }
    ensures seen { All (λ (p : Seen). IsPrefix p.list desk.old) passes.items }
    ensures within { All (CountsNoMore desk.old) passes.items }
{
    let mut passes = passes;
    while let Some(pass) = passes.pop() {
        take_in(desk, line, pass, all);
    }
}

/// The same of one pass.
fn take_in<J: OfCrew, W: Vault>(
    desk: &mut Desk<J, W>,
    line: &Timeline<HistoryEntry, J>,
    pass: Pass<J>,
    all: &mut Shares<J>,
)
    ensures same { desk.new ≡ desk.old }
    ensures all { all.new ≡ gathered all.old (pass ∷ []) }
    ensures seen { IsPrefix pass.list desk.old }
    ensures within { CountsNoMore desk.old pass }
{
    let Pass { own, shares } = pass;
    let mut own = own;
    desk.meet(line, &mut own);
    let Knowing { made, faults, .. } = own;
    all.take_in(made, faults, shares);
}

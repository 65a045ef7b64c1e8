//! Incremental backups, taken into areas that a worker holds.

ghost use Rattle.std.specs.Prelude.{◌≡◌, ◌≢◌, ◌≤◌, List, ℕ, true, false};
ghost use Rattle.vault.specs.Lending.{AreLater};
ghost use Rattle.scripts.specs.declared.script.Command.TheVariants as command;
ghost use Rattle.crew.specs.Backups.{area_asked, areas_of, AreHeld};
ghost use Rattle.crew.specs.Run.{basis_of};
ghost use Rattle.incr_backup.specs.Incr.{incr_site};
ghost use Rattle.crew.specs.Running.{LineRuns, IncrRuns, AreIn, AreAt, IsLater, turned_site};

use crate::backups;
use backup_sending::Gate;
use incr_backup::take_incr;
use lsn_core::Text;
use run_answers::Answer;
use shared_store::{Pass, Store};
use shared_summaries::{OfRetention, Summaries};
use std::alloc::Global;
use std::sync::Wait;
use vault::{Held, Vault};

/// In which order the areas of the prior backup and of the backup stand.
#[derive(Clone, Copy, Drop)]
enum Turn {
    PriorOut,
    OutPrior,
}

/// Where these two areas stand, the first of them first, and which is which.
#[derive(Clone, Copy, Drop)]
struct Places {
    low: usize,
    high: usize,
    turn: Turn,
}

/// The places of the two areas, which differ, in their order.
fn sorted(prior: usize, out: usize) -> Places
    requires { prior ≢ out }
    ensures { AreIn prior out result }
{
    if prior < out {
        Places {
            low: prior,
            high: out,
            turn: Turn::PriorOut,
        }
    } else {
        Places {
            low: out,
            high: prior,
            turn: Turn::OutPrior,
        }
    }
}

/// Where the areas stand of a backup of this name, on this prior one.
fn places_of<V: Vault>(held: &[Held<V>], name: &[u8], prior: &[u8]) -> Places
    requires held { AreHeld (area_asked (command.Incr name.now prior.now)) held.now }
    requires apart { name.now ≢ prior.now }
    ensures { AreAt name.now prior.now held.now result }
{
    let Some(before) = backups::place_of(held, prior) else {
        unreachable!()
    };
    let Some(out) = backups::place_of(held, name) else {
        unreachable!()
    };
    sorted(before, out)
}

/// Takes an incremental backup of a name on these areas.
fn incr_into<J: OfRetention, V: Vault>(
    rt: &impl Wait,
    alloc: Global,
    store: &Store<J, V>,
    sums: &Summaries<J, V>,
    pass: &mut Pass<J>,
    prior: &mut Held<V>,
    out: &mut Held<V>,
    gate: &impl Gate,
    when: u64,
    name: &Text,
) -> Answer
    requires when { when ≤ 253402207199 }
    requires young { J.limit ≤ when }
    ensures runs { (other : List ℕ) → IncrRuns V.Vault (J.tells ≡ true)
        (basis_of J.settings when J.found J.sums J.limit) name.now other
        (incr_site pass.old prior.old.area out.old.area)
        (incr_site pass.new prior.new.area out.new.area) result }
    ensures prior { IsLater V.Vault prior.old prior.new }
    ensures out { IsLater V.Vault out.old out.new }
{
    let (prior, out) = (&mut prior.area, &mut out.area);
    match take_incr(rt, alloc, store, sums, pass, gate, prior, out, name, when) {
        Ok(done) => Answer::Backup(done.start, done.end),
        Err(why) => Answer::IncrRefused(why),
    }
}

/// The same where the two areas stand in this order.
fn incr_turned<J: OfRetention, V: Vault>(
    rt: &impl Wait,
    alloc: Global,
    store: &Store<J, V>,
    sums: &Summaries<J, V>,
    pass: &mut Pass<J>,
    low: &mut Held<V>,
    high: &mut Held<V>,
    turn: Turn,
    gate: &impl Gate,
    when: u64,
    name: &Text,
) -> Answer
    requires when { when ≤ 253402207199 }
    requires young { J.limit ≤ when }
    ensures runs { (other : List ℕ) → IncrRuns V.Vault (J.tells ≡ true)
        (basis_of J.settings when J.found J.sums J.limit) name.now other
        (turned_site turn pass.old low.old.area high.old.area)
        (turned_site turn pass.new low.new.area high.new.area) result }
    ensures low { IsLater V.Vault low.old low.new }
    ensures high { IsLater V.Vault high.old high.new }
{
    match turn {
        Turn::PriorOut => { incr_into(rt, alloc, store, sums, pass, low, high, gate, when, name) }
        Turn::OutPrior => { incr_into(rt, alloc, store, sums, pass, high, low, gate, when, name) }
    }
}

/// Takes an incremental backup of a name, on a prior one, into the areas that are held of both.
pub(crate) fn incr<J: OfRetention, V: Vault>(
    rt: &impl Wait,
    alloc: Global,
    store: &Store<J, V>,
    sums: &Summaries<J, V>,
    pass: &mut Pass<J>,
    held: &mut [Held<V>],
    gate: &impl Gate,
    when: u64,
    name: &Text,
    prior: &Text,
) -> Answer
    requires when { when ≤ 253402207199 }
    requires young { J.limit ≤ when }
    requires held { AreHeld (area_asked (command.Incr name.now prior.now)) held.old }
    requires apart { name.now ≢ prior.now }
    ensures runs { LineRuns (J.tells ≡ true) (basis_of J.settings when J.found J.sums J.limit)
        (command.Incr name.now prior.now) false pass.old pass.new (areas_of V.Vault held.old)
        (areas_of V.Vault held.new) result }
    ensures later { AreLater V.Vault held.old held.new }
{
    let at = places_of(held, name.as_bytes(), prior.as_bytes());
    let (front, back) = held.split_at_mut(at.high);
    let (low, high) = (&mut front[at.low], &mut back[0]);
    incr_turned(
        rt, alloc, store, sums, pass, low, high, at.turn, gate, when, name,
    )
}

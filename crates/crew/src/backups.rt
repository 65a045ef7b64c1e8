//! Full backups, taken into areas that a worker holds.

ghost use Rattle.std.specs.Prelude.{◌≡◌, ◌≤◌, ◌∷◌, [], true, false, bytes_eq};
ghost use Rattle.std.specs.List.{position};
ghost use Rattle.vault.specs.Lending.{AreLater};
ghost use Rattle.command_base.specs.Areas.{backup_name};
ghost use Rattle.scripts.specs.declared.script.Command.TheVariants as command;
ghost use Rattle.crew.specs.Backups.{areas_of, AreHeld};
ghost use Rattle.crew.specs.Run.{basis_of};
ghost use Rattle.crew.specs.Running.{LineRuns, BackupRuns};

use backup_sending::{Gate, take_full};
use command_base::is_backup_name;
use lsn_core::Text;
use run_answers::Answer;
use shared_store::{Pass, Store};
use shared_summaries::OfRetention;
use std::alloc::Global;
use std::sync::Wait;
use vault::{Held, Vault};

/// Where the area of this backup stands.
pub(crate) fn place_of<V: Vault>(held: &[Held<V>], name: &[u8]) -> Option<usize>
    ensures { result ≡ position (λ h. bytes_eq h.name (backup_name name.now)) held.now }
{
    held.iter()
        .position(|one| is_backup_name(one.name.as_bytes(), name))
}

/// Takes a full backup into an area.
fn backup_into<J: OfRetention, V: Vault>(
    rt: &impl Wait,
    alloc: Global,
    store: &Store<J, V>,
    pass: &mut Pass<J>,
    area: &mut V,
    gate: &impl Gate,
    when: u64,
    name: &Text,
) -> Answer
    requires when { when ≤ 253402207199 }
    ensures runs { BackupRuns V.Vault (J.tells ≡ true)
        (basis_of J.settings when J.found J.sums J.limit)
        name.now pass.old pass.new area.old area.new result }
    ensures later { V.faults area.old ≤ V.faults area.new }
{
    match take_full(rt, alloc, store, pass, gate, area, name, when) {
        Ok(done) => Answer::Backup(done.start, done.end),
        Err(why) => Answer::BackupRefused(why),
    }
}

/// Takes a full backup into the area of its name, which is held.
pub(crate) fn full<J: OfRetention, V: Vault>(
    rt: &impl Wait,
    alloc: Global,
    store: &Store<J, V>,
    pass: &mut Pass<J>,
    held: &mut [Held<V>],
    gate: &impl Gate,
    when: u64,
    name: &Text,
) -> Answer
    requires when { when ≤ 253402207199 }
    requires held { AreHeld (backup_name name.now ∷ []) held.old }
    ensures runs { LineRuns (J.tells ≡ true) (basis_of J.settings when J.found J.sums J.limit)
        (command.Full name.now) false pass.old pass.new (areas_of V.Vault held.old)
        (areas_of V.Vault held.new) result }
    ensures later { AreLater V.Vault held.old held.new }
{
    match place_of(held, name.as_bytes()) {
        Some(at) => backup_into(rt, alloc, store, pass, &mut held[at].area, gate, when, name),
        None => unreachable!(),
    }
}

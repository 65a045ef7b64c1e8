//! Where the pages of a combined segment file stand.

ghost use Rattle.std.specs.Prelude.{◌≡◌, ◌<◌, ◌≤◌, ◌+◌, length, IfOk, OnOk, IfErr, IfSome};
ghost use Rattle.std.specs.List.{AllByRecursion};
ghost use Rattle.incr_file.specs.Form.{rebuilt_length};
ghost use Rattle.incr_file.specs.Head.{IsHead};
ghost use Rattle.incr_file.specs.Reading.{HasPlaces};
ghost use Rattle.chain_files.specs.Told.{chain_told, ArePlaces, AllOnlyRead, FailsAt};
ghost use Rattle.chain_files.specs.declared.form.FileForm.TheVariants.{Part as PartOf};
ghost use Rattle.chain_files.specs.Inside.{HasPart, AreSaid, AreAllSaid, IsFormIn, ArePagesOf};

use crate::fault::MemberFault;
use crate::form::FileForm;
use crate::member::form_at;
use crate::paths::FilePaths;
use crate::slot::{Slot, has_open, settle, slots_of};
use incr_file::HeadView;
use std::alloc::Global;
use vault::{Held, Vault};

/// Where the pages of a file stand.
#[derive(Debug, Drop)]
pub(crate) enum SourcePages {
    /// In the plain file of this member, from the oldest one, 0, which has so many whole pages.
    Plain(usize, u64),
    /// Each at a place of its own.
    Mapped(Vec<Slot>),
}

/// Asks the member of this number for the blocks that are open.
fn settle_by<V: Vault>(
    alloc: Global,
    areas: &mut [Held<V>],
    places: &[u32],
    member: usize,
    paths: &FilePaths,
    slots: &mut [Slot],
) -> Result<(), MemberFault>
    requires places { ArePlaces (length areas.old) places.now }
    requires member { member < length places.now }
    requires few { length slots.old ≤ 131072 }
    ensures said { OnOk result (IfSome (chain_told V.Vault areas.old places.now) (λ chain.
        AllByRecursion (HasPart paths.now) chain
        → AreSaid chain paths.now (member + 1) slots.old
        → AreSaid chain paths.now member slots.new)) }
    ensures kept { length slots.new ≡ length slots.old }
    ensures reads { AllOnlyRead V.Vault areas.old areas.new }
    ensures cause { IfErr result (FailsAt V.Vault areas.old areas.new) }
{
    let form = form_at(alloc, areas, places[member], paths)?;
    settle(slots, &form, member);
    Ok(())
}

/// Asks the first members, so many of them, for the blocks that are open, the newest of them first,
/// until none is open.
fn settle_all<V: Vault>(
    alloc: Global,
    areas: &mut [Held<V>],
    places: &[u32],
    count: usize,
    paths: &FilePaths,
    slots: &mut [Slot],
) -> Result<(), MemberFault>
    requires places { ArePlaces (length areas.old) places.now }
    requires count { count ≤ length places.now }
    requires few { length slots.old ≤ 131072 }
    ensures said { OnOk result (IfSome (chain_told V.Vault areas.old places.now) (λ chain.
        AllByRecursion (HasPart paths.now) chain
        → AreSaid chain paths.now count slots.old
        → AreAllSaid chain paths.now slots.new)) }
    ensures kept { length slots.new ≡ length slots.old }
    ensures reads { AllOnlyRead V.Vault areas.old areas.new }
    ensures cause { IfErr result (FailsAt V.Vault areas.old areas.new) }
{
    let mut left = count;
    while left > 0 && has_open(slots) {
        left -= 1;
        settle_by(alloc, areas, places, left, paths, slots)?;
    }
    Ok(())
}

/// Where the blocks of a file stand of which the newest member has a file with this head.
fn map_of<V: Vault>(
    alloc: Global,
    areas: &mut [Held<V>],
    places: &[u32],
    newest: usize,
    paths: &FilePaths,
    view: HeadView,
) -> Result<Vec<Slot>, MemberFault>
    requires places { ArePlaces (length areas.old) places.now }
    requires newest { length places.now ≡ newest + 1 }
    requires head { IsHead view.head }
    requires blocks { HasPlaces view }
    ensures map { IfOk result (λ slots. IfSome (chain_told V.Vault areas.old places.now) (λ chain.
        AllByRecursion (HasPart paths.now) chain → IsFormIn chain paths.now newest (PartOf view)
        → AreAllSaid chain paths.now slots.items)) }
    ensures long { IfOk result (λ slots. length slots.items ≡ rebuilt_length view.head) }
    ensures reads { AllOnlyRead V.Vault areas.old areas.new }
    ensures cause { IfErr result (FailsAt V.Vault areas.old areas.new) }
{
    let mut slots = slots_of(alloc, view, newest)?;
    settle_all(alloc, areas, places, newest, paths, &mut slots)?;
    Ok(slots)
}

/// Where the pages of the file of these paths stand that a chain is combined to. None exactly where
/// it is combined to no such file.
pub(crate) fn pages_of<V: Vault>(
    alloc: Global,
    areas: &mut [Held<V>],
    places: &[u32],
    paths: &FilePaths,
) -> Result<Option<SourcePages>, MemberFault>
    requires { ArePlaces (length areas.old) places.now }
    ensures pages { IfOk result (λ found.
        IfSome (chain_told V.Vault areas.old places.now) (λ chain.
        AllByRecursion (HasPart paths.now) chain → ArePagesOf chain paths.now found)) }
    ensures reads { AllOnlyRead V.Vault areas.old areas.new }
    ensures cause { IfErr result (FailsAt V.Vault areas.old areas.new) }
{
    let Some(newest) = places.len().checked_sub(1) else {
        return Ok(None);
    };
    match form_at(alloc, areas, places[newest], paths)? {
        FileForm::Absent => Ok(None),
        FileForm::Plain(count) => Ok(Some(SourcePages::Plain(newest, count))),
        FileForm::Part(view) => {
            let slots = map_of(alloc, areas, places, newest, paths, view)?;
            Ok(Some(SourcePages::Mapped(slots)))
        }
    }
}

//! The form in which a series of incremental backups has a segment file together.

ghost use Rattle.std.specs.Prelude.{◌≡◌, ◌≤◌, false, length, IfOk, IfErr};
ghost use Rattle.chain_files.specs.Paths.{IsRelationFile};
ghost use Rattle.incr_file.specs.Head.{IsHead};
ghost use Rattle.chain_files.specs.Segments.{forms_at};
ghost use Rattle.chain_files.specs.Sources.{OfChain};
ghost use Rattle.chain_files.specs.Told.{chain_told, ArePlaces, AllOnlyRead, FailsAt};
ghost use Rattle.merged_forms.specs.Merged.{rests_on_plain};
ghost use Rattle.series_files.specs.Heads.{merged_head_of};
ghost use Rattle.series_files.specs.Inside.{Leaves, IsAsked};

use crate::answered::Answered;
use crate::seen::{Seen, seen_at};
use chain_files::MemberFault;
use incr_file::IncrHead;
use std::alloc::Global;
use vault::{Held, Vault};

/// Asks the members, the newest one first, down to the first whose file isn't incremental, and says
/// whether that is plain.
fn ask<V: Vault>(
    alloc: Global,
    areas: &mut [Held<V>],
    places: &[u32],
    folder: &[u8],
    name: &[u8],
    answered: &mut Answered,
) -> Result<bool, MemberFault>
    requires places { ArePlaces (length areas.old) places.now }
    requires placed { IsRelationFile folder.now name.now }
    ensures asked { IfOk result (λ plain. OfChain (chain_told V.Vault areas.old places.now)
        (λ chain. Leaves (forms_at chain folder.now name.now)
        (forms_at chain folder.now name.now) answered.old
        → IsAsked (forms_at chain folder.now name.now) plain answered.new)) }
    ensures long { length answered.new.had.items ≡ length answered.old.had.items }
    ensures least { answered.new.least ≤ answered.old.least }
    ensures reads { AllOnlyRead V.Vault areas.old areas.new }
    ensures cause { IfErr result (FailsAt V.Vault areas.old areas.new) }
{
    let mut left = places.len();
    while left > 0 {
        left -= 1;
        match seen_at(alloc, areas, places[left], folder, name)? {
            Seen::Absent => return Ok(false),
            Seen::Plain => return Ok(true),
            Seen::Part(head) => answered.add(&head),
        }
    }
    Ok(false)
}

/// Whether a series of consecutive backups has the file of a folder and a plain name whole: one has
/// it in the plain form, and all newer ones in the incremental form. `places` says of each member,
/// the oldest one first, which of the areas is its own. Errs where an area's call does, or memory
/// runs out.
pub fn is_rebuilt<V: Vault>(
    alloc: Global,
    areas: &mut [Held<V>],
    places: &[u32],
    folder: &[u8],
    name: &[u8],
) -> Result<bool, MemberFault>
    requires places { ArePlaces (length areas.old) places.now }
    requires placed { IsRelationFile folder.now name.now }
    ensures whole { IfOk result (λ whole. OfChain (chain_told V.Vault areas.old places.now)
        (λ chain. whole ≡ rests_on_plain (forms_at chain folder.now name.now))) }
    ensures reads { AllOnlyRead V.Vault areas.old areas.new }
    ensures cause { IfErr result (FailsAt V.Vault areas.old areas.new) }
{
    let mut answered = Answered::begin(alloc, 0)?;
    ask(alloc, areas, places, folder, name, &mut answered)
}

/// The head of the file of a folder and a plain name to which a series of consecutive backups is
/// merged, of so many blocks, where it isn't whole: the least truncation length of the members, and
/// each block that a member answers, or that stands from that length on. Errs where an area's call
/// does, or memory runs out.
pub fn merged_head<V: Vault>(
    alloc: Global,
    areas: &mut [Held<V>],
    places: &[u32],
    folder: &[u8],
    name: &[u8],
    count: u32,
) -> Result<IncrHead, MemberFault>
    requires places { ArePlaces (length areas.old) places.now }
    requires placed { IsRelationFile folder.now name.now }
    requires few { count ≤ 131072 }
    ensures head { IfOk result (λ head. OfChain (chain_told V.Vault areas.old places.now)
        (λ chain. rests_on_plain (forms_at chain folder.now name.now) ≡ false
        → head ≡ merged_head_of (forms_at chain folder.now name.now) count)) }
    ensures written { IfOk result IsHead }
    ensures reads { AllOnlyRead V.Vault areas.old areas.new }
    ensures cause { IfErr result (FailsAt V.Vault areas.old areas.new) }
{
    let mut answered = Answered::begin(alloc, count)?;
    ask(alloc, areas, places, folder, name, &mut answered)?;
    Ok(answered.head(alloc)?)
}

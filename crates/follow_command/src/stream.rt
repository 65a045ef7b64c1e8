//! An input that is followed from its beginning to its end.

ghost use Rattle.std.specs.Prelude.{◌≡◌, ◌≤◌, [], Err, IfSome, OnOk};
ghost use Rattle.std.specs.Option.{option_map};
ghost use Rattle.lsn_core.specs.Causes.{Rose};
ghost use Rattle.lsn_core.specs.Segment.{IsRelseg};
ghost use Rattle.lsn_core.specs.declared.fault.AreaFault.TheVariants as area;
ghost use Rattle.follow_command.specs.declared.input.InputFault.TheVariants as refusal;
ghost use Rattle.follow_command.specs.Followed.{StreamAnswer};

use crate::input::{InputFault, follow_input};
use follow_laws::refusals_stay;
use lsn_core::{Lsn, SegSize};
use std::alloc::Global;
use vault::Source;
use wal_follow::Follower;

/// Follows an input from its beginning to its end as the stream of a WAL, whose segments have this
/// size: the follower behind all of it, and where its archive ends. What is held of the input is
/// one piece and an entry that isn't whole.
pub fn follow_stream<I: Source>(
    alloc: Global,
    segment: SegSize,
    relseg: u32,
    input: &mut I,
) -> Result<(Follower, Lsn), InputFault>
    requires { IsRelseg relseg }
    ensures answer { IfSome (I.left input.old)
        (λ bytes. StreamAnswer segment relseg bytes result) }
    ensures ended { OnOk result
        (I.left input.new ≡ option_map (λ bytes. []) (I.left input.old)) }
    ensures later { I.faults input.old ≤ I.faults input.new }
    ensures failed { result ≡ Err (refusal.Input area.Failed)
        → Rose (I.faults input.old) (I.faults input.new) }
{
    // known: a refusal stays, and a segment has a size that there is
    refusals_stay();
    let _mib = segment.mib();
    let mut follower = Follower::new(alloc, segment, relseg)?;
    match follow_input(alloc, input, &mut follower) {
        Ok(end) => Ok((follower, end)),
        Err(why) => Err(why),
    }
}

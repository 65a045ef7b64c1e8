//! How many pages a fork has, by its segment files.

ghost use Rattle.std.specs.Prelude.{◌≡◌, ◌+◌, ◌*◌, ◌/◌, ◌<◌, ◌^◌, false, Some, IfOk};
ghost use Rattle.lsn_core.specs.Causes.{HasCause};
ghost use Rattle.lsn_core.specs.Segment.{IsRelseg};
ghost use Rattle.lsn_core.specs.Names.{fork_path_bytes};
ghost use Rattle.vault.specs.Area.{IsSizeIn};
ghost use Rattle.vault.specs.Frame.{OnlyReads};
ghost use Rattle.rel_files.specs.Inside.{CountsPages, FindsLast};

use crate::one_file::OneFile;
use crate::relseg::Relseg;
use lsn_core::{AreaFault, ForkId};
use std::alloc::Global;
use vault::Vault;

/// How many pages a fork has, by its segment files.
pub trait Finding: Vault {
    /// How many whole pages a fork has. None where its first file isn't there.
    fn count_pages(
        &mut self,
        alloc: Global,
        relseg: Relseg,
        fork: &ForkId,
    ) -> Result<Option<u32>, AreaFault>;

    /// The last segment file of a fork whose first one has so many bytes, and its size. Looks for
    /// it in steps that double as long as there is a file, and are halved from then on.
    fn last_segment(
        &mut self,
        alloc: Global,
        fork: &ForkId,
        first: u64,
    ) -> Result<(u32, u64), AreaFault>
        requires { IsSizeIn (Self.files self.old) (fork_path_bytes fork.now 0 false)
            (Some first) };
}

impl<V: Vault> Finding for V {
    fn count_pages(
        &mut self,
        alloc: Global,
        relseg: Relseg,
        fork: &ForkId,
    ) -> Result<Option<u32>, AreaFault>
        ensures count { IfOk result (CountsPages V.Vault relseg self.old fork.now) }
        ensures reads { OnlyReads V.Vault self.old self.new }
        ensures cause { HasCause (V.faults self.old) (V.faults self.new) result }
    {
        let Some(first) = self.segment_size(alloc, fork, 0)? else {
            return Ok(None);
        };
        let (last, size) = self.last_segment(alloc, fork, first)?;
        Ok(Some(pages_up_to(relseg, last, size)))
    }

    fn last_segment(
        &mut self,
        alloc: Global,
        fork: &ForkId,
        first: u64,
    ) -> Result<(u32, u64), AreaFault>
        requires { IsSizeIn (V.files self.old) (fork_path_bytes fork.now 0 false) (Some first) }
        ensures last { IfOk result (FindsLast (V.files self.old) fork.now) }
        ensures reads { OnlyReads V.Vault self.old self.new }
        ensures cause { HasCause (V.faults self.old) (V.faults self.new) result }
    {
        let mut last = (0, first);
        let mut end = u32::MAX;
        let mut step: u32 = 1;
        while end - last.0 > 1 {
            let middle = last.0 + step.min((end - last.0) / 2);
            match self.segment_size(alloc, fork, middle)? {
                Some(size) => {
                    last = (middle, size);
                    step = step.saturating_mul(2);
                }
                None => end = middle,
            }
        }
        Ok(last)
    }
}

/// How many whole pages there are where the last file has so many bytes.
fn pages_up_to(relseg: Relseg, last: u32, size: u64) -> u32
    ensures pages { last * relseg + size / 8192 < 2 ^ 32 → result ≡ last * relseg + size / 8192 }
    ensures range { IsRelseg relseg }
{
    let pages = u64::from(last) * u64::from(relseg.blocks()) + size / 8192;
    pages.min(u64::from(u32::MAX)) as u32
}

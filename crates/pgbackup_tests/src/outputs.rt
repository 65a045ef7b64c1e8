//! Outputs of a site, beside one another.

ghost use Rattle.vault.specs.Site.{AllHome};

use lsn_core::AreaFault;
use std::alloc::Global;
use test_areas::holds_in;
use vault::{Site, read_in};

const FORK: &[u8] = b"base/5/16384";

/// Whether two outputs have the same bytes in a file, and some.
pub(crate) fn have_same<S: Site>(
    alloc: Global,
    site: &mut S,
    one: &[u8],
    other: &[u8],
    file: &[u8],
) -> Result<bool, AreaFault>
    requires { AllHome (S.areas site.old) }
    ensures { AllHome (S.areas site.new) }
{
    let bytes = read_in(alloc, site, one, file)?;
    let same = holds_in(alloc, site, other, file, &bytes)?;
    Ok(same && !bytes.is_empty())
}

/// Whether two outputs have the same bytes in the file of the fork, and some.
pub(crate) fn are_same<S: Site>(
    alloc: Global,
    site: &mut S,
    one: &[u8],
    other: &[u8],
) -> Result<bool, AreaFault>
    requires { AllHome (S.areas site.old) }
    ensures { AllHome (S.areas site.new) }
{
    have_same(alloc, site, one, other, FORK)
}

//! Changes of an area of a site. They say nothing of what they did but that all areas are at home
//! again.

ghost use Rattle.vault.specs.Site.{AllHome};

use lsn_core::AreaFault;
use test_areas::{Change, make};
use vault::Site;

/// Changes an area of a site.
pub(crate) fn change_in<S: Site>(site: &mut S, name: &[u8], change: Change) -> Result<(), AreaFault>
    requires { AllHome (S.areas site.old) }
    ensures { AllHome (S.areas site.new) }
{
    let mut area = site.take(name)?;
    let made = make(&mut area, change);
    site.give(name, area);
    made
}

/// Changes an area of a site in turn.
pub(crate) fn change_all<S: Site>(
    site: &mut S,
    name: &[u8],
    changes: &[Change],
) -> Result<(), AreaFault>
    requires { AllHome (S.areas site.old) }
    ensures { AllHome (S.areas site.new) }
{
    for change in changes {
        change_in(site, name, *change)?;
    }
    Ok(())
}

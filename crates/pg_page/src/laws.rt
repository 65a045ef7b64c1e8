//! Laws of holes and of patches: each is the contract of a function that does nothing.

ghost use Rattle.pg_page.specs.Laws.{ZeroingTwiceIsOnce, PatchedHolesAreZero, PatchesDifferInLsn, PatchesKeepHeaders, GoodHeadersAreTold};

/// Zeroing a page's hole twice is zeroing it once.
pub fn zeroing_twice_is_once()
    ensures { ZeroingTwiceIsOnce }
{}

/// A patched page has zeros in its hole.
pub fn patched_holes_are_zero()
    ensures { PatchedHolesAreZero }
{}

/// Patching by an entry that ends at one place and then setting the LSN is patching by one that
/// ends at the other.
pub fn patches_differ_in_lsn()
    ensures { PatchesDifferInLsn }
{}

/// The header that good fragments leave is good exactly where that of the patched page is, whose
/// hole is then zeroed and whose LSN is set. And the test of a header tells good ones.
pub fn patches_keep_headers()
    ensures kept { PatchesKeepHeaders }
    ensures told { GoodHeadersAreTold }
{}

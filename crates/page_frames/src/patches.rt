//! The header that a patch would leave.

ghost use Rattle.std.specs.Prelude.{◌≡◌, ◌+◌, ◌<◌, None, get_or};
ghost use Rattle.lsn_core.specs.byte_words.Numbers.{u16_in};
ghost use Rattle.pg_page.specs.Frags.{bad_frag, written_frags, is_good};
ghost use Rattle.page_frames.specs.Inside.{byte_over, byte_over_all, is_header};

use pg_page::Frag;

/// Whether good fragments leave a page a good header. Looks at the header's bytes alone, so that no
/// page is copied.
pub fn keeps_header(page: &[u8; 8192], frags: &[Frag]) -> bool
    requires { bad_frag frags.now ≡ None }
    ensures { result ≡ is_good (written_frags frags.now page.now) }
{
    let lower = u16_behind(page, frags, 12);
    let upper = u16_behind(page, frags, 14);
    let special = u16_behind(page, frags, 16);
    let version = u16_behind(page, frags, 18);
    is_header(version, lower, upper, special)
}

/// Whether these are the places of a good header.
fn is_header(version: u32, lower: u32, upper: u32, special: u32) -> bool
    ensures { result ≡ is_header version lower upper special }
{
    version == 8196 && 24 <= lower && lower <= upper && upper <= special && special <= 8192
}

/// The number at a place of a page, behind good fragments.
fn u16_behind(page: &[u8; 8192], frags: &[Frag], at: usize) -> u32
    requires frags { bad_frag frags.now ≡ None }
    requires within { at + 1 < 8192 }
    ensures { result ≡ u16_in (written_frags frags.now page.now) at }
{
    let low = byte_behind(page, frags, at);
    let high = byte_behind(page, frags, at + 1);
    u32::from(low) + 256 * u32::from(high)
}

/// The byte at a place of a page, behind fragments.
fn byte_behind(page: &[u8; 8192], frags: &[Frag], at: usize) -> u8
    requires { at < 8192 }
    ensures { result ≡ byte_over_all frags.now at (get_or page.now at 0) }
{
    let mut byte = page[at];
    for frag in frags {
        byte = byte_over(frag, at, byte);
    }
    byte
}

/// The byte at a place behind one fragment, where it was this one.
fn byte_over(frag: &Frag, at: usize, byte: u8) -> u8
    ensures { result ≡ byte_over frag.now at byte }
{
    let from = usize::from(frag.at());
    let bytes = frag.bytes();
    if from <= at && at - from < bytes.len() {
        bytes[at - from]
    } else {
        byte
    }
}

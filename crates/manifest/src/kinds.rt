//! The kinds of sums that a manifest names.

ghost use Rattle.std.specs.Prelude.{◌≡◌};
ghost use Rattle.lsn_core.specs.text_numbers.Numbers.{all_hex_digits};
ghost use Rattle.manifest.specs.Kinds.{kind_name, sum_digits, kind_in, is_sum};

/// A SHA-2 function (FIPS 180-4), as a manifest names it.
#[derive(Clone, Copy, Debug, PartialEq, Eq)]
pub enum SumKind {
    Sha224,
    Sha256,
    Sha384,
    Sha512,
}

impl SumKind {
    /// The name of the kind in a manifest.
    pub fn name(self) -> &'static str
        ensures { result.now ≡ kind_name self }
    {
        match self {
            SumKind::Sha224 => "SHA224",
            SumKind::Sha256 => "SHA256",
            SumKind::Sha384 => "SHA384",
            SumKind::Sha512 => "SHA512",
        }
    }

    /// How many hexadecimal digits a sum of the kind has.
    pub fn digits(self) -> usize
        ensures { result ≡ sum_digits self }
    {
        match self {
            SumKind::Sha224 => 56,
            SumKind::Sha256 => 64,
            SumKind::Sha384 => 96,
            SumKind::Sha512 => 128,
        }
    }
}

/// The kind of a name. None exactly where no kind has this name.
pub(crate) fn kind_in(name: &[u8]) -> Option<SumKind>
    ensures { result ≡ kind_in name.now }
{
    if name == b"SHA224".as_slice() {
        return Some(SumKind::Sha224);
    }
    if name == b"SHA256".as_slice() {
        return Some(SumKind::Sha256);
    }
    if name == b"SHA384".as_slice() {
        return Some(SumKind::Sha384);
    }
    if name == b"SHA512".as_slice() {
        return Some(SumKind::Sha512);
    }
    None
}

/// Whether each byte is a hexadecimal digit.
fn is_hex_digits(text: &[u8]) -> bool
    ensures { result ≡ all_hex_digits text.now }
{
    text.iter().all(|b| b.is_ascii_hexdigit())
}

/// Whether a text is the hexadecimal digits of a sum of this kind, in either case.
pub(crate) fn is_sum(kind: SumKind, text: &[u8]) -> bool
    ensures { result ≡ is_sum kind text.now }
{
    text.len() == kind.digits() && is_hex_digits(text)
}

//! How a page is made from nothing.

ghost use Rattle.std.specs.Prelude.{◌≡◌, ◌≤◌, ◌↔◌, IsSome, IfSome};
ghost use Rattle.scripts.specs.Shape.{shape_with};
ghost use Rattle.scripts.specs.Items.{shape_of};

use std::marker::Model;

/// How a page is made from nothing: where its hole begins and ends, and the value of the bytes
/// behind the header that are outside the hole (profile). 24 <= lower <= upper <= 8192. Contracts
/// see a `Shape`.
#[derive(Clone, Copy, Debug, PartialEq, Eq)]
pub struct PageShape {
    lower: u16,
    upper: u16,
    fill: u8,
}

impl Model for PageShape {
    ghost use Rattle.std.specs.Prelude.{◌≤◌};
    ghost use Rattle.scripts.specs.Shape.{Shape};

    ghost Value = { Shape };

    ghost view = { λ s. record { lower = s.lower; upper = s.upper; fill = s.fill } };

    ghost invariant = { λ s. (24 ≤ s.lower) × ((s.lower ≤ s.upper) × (s.upper ≤ 8192)) };

    ghost inverse = { λ s. record { lower = s.lower; upper = s.upper; fill = s.fill } };
}

impl PageShape {
    /// The shape of these numbers. None exactly unless 24 <= lower <= upper <= 8192.
    pub fn new(lower: u16, upper: u16, fill: u8) -> Option<PageShape>
        ensures some { IsSome result ↔ (24 ≤ lower) × ((lower ≤ upper) × (upper ≤ 8192)) }
        ensures value { IfSome result (λ s. s ≡ shape_with lower upper fill) }
    {
        if 24 <= lower && lower <= upper && upper <= 8192 {
            Some(PageShape { lower, upper, fill })
        } else {
            None
        }
    }

    /// Where the hole begins, pd_lower.
    pub fn lower(self) -> u16
        ensures value { result ≡ self.lower }
        ensures least { 24 ≤ result }
        ensures order { result ≤ self.upper }
    {
        self.lower
    }

    /// Where the hole ends, pd_upper.
    pub fn upper(self) -> u16
        ensures value { result ≡ self.upper }
        ensures most { result ≤ 8192 }
    {
        self.upper
    }

    /// The value of the bytes behind the header that are outside the hole.
    pub fn fill(self) -> u8
        ensures { result ≡ self.fill }
    {
        self.fill
    }
}

/// The shape that three numbers of a script say. None exactly where they are none.
pub fn shape_of(lower: u32, upper: u32, fill: u32) -> Option<PageShape>
    ensures { result ≡ shape_of lower upper fill }
{
    if upper > 8192 || lower > upper || fill > 255 {
        return None;
    }
    PageShape::new(lower as u16, upper as u16, fill as u8)
}

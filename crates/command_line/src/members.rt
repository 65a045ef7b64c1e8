//! The names of the members of a chain, in the words of the command line.

ghost use Rattle.std.specs.Prelude.{◌≡◌, length, nat_lt, slice_get};
ghost use Rattle.std.specs.List.{list_all};
ghost use Rattle.std.specs.Option.{option_map};
ghost use Rattle.scripts.specs.Cuts.{is_name};
ghost use Rattle.command_line.specs.Members.{names_in, are_members, are_series};

use lsn_core::Text;
use scripts::is_name;

/// The names of the members of a chain of backups, the oldest one first.
#[derive(Clone, Copy)]
pub struct MemberNames<'a> {
    /// The names.
    pub names: &'a [Text],
}

impl<'a> MemberNames<'a> {
    /// The name of the member of this place, from 0. None exactly where there are no more than so
    /// many.
    pub fn get(&self, place: usize) -> Option<&'a [u8]>
        ensures { option_map (λ name. name.now) result ≡ slice_get (names_in self.now) place }
    {
        Some(self.names.get(place)?.as_bytes())
    }

    /// Whether there are more members than so many.
    pub fn are_more_than(&self, most: usize) -> bool
        ensures { result ≡ nat_lt most (length (names_in self.now)) }
    {
        most < self.names.len()
    }
}

/// Whether each of these is a name.
fn are_names(names: &[Text]) -> bool
    ensures { result ≡ list_all is_name names.now }
{
    names.iter().all(|name| is_name(name.as_bytes()))
}

/// Whether there are names, and each is one.
pub(crate) fn are_members(names: &[Text]) -> bool
    ensures { result ≡ are_members names.now }
{
    1 <= names.len() && are_names(names)
}

/// Whether there are two names or more, and each is one.
pub(crate) fn are_series(names: &[Text]) -> bool
    ensures { result ≡ are_series names.now }
{
    2 <= names.len() && are_names(names)
}

//! The last area of those that were taken from a site.

ghost use Rattle.std.specs.Prelude.{◌≡◌, ◌≤◌, [], ◌∷◌, ◌++◌, length};

use vault::{Held, Vault};

/// The last area of a list, taken from it.
pub fn last_of<V: Vault>(held: &mut Vec<Held<V>>) -> Held<V>
    requires { 1 ≤ length held.old.items }
    ensures { held.old.items ≡ held.new.items ++ result ∷ [] }
{
    match held.pop() {
        Some(last) => last,
        None => unreachable!(),
    }
}

//! Paths that a row may have.

ghost use Rattle.std.specs.Prelude.{◌≡◌};
ghost use Rattle.manifest.specs.Shape.{is_component, is_path};

/// Whether a component of a path isn't empty and isn't `..`.
fn is_component(part: &[u8]) -> bool
    ensures { result ≡ is_component part.now }
{
    !part.is_empty() && part != b"..".as_slice()
}

/// Whether a path has no empty component and none that is `..`, so that it isn't empty and doesn't
/// begin with a slash.
pub(crate) fn is_path(path: &[u8]) -> bool
    ensures { result ≡ is_path path.now }
{
    path.split(|b| *b == b'/').all(|part| is_component(part))
}

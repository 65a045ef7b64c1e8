//! What the proof of a program picks for an open store.

use std::marker::Brand;
use timeline::OfTimeline;

/// Names one open store in types: its timeline, and whether its areas tell their files.
pub trait OfStore: OfTimeline {
    ghost use Rattle.std.specs.Prelude.{Bool};

    ghost tells: { Bool };
}

impl OfStore for Brand {
    ghost use Rattle.std.specs.Prelude.{false};

    ghost tells = { false };
}

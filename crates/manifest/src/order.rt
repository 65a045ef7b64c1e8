//! Rows in the order of their paths.

ghost use Rattle.std.specs.Prelude.{◌≡◌, List, IfSome, IfNone};
ghost use Rattle.std.specs.List.{IsAllAdjacentAnswer};
ghost use Rattle.std.specs.List.Sorted.{IsPermutation, IsSortedByKey};
ghost use Rattle.std.specs.Ordering.{nat_cmp, is_lt};
ghost use Rattle.std.specs.Cmp.Lexicographic.{slice_cmp};
ghost use Rattle.manifest.specs.Shape.{path_of, IsArranged};
ghost use Rattle.manifest.specs.declared.shape.RawRow.{RawRow};

use crate::shape::RawRow;

/// Puts rows into the byte order of their paths.
fn sort_rows(rows: &mut Vec<RawRow>)
    ensures same { IsPermutation rows.old.items rows.new.items }
    ensures sorted { IsSortedByKey path_of (slice_cmp nat_cmp) rows.new.items }
{
    rows.sort_unstable_by(|a, b| a.path.as_bytes().cmp(b.path.as_bytes()));
}

/// Whether each path is below the next one.
fn is_rising(rows: &[RawRow]) -> bool
    ensures { IsAllAdjacentAnswer (λ x y b. b ≡ is_lt (slice_cmp nat_cmp x.path y.path))
        rows.now result }
{
    rows.is_sorted_by(|a, b| a.path.as_bytes().cmp(b.path.as_bytes()).is_lt())
}

/// The rows in byte order of their paths. None exactly where a path stands twice.
pub(crate) fn arranged(mut rows: Vec<RawRow>) -> Option<Vec<RawRow>>
    ensures found { IfSome result (λ r. IsArranged rows.items r.items) }
    ensures none { IfNone result ((r : List RawRow) → ¬ IsArranged rows.items r) }
{
    sort_rows(&mut rows);
    if is_rising(&rows) { Some(rows) } else { None }
}

//! Whether a manifest can list files of some paths.

ghost use Rattle.std.specs.Prelude.{◌≡◌, ◌↔◌, map, IsTrue, IfOk};
ghost use Rattle.std.specs.List.{AllByRecursion, IsAllAdjacentAnswer, IsDistinct};
ghost use Rattle.std.specs.List.Sorted.{IsPermutation, IsSortedByKey};
ghost use Rattle.std.specs.Ordering.{nat_cmp, eq_by_cmp, is_lt};
ghost use Rattle.std.specs.Cmp.Lexicographic.{slice_cmp};
ghost use Rattle.manifest.specs.Shape.{is_component, is_path};
ghost use Rattle.directory_files.specs.Written.{CanList};
ghost use Rattle.directory_files.specs.Written.{itself, to_of, IsTextPath};

use crate::targets::Target;
use lsn_core::{NoMemory, Text};
use manifest::Manifest;
use std::alloc::Global;
use std::str;

/// Whether a component of a path isn't empty and isn't `..`.
fn is_component(part: &[u8]) -> bool
    ensures { result ≡ is_component part.now }
{
    !part.is_empty() && part != b"..".as_slice()
}

/// Whether a path has only such components.
fn is_path(path: &[u8]) -> bool
    ensures { result ≡ is_path path.now }
{
    path.split(|b| *b == b'/').all(|part| is_component(part))
}

/// Whether a manifest can have this path.
fn is_text_path(path: &[u8]) -> bool
    ensures { IsTrue result ↔ IsTextPath path.now }
{
    str::from_utf8(path).is_ok() && is_path(path)
}

/// Whether it can have all paths of the files that stand for others.
fn have_text_paths(targets: &[Target]) -> bool
    ensures { IsTrue result ↔ AllByRecursion IsTextPath (map to_of targets.now) }
{
    let mut left = targets;
    while let Some((target, behind)) = left.split_first() {
        if !is_text_path(target.to.as_bytes()) {
            return false;
        }
        left = behind;
    }
    true
}

/// Copies of the paths of the files that stand for others.
fn paths_of(alloc: Global, targets: &[Target]) -> Result<Vec<Text>, NoMemory>
    ensures { IfOk result (λ paths. paths.items ≡ map to_of targets.now) }
{
    let mut paths = Vec::new(alloc);
    let mut left = targets;
    while let Some((target, behind)) = left.split_first() {
        paths.push(Text::copied(alloc, target.to.as_bytes())?)?;
        left = behind;
    }
    Ok(paths)
}

/// Puts paths into byte order.
fn sort_paths(paths: &mut Vec<Text>)
    ensures same { IsPermutation paths.old.items paths.new.items }
    ensures sorted { IsSortedByKey itself (slice_cmp nat_cmp) paths.new.items }
{
    paths.sort_unstable_by(|a, b| a.as_bytes().cmp(b.as_bytes()));
}

/// Whether each path is below the next one.
fn is_rising(paths: &[Text]) -> bool
    ensures { IsAllAdjacentAnswer (λ x y b. b ≡ is_lt (slice_cmp nat_cmp x y)) paths.now result }
{
    paths.is_sorted_by(|a, b| a.as_bytes().cmp(b.as_bytes()).is_lt())
}

/// Whether no two files stand for others under one path.
fn are_distinct(alloc: Global, targets: &[Target]) -> Result<bool, NoMemory>
    ensures { IfOk result (λ distinct. IsTrue distinct
        ↔ IsDistinct (eq_by_cmp (slice_cmp nat_cmp)) (map to_of targets.now)) }
{
    let mut paths = paths_of(alloc, targets)?;
    sort_paths(&mut paths);
    Ok(is_rising(&paths))
}

/// Whether a manifest can list files of these paths, and what another manifest tells beside its
/// rows.
pub fn can_list(alloc: Global, m: &Manifest, targets: &[Target]) -> Result<bool, NoMemory>
    ensures { IfOk result (λ can. IsTrue can ↔ CanList m.now (map to_of targets.now)) }
{
    let distinct = are_distinct(alloc, targets)?;
    Ok(m.system.is_some() && m.start < m.end && have_text_paths(targets) && distinct)
}

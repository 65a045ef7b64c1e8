//! The shape of a manifest: its keys, and the types of their values.

ghost use Rattle.std.specs.Prelude.{◌≡◌};
ghost use Rattle.serde_json.specs.View.{view, items_view};
ghost use Rattle.manifest.specs.Shape.{row_in, rows_in, files_in, range_in, only_range, range_at, system_in, top_keys, top_in};
ghost use Rattle.manifest.specs.Answers.{Answers, AnswersAll};

use crate::fault::ManifestFault;
use crate::paths::is_path;
use crate::values::{has_keys, has_text, list_at, number_at, text_at};
use lsn_core::Text;
use serde_json::Value;
use std::alloc::Global;
use std::marker::Model;

/// A row of a file, of which the kind of sum isn't judged yet.
#[derive(Debug, Drop)]
pub struct RawRow {
    pub path: Text,
    pub size: u64,
    pub modified: Text,
    pub kind: Text,
    pub sum: Text,
}

/// A range of the WAL, of which the LSNs are texts still.
#[derive(Debug, Drop)]
pub struct RawRange {
    pub timeline: u64,
    pub start: Text,
    pub end: Text,
}

/// What a manifest's object says, its rows as they stand. Contracts see a `Top`.
#[derive(Drop)]
pub struct RawTop {
    pub system: Option<u64>,
    pub rows: Vec<RawRow>,
    pub range: RawRange,
}

impl Model for RawTop {
    ghost use Rattle.manifest.specs.Shape.{Top};

    ghost Value = { Top };

    ghost view = { λ t. record { system = t.system; rows = t.rows.items; range = t.range } };
}

/// The row of a file that a value is: an object of these five keys, with a good path.
#[tactic(auto, unfolding(crate::specs::Shape::row_in))]
fn row_in(alloc: Global, value: &Value) -> Result<RawRow, ManifestFault>
    ensures { Answers (row_in (view value.now)) result }
{
    let path = text_at(alloc, value, "Path")?;
    let size = number_at(value, "Size")?;
    let modified = text_at(alloc, value, "Last-Modified")?;
    let kind = text_at(alloc, value, "Checksum-Algorithm")?;
    let sum = text_at(alloc, value, "Checksum")?;
    if !has_keys(value, 5) || !is_path(path.as_bytes()) {
        return Err(ManifestFault::Shape);
    }
    Ok(RawRow {
        path,
        size,
        modified,
        kind,
        sum,
    })
}

/// The rows that the values of a list are.
fn rows_in(alloc: Global, list: &Vec<Value>) -> Result<Vec<RawRow>, ManifestFault>
    ensures { AnswersAll (rows_in (items_view list.now.items)) result }
{
    let mut rows = Vec::new(alloc);
    for value in list {
        rows.push(row_in(alloc, value)?)?;
    }
    Ok(rows)
}

/// The rows of an object.
fn files_in(alloc: Global, value: &Value) -> Result<Vec<RawRow>, ManifestFault>
    ensures { AnswersAll (files_in (view value.now)) result }
{
    let Some(list) = list_at(value, "Files") else {
        return Err(ManifestFault::Shape);
    };
    rows_in(alloc, list)
}

/// The range that a value is: an object of these three keys.
#[tactic(auto, unfolding(crate::specs::Shape::range_in))]
fn range_in(alloc: Global, value: &Value) -> Result<RawRange, ManifestFault>
    ensures { Answers (range_in (view value.now)) result }
{
    let timeline = number_at(value, "Timeline")?;
    let start = text_at(alloc, value, "Start-LSN")?;
    let end = text_at(alloc, value, "End-LSN")?;
    if !has_keys(value, 3) {
        return Err(ManifestFault::Shape);
    }
    Ok(RawRange {
        timeline,
        start,
        end,
    })
}

/// The range that the one value of a list is.
fn only_range(alloc: Global, list: &[Value]) -> Result<RawRange, ManifestFault>
    ensures { Answers (only_range (items_view list.now)) result }
{
    match list {
        [] => Err(ManifestFault::Shape),
        [range] => range_in(alloc, range),
        [_, _, ..] => Err(ManifestFault::Shape),
    }
}

/// The one range of an object.
fn range_at(alloc: Global, value: &Value) -> Result<RawRange, ManifestFault>
    ensures { Answers (range_at (view value.now)) result }
{
    let Some(list) = list_at(value, "WAL-Ranges") else {
        return Err(ManifestFault::Shape);
    };
    only_range(alloc, list)
}

/// The system identifier of an object, where its version has one.
fn system_in(value: &Value, version: u32) -> Result<Option<u64>, ManifestFault>
    ensures { Answers (system_in version (view value.now)) result }
{
    if version == 1 {
        return Ok(None);
    }
    Ok(Some(number_at(value, "System-Identifier")?))
}

/// How many keys an object of a version has.
fn top_keys(version: u32) -> usize
    ensures { result ≡ top_keys version }
{
    if version == 1 { 4 } else { 5 }
}

/// What an object of the keys of a manifest of this version says.
#[tactic(auto, unfolding(crate::specs::Shape::top_in))]
pub(crate) fn top_in(alloc: Global, value: &Value, version: u32) -> Result<RawTop, ManifestFault>
    ensures { Answers (top_in version (view value.now)) result }
{
    let system = system_in(value, version)?;
    let rows = files_in(alloc, value)?;
    let range = range_at(alloc, value)?;
    if !has_text(value, "Manifest-Checksum") || !has_keys(value, top_keys(version)) {
        return Err(ManifestFault::Shape);
    }
    Ok(RawTop {
        system,
        rows,
        range,
    })
}

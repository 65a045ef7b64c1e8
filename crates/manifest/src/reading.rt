//! Reading a manifest.

ghost use Rattle.std.specs.Prelude.{◌≡◌, ◌<◌, ℕ, IfSome, IfNone, List, Option};
ghost use Rattle.serde_json.specs.View.{view};
ghost use Rattle.manifest.specs.Kinds.{file_in, all_files};
ghost use Rattle.manifest.specs.Shape.{IsRange};
ghost use Rattle.manifest.specs.Answers.{TextAnswers, KindsAnswers, VersionAnswers, PartsAnswers, ListingAnswers};
ghost use Rattle.manifest.specs.Reading.{ValueAnswers, ReadAnswers};

use crate::fault::ManifestFault;
use crate::kinds::{is_sum, kind_in};
use crate::lines::sum_line;
use crate::listing::{FileRow, Manifest};
use crate::order::arranged;
use crate::shape::{RawRange, RawRow, top_in};
use crate::values::{json_of, number_at};
use lsn_core::{Lsn, lsn_read};
use serde_json::Value;
use sha2::{Digest, Sha256};
use std::alloc::Global;
use std::marker::Model;

/// What a manifest's object says, with its rows in byte order of their paths. Contracts see a
/// `Parts`.
#[derive(Drop)]
pub struct RawParts {
    pub version: u32,
    pub system: Option<u64>,
    pub rows: Vec<RawRow>,
    pub timeline: u64,
    pub start: Lsn,
    pub end: Lsn,
}

impl Model for RawParts {
    ghost use Rattle.manifest.specs.Shape.{Parts};

    ghost Value = { Parts };

    ghost view = { λ p. record {
      version = p.version;
      system = p.system;
      rows = p.rows.items;
      timeline = p.timeline;
      start = p.start.0;
      end = p.end.0;
    } };
}

/// The value of a manifest's text, where the text has its sum.
fn value_in(alloc: Global, bytes: &[u8]) -> Result<Value, ManifestFault>
    ensures { TextAnswers bytes.now result }
{
    let Some(found) = sum_line(bytes) else {
        return Err(ManifestFault::Lines);
    };
    let sum = found.1;
    let digest = Sha256::digest(found.0);
    if digest != sum {
        return Err(ManifestFault::Sum);
    }
    json_of(alloc, bytes)
}

/// The version of a value, where it is one that is read.
fn version_in(value: &Value) -> Result<u32, ManifestFault>
    ensures { VersionAnswers (view value.now) result }
{
    match number_at(value, "PostgreSQL-Backup-Manifest-Version")? {
        1 => Ok(1),
        2 => Ok(2),
        version => Err(ManifestFault::Version(version)),
    }
}

/// The two LSNs of a range. None exactly where a text is no LSN, or the start isn't below the end.
fn range_of(range: &RawRange) -> Option<(Lsn, Lsn)>
    ensures found { IfSome result (λ p. IsRange range.now p.0.0 p.1.0) }
    ensures none { IfNone result ((start end : ℕ) → ¬ IsRange range.now start end) }
{
    let start = lsn_read(range.start.as_bytes())?;
    let end = lsn_read(range.end.as_bytes())?;
    if start < end {
        Some((start, end))
    } else {
        None
    }
}

/// The parts of a value of the shape of a manifest of this version.
fn parts_in(alloc: Global, value: &Value, version: u32) -> Result<RawParts, ManifestFault>
    ensures { PartsAnswers version (view value.now) result }
{
    let top = top_in(alloc, value, version)?;
    let Some((start, end)) = range_of(&top.range) else {
        return Err(ManifestFault::Shape);
    };
    let Some(rows) = arranged(top.rows) else {
        return Err(ManifestFault::Shape);
    };
    Ok(RawParts {
        version,
        system: top.system,
        rows,
        timeline: top.range.timeline,
        start,
        end,
    })
}

/// The file of a row. None exactly where its sum is of no kind.
fn file_in(row: RawRow) -> Option<FileRow>
    ensures { result ≡ file_in row }
{
    let kind = kind_in(row.kind.as_bytes())?;
    if !is_sum(kind, row.sum.as_bytes()) {
        return None;
    }
    Some(FileRow {
        path: row.path,
        size: row.size,
        modified: row.modified,
        kind,
        sum: row.sum,
    })
}

/// The files of rows. Errs with `SumKind` exactly where the sum of one is of no kind, or with
/// `NoMemory`.
fn all_files(alloc: Global, rows: Vec<RawRow>) -> Result<Vec<FileRow>, ManifestFault>
    ensures { KindsAnswers (all_files rows.items) result }
{
    let mut files = Vec::new(alloc);
    for row in rows {
        let Some(file) = file_in(row) else {
            return Err(ManifestFault::SumKind);
        };
        files.push(file)?;
    }
    Ok(files)
}

/// The manifest with these parts.
fn listed(alloc: Global, parts: RawParts) -> Result<Manifest, ManifestFault>
    ensures { ListingAnswers parts result }
{
    let files = all_files(alloc, parts.rows)?;
    if parts.timeline != 1 {
        return Err(ManifestFault::TimelineIs(parts.timeline));
    }
    Ok(Manifest {
        version: parts.version,
        system: parts.system,
        files,
        start: parts.start,
        end: parts.end,
    })
}

/// The manifest of a JSON value.
fn judged(alloc: Global, value: &Value) -> Result<Manifest, ManifestFault>
    ensures { ValueAnswers (view value.now) result }
{
    let version = version_in(value)?;
    let parts = parts_in(alloc, value, version)?;
    listed(alloc, parts)
}

/// Reads a manifest of version 1 or 2; one of version 1 tells no system identifier. Errs with the
/// first cause to refuse it, in the order of `ManifestFault`, or with `NoMemory`.
pub fn read_manifest(alloc: Global, bytes: &[u8]) -> Result<Manifest, ManifestFault>
    ensures { ReadAnswers bytes.now result }
{
    let value = value_in(alloc, bytes)?;
    judged(alloc, &value)
}

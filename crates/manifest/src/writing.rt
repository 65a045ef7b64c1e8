//! Writing a manifest.

ghost use Rattle.std.specs.Prelude.{◌≡◌, ◌++◌, All, string_bytes, IfOk, OnOk, Some};
ghost use Rattle.std.specs.Str.{IsUtf8};
ghost use Rattle.std.specs.Fmt.{decimal};
ghost use Rattle.sha2.specs.Sha256.{sha256};
ghost use Rattle.json.specs.Print.{quoted};
ghost use Rattle.lsn_core.specs.Names.{lsn_bytes};
ghost use Rattle.manifest.specs.Text.{line_of, row_text, row_end, rows_text, head_text, tail_of, last_line, lines_text, manifest_text, IsWritableRow, IsWritable};

use crate::lines::{BACK, FRONT};
use crate::listing::{FileRow, Manifest};
use lsn_core::{Lsn, NoMemory, Text, lsn_text};
use serde_json::Value;
use sha2::{Digest, Sha256};
use std::alloc::Global;
use std::str;

/// A text as JSON writes it.
fn quoted(alloc: Global, text: &str) -> Result<String, NoMemory>
    ensures { IfOk result (λ s. string_bytes s ≡ quoted text.now) }
{
    let value = Value::try_from_str(alloc, text)?;
    Ok(value.to_string(alloc)?)
}

/// The bytes as a text.
fn as_text(text: &Text) -> &str
    requires { IsUtf8 text.now }
    ensures { result.now ≡ text.now }
{
    str::from_utf8(text.as_bytes()).unwrap()
}

/// An LSN as JSON writes its text.
fn quoted_lsn(alloc: Global, at: Lsn) -> Result<String, NoMemory>
    ensures { IfOk result (λ s. string_bytes s ≡ quoted (lsn_bytes at.0)) }
{
    let text = lsn_text(alloc, at)?;
    quoted(alloc, as_text(&text))
}

/// The line of a file, whose texts are written as JSON already, without what ends it.
#[tactic(auto, unfolding(crate::specs::Text::line_of))]
fn line_of(
    alloc: Global,
    path: &str,
    size: u64,
    modified: &str,
    kind: &str,
    sum: &str,
) -> Result<String, NoMemory>
    ensures { IfOk result (λ s. string_bytes s
        ≡ line_of path.now size modified.now kind.now sum.now) }
{
    Ok(format!(in alloc;
        "{{ \"Path\": {path}, \"Size\": {size}, \"Last-Modified\": {modified}, \"Checksum-Algorithm\": {kind}, \"Checksum\": {sum} }}"
    )?)
}

/// The line of a file, without what ends it.
fn row_line(alloc: Global, row: &FileRow) -> Result<String, NoMemory>
    requires { IsWritableRow row.now }
    ensures { IfOk result (λ s. string_bytes s ≡ row_text row.now) }
{
    let path = quoted(alloc, as_text(&row.path))?;
    let modified = quoted(alloc, as_text(&row.modified))?;
    let kind = quoted(alloc, row.kind.name())?;
    let sum = quoted(alloc, as_text(&row.sum))?;
    line_of(alloc, &path, row.size, &modified, &kind, &sum)
}

/// What ends the line of a file with these files behind it.
fn row_end(behind: &[FileRow]) -> &'static [u8]
    ensures { result.now ≡ row_end behind.now }
{
    match behind {
        [] => b"\n",
        [_, ..] => b",\n",
    }
}

/// Adds the line of a file, which is the last one where no files are behind it.
fn add_row(
    alloc: Global,
    row: &FileRow,
    behind: &[FileRow],
    lines: &mut Vec<u8>,
) -> Result<(), NoMemory>
    requires { IsWritableRow row.now }
    ensures { OnOk result (lines.new.items
        ≡ lines.old.items ++ (row_text row.now ++ row_end behind.now)) }
{
    let line = row_line(alloc, row)?;
    lines.extend_from_slice(line.as_bytes())?;
    let end = row_end(behind);
    lines.extend_from_slice(end)?;
    Ok(())
}

/// Adds the lines of files.
fn add_rows(alloc: Global, rows: &[FileRow], lines: &mut Vec<u8>) -> Result<(), NoMemory>
    requires { All IsWritableRow rows.now }
    ensures { OnOk result (lines.new.items ≡ lines.old.items ++ rows_text rows.now) }
{
    let mut left = rows;
    while let Some((row, behind)) = left.split_first() {
        add_row(alloc, row, behind, lines)?;
        left = behind;
    }
    Ok(())
}

/// The lines before those of the files.
#[tactic(auto, unfolding(crate::specs::Text::head_text))]
fn head_lines(alloc: Global, system: u64) -> Result<String, NoMemory>
    ensures { IfOk result (λ s. string_bytes s ≡ head_text system) }
{
    Ok(format!(in alloc;
        "{{ \"PostgreSQL-Backup-Manifest-Version\": 2,\n\"System-Identifier\": {system},\n\"Files\": [\n"
    )?)
}

/// The lines behind those of the files, up to that of the sum, with LSNs that are written as JSON
/// already.
#[tactic(auto, unfolding(crate::specs::Text::tail_of))]
fn tail_lines(alloc: Global, start: &str, end: &str) -> Result<String, NoMemory>
    ensures { IfOk result (λ s. string_bytes s ≡ tail_of start.now end.now) }
{
    Ok(format!(in alloc;
        "],\n\"WAL-Ranges\": [\n{{ \"Timeline\": 1, \"Start-LSN\": {start}, \"End-LSN\": {end} }}\n],\n"
    )?)
}

/// The lines before that of the sum.
fn lines_of(alloc: Global, m: &Manifest) -> Result<Vec<u8>, NoMemory>
    requires { IsWritable m.now }
    ensures { IfOk result (λ lines. lines.items ≡ lines_text m.now) }
{
    let start = quoted_lsn(alloc, m.start)?;
    let end = quoted_lsn(alloc, m.end)?;
    let tail = tail_lines(alloc, &start, &end)?;
    let mut lines = head_lines(alloc, m.system.unwrap())?.into_bytes();
    add_rows(alloc, &m.files, &mut lines)?;
    lines.extend_from_slice(tail.as_bytes())?;
    Ok(lines)
}

/// Adds the line of the sum of all that stands there.
fn add_sum(alloc: Global, lines: &mut Vec<u8>) -> Result<(), NoMemory>
    ensures { OnOk result (lines.new.items
        ≡ lines.old.items ++ last_line (sha256 lines.old.items)) }
{
    let sum = Sha256::digest(&*lines);
    let digits = hex::encode(alloc, &sum)?;
    lines.extend_from_slice(FRONT)?;
    lines.extend_from_slice(digits.as_bytes())?;
    lines.extend_from_slice(BACK)?;
    Ok(())
}

/// The text of a manifest of version 2.
pub fn write_manifest(alloc: Global, m: &Manifest) -> Result<Vec<u8>, NoMemory>
    requires { IsWritable m.now }
    ensures { IfOk result (λ text. text.items ≡ manifest_text m.now) }
{
    let mut text = lines_of(alloc, m)?;
    add_sum(alloc, &mut text)?;
    Ok(text)
}

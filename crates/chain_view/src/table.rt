//! Lines as text, in columns that stand below one another.

ghost use Rattle.std.specs.Prelude.{◌≡◌, ◌++◌, ◌∷◌, [], IfOk, OnOk, length, replicate};
ghost use Rattle.chain_view.specs.Table.{cell_text, gap_text, wider, widths_in, cells_text, lines_text, table_text, listing_text};
ghost use Rattle.chain_view.specs.Columns.{header};

use crate::cells::{Cell, Line};
use crate::columns::header;
use lsn_core::{NoMemory, Text};
use std::alloc::Global;

/// How many columns a line has.
const COLUMNS: usize = 9;

/// The text of a cell.
fn cell_text(alloc: Global, cell: &Cell) -> Result<Text, NoMemory>
    ensures { IfOk result (λ text. text ≡ cell_text cell.now) }
{
    match cell {
        Cell::Nothing => Ok(Text::copied(alloc, b"-")?),
        Cell::Word(word) => Text::copied(alloc, word.as_str().as_bytes()),
        Cell::Number(n) => {
            let n = *n;
            Ok(Text::from_vec(format!(in alloc; "{n}")?.into_bytes()))
        }
    }
}

/// Widths that are enough for the cells of one more line.
fn wider(alloc: Global, widths: &[usize], line: &Line) -> Result<Vec<usize>, NoMemory>
    ensures { IfOk result (λ wide. wide.items ≡ wider widths.now line.now) }
{
    let mut wide = Vec::new(alloc);
    let mut left = widths;
    let mut cells = line.cells.as_slice();
    while let Some((width, behind)) = left.split_first() {
        let Some((cell, cells_behind)) = cells.split_first() else {
            return Ok(wide);
        };
        let text = cell_text(alloc, cell)?;
        wide.push(text.as_bytes().len().max(*width))?;
        left = behind;
        cells = cells_behind;
    }
    Ok(wide)
}

/// As many widths of 0 as there are columns.
fn no_widths(alloc: Global) -> Result<Vec<usize>, NoMemory>
    ensures { IfOk result (λ widths. widths.items ≡ replicate COLUMNS 0) }
{
    let mut widths = Vec::new(alloc);
    widths.resize(COLUMNS, 0)?;
    Ok(widths)
}

/// Widths that are enough for the cells of all lines.
fn widths_in(alloc: Global, lines: &[Line]) -> Result<Vec<usize>, NoMemory>
    ensures { IfOk result (λ widths. widths.items ≡ widths_in (replicate COLUMNS 0) lines.now) }
{
    let mut widths = no_widths(alloc)?;
    let mut left = lines;
    while let Some((line, behind)) = left.split_first() {
        widths = wider(alloc, &widths, line)?;
        left = behind;
    }
    Ok(widths)
}

fn add_blanks(text: &mut Vec<u8>, count: usize) -> Result<(), NoMemory>
    ensures { OnOk result (text.new.items ≡ text.old.items ++ replicate count 32) }
{
    let mut left = count;
    while left > 0 {
        text.push(b' ')?;
        left -= 1;
    }
    Ok(())
}

/// Adds the blanks that stand behind a cell of this length, with these cells behind it: as many as
/// its column is wider, and two more; none behind the last one.
fn add_gap(text: &mut Vec<u8>, width: usize, length: usize, behind: &[Cell]) -> Result<(), NoMemory>
    ensures { OnOk result (text.new.items
        ≡ text.old.items ++ gap_text width length behind.now) }
{
    if behind.is_empty() {
        return Ok(());
    }
    add_blanks(text, width.saturating_sub(length))?;
    text.extend_from_slice(b"  ")?;
    Ok(())
}

/// Adds a line of text.
fn add_line(
    alloc: Global,
    text: &mut Vec<u8>,
    widths: &[usize],
    line: &Line,
) -> Result<(), NoMemory>
    ensures { OnOk result (text.new.items
        ≡ text.old.items ++ cells_text widths.now line.now) }
{
    let mut left = line.cells.as_slice();
    let mut columns = widths;
    while let Some((cell, behind)) = left.split_first() {
        let Some((width, columns_behind)) = columns.split_first() else {
            break;
        };
        let word = cell_text(alloc, cell)?;
        text.extend_from_slice(word.as_bytes())?;
        add_gap(text, *width, word.as_bytes().len(), behind)?;
        left = behind;
        columns = columns_behind;
    }
    text.push(b'\n')?;
    Ok(())
}

/// Adds lines of text.
fn add_lines(
    alloc: Global,
    text: &mut Vec<u8>,
    widths: &[usize],
    lines: &[Line],
) -> Result<(), NoMemory>
    ensures { OnOk result (text.new.items
        ≡ text.old.items ++ lines_text widths.now lines.now) }
{
    let mut left = lines;
    while let Some((line, behind)) = left.split_first() {
        add_line(alloc, text, widths, line)?;
        left = behind;
    }
    Ok(())
}

/// Lines as text with the titles of the columns before them, all columns as wide as their widest
/// cells.
pub fn listing_text(alloc: Global, mut lines: Vec<Line>) -> Result<Text, NoMemory>
    ensures { IfOk result (λ text. text ≡ listing_text lines.items) }
{
    lines.insert(0, header(alloc)?)?;
    let widths = widths_in(alloc, &lines)?;
    let mut text = Vec::new(alloc);
    add_lines(alloc, &mut text, &widths, &lines)?;
    Ok(Text::from_vec(text))
}

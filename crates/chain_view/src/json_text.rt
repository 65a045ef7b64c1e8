//! A listing, and the names of a chain, in JSON.

ghost use Rattle.std.specs.Prelude.{◌≡◌, IfOk, false, map};
ghost use Rattle.serde_json.specs.Data.{no_members};
ghost use Rattle.serde_json.specs.View.{view, items_of, members_view};
ghost use Rattle.serde_json.specs.Written.{items_have_float};
ghost use Rattle.chain_view.specs.Json.{cell_json, members_json, line_json, lines_json, names_json, array_line, listing_json, members_json_line};

use crate::cells::{Cell, Line};
use crate::columns::key_of;
use chain_listing::Word;
use lsn_core::{NoMemory, Text};
use serde_json::{Map, Value, put};
use std::alloc::Global;

/// The value of a cell.
fn cell_json(alloc: Global, cell: &Cell) -> Result<Value, NoMemory>
    ensures { IfOk result (λ value. view value ≡ cell_json cell.now) }
{
    match cell {
        Cell::Nothing => Ok(Value::Null),
        Cell::Word(word) => Ok(Value::try_from_str(alloc, word.as_str())?),
        Cell::Number(n) => Ok(Value::from(*n)),
    }
}

/// The members of the object of a line.
fn members_json(alloc: Global, line: &Line) -> Result<Map<String, Value>, NoMemory>
    ensures { IfOk result (λ m. members_view m.entries ≡ members_json 0 line.now no_members) }
{
    let mut members = Map::new(alloc);
    let mut place = 0;
    let mut left = line.cells.as_slice();
    while let Some((cell, behind)) = left.split_first() {
        put(&mut members, alloc, key_of(place), cell_json(alloc, cell)?)?;
        place += 1;
        left = behind;
    }
    Ok(members)
}

/// The object of a line.
fn line_json(alloc: Global, line: &Line) -> Result<Value, NoMemory>
    ensures { IfOk result (λ value. view value ≡ line_json line.now) }
{
    Ok(Value::Object(members_json(alloc, line)?))
}

/// The objects of lines.
fn lines_json(alloc: Global, lines: &[Line]) -> Result<Vec<Value>, NoMemory>
    ensures { IfOk result (λ values. map view values.items ≡ lines_json lines.now) }
{
    let mut values = Vec::new(alloc);
    let mut left = lines;
    while let Some((line, behind)) = left.split_first() {
        values.push(line_json(alloc, line)?)?;
        left = behind;
    }
    Ok(values)
}

/// Names as values.
fn names_json(alloc: Global, names: &[Word]) -> Result<Vec<Value>, NoMemory>
    ensures { IfOk result (λ values. map view values.items ≡ names_json names.now) }
{
    let mut values = Vec::new(alloc);
    let mut left = names;
    while let Some((name, behind)) = left.split_first() {
        values.push(Value::try_from_str(alloc, name.as_str())?)?;
        left = behind;
    }
    Ok(values)
}

/// The line of an array of these values.
fn array_line(alloc: Global, values: Vec<Value>) -> Result<Text, NoMemory>
    requires { items_have_float (items_of (map view values.items)) ≡ false }
    ensures { IfOk result (λ text. text ≡ array_line (map view values.items)) }
{
    let text = Value::Array(values).to_string(alloc)?;
    let mut line = text.into_bytes();
    line.push(b'\n')?;
    Ok(Text::from_vec(line))
}

/// Lines as a line of JSON: an array of an object a line, each with a member a column.
pub fn listing_json(alloc: Global, lines: &[Line]) -> Result<Text, NoMemory>
    ensures { IfOk result (λ text. text ≡ listing_json lines.now) }
{
    let values = lines_json(alloc, lines)?;
    array_line(alloc, values)
}

/// The names of a chain as a line of JSON: an array of texts.
pub fn members_json_line(alloc: Global, names: &[Word]) -> Result<Text, NoMemory>
    ensures { IfOk result (λ text. text ≡ members_json_line names.now) }
{
    let values = names_json(alloc, names)?;
    array_line(alloc, values)
}

//! The columns of a listing.

ghost use Rattle.std.specs.Prelude.{◌≡◌, IfOk};
ghost use Rattle.chain_view.specs.declared.cells.Cell.TheVariants as cell;
ghost use Rattle.chain_view.specs.Columns.{title_of, key_of, header};

use crate::cells::{Cell, Line};
use chain_listing::Word;
use lsn_core::NoMemory;
use std::alloc::Global;

/// The title of the column of this place, from 0.
fn title_of(place: usize) -> &'static str
    ensures { result.now ≡ title_of place }
{
    match place {
        0 => "CHAIN",
        1 => "NAME",
        2 => "KIND",
        3 => "START",
        4 => "END",
        5 => "PRIOR",
        6 => "FILES",
        7 => "BYTES",
        _ => "FAULT",
    }
}

/// The key of the column of this place, from 0.
pub(crate) fn key_of(place: usize) -> &'static str
    ensures { result.now ≡ key_of place }
{
    match place {
        0 => "chain",
        1 => "name",
        2 => "kind",
        3 => "start",
        4 => "end",
        5 => "prior",
        6 => "files",
        7 => "bytes",
        _ => "fault",
    }
}

fn title(alloc: Global, place: usize) -> Result<Cell, NoMemory>
    ensures { IfOk result (λ c. c ≡ cell.Word (title_of place)) }
{
    Ok(Cell::Word(Word::copied(alloc, title_of(place))?))
}

/// The line of the titles.
pub(crate) fn header(alloc: Global) -> Result<Line, NoMemory>
    ensures { IfOk result (λ line. line ≡ header) }
{
    let cells = Vec::from_array(
        alloc,
        [
            title(alloc, 0)?,
            title(alloc, 1)?,
            title(alloc, 2)?,
            title(alloc, 3)?,
            title(alloc, 4)?,
            title(alloc, 5)?,
            title(alloc, 6)?,
            title(alloc, 7)?,
            title(alloc, 8)?,
        ],
    )?;
    Ok(Line { cells })
}

//! The cells of a listing: what stands in each column of each line.

ghost use Rattle.std.specs.Prelude.{◌≡◌, IfOk};
ghost use Rattle.std.specs.Option.{option_map};
ghost use Rattle.chain_view.specs.Cells.{cell_of, manifest_why, fault_text, broken_text, fault_cell, member_line, damaged_line};

use chain_listing::{Backup, Damaged, FolderFault, Word, lsn_word};
use lsn_core::{Lsn, NoMemory};
use manifest::ManifestFault;
use std::alloc::Global;
use std::marker::Model;

/// What stands in a column of a line.
#[derive(Debug, Drop)]
pub enum Cell {
    /// Nothing.
    Nothing,
    /// A word.
    Word(Word),
    /// A number.
    Number(u64),
}

/// A line of a listing: a cell for each column. Contracts see the list.
#[derive(Drop)]
pub struct Line {
    pub cells: Vec<Cell>,
}

impl Model for Line {
    ghost use Rattle.std.specs.Prelude.{List};
    ghost use Rattle.chain_view.specs.declared.cells.Cell.{Cell};

    ghost Value = { List Cell };

    ghost view = { λ l. l.cells.items };
}

/// A backup in its chain.
#[derive(Drop)]
pub struct Member {
    pub backup: Backup,
    /// The name of the first backup of the chain that it ends, where it ends one.
    pub chain: Option<Word>,
    /// The name of the backup that it stands on, where that is there.
    pub prior: Option<Word>,
}

/// The cell of a word, where there is one.
fn cell_of(alloc: Global, word: Option<&Word>) -> Result<Cell, NoMemory>
    ensures { IfOk result (λ cell. cell ≡ cell_of (option_map (λ w. w.now) word.entry)) }
{
    match word {
        Some(word) => Ok(Cell::Word(Word::copied(alloc, word.as_str())?)),
        None => Ok(Cell::Nothing),
    }
}

/// Why the text of a manifest is refused.
fn manifest_why(alloc: Global, why: ManifestFault) -> Result<Word, NoMemory>
    ensures { IfOk result (λ word. word ≡ manifest_why why) }
{
    match why {
        ManifestFault::Lines => Word::copied(alloc, "ManifestDamaged Lines"),
        ManifestFault::Sum => Word::copied(alloc, "ManifestDamaged Sum"),
        ManifestFault::Json => Word::copied(alloc, "ManifestDamaged Json"),
        ManifestFault::Shape => Word::copied(alloc, "ManifestDamaged Shape"),
        ManifestFault::SumKind => Word::copied(alloc, "ManifestDamaged SumKind"),
        ManifestFault::Version(v) => {
            Ok(Word::from_string(format!(in alloc; "ManifestVersion {v}")?))
        }
        ManifestFault::TimelineIs(v) => {
            Ok(Word::from_string(format!(in alloc; "TimelineDiffers {v}")?))
        }
        ManifestFault::NoMemory => Word::copied(alloc, "NoMemory"),
    }
}

/// Why a folder is no backup, as `pgbackup` tells it.
fn fault_text(alloc: Global, fault: FolderFault) -> Result<Word, NoMemory>
    ensures { IfOk result (λ word. word ≡ fault_text fault) }
{
    match fault {
        FolderFault::Name => Word::copied(alloc, "Name"),
        FolderFault::NoManifest => Word::copied(alloc, "NoManifest"),
        FolderFault::Manifest(why) => manifest_why(alloc, why),
        FolderFault::Label(line) => {
            Ok(Word::from_string(format!(in alloc; "LabelDamaged {line}")?))
        }
        FolderFault::Version(v) => {
            Ok(Word::from_string(format!(in alloc; "ManifestVersion {v}")?))
        }
        FolderFault::Timeline(v) => {
            Ok(Word::from_string(format!(in alloc; "TimelineDiffers {v}")?))
        }
        FolderFault::NoMemory => Word::copied(alloc, "NoMemory"),
    }
}

/// Why a backup that names this prior's start ends no chain: the prior isn't there, or the chain
/// that it ends, if any, has 64 members already.
fn broken_text(alloc: Global, start: Lsn, prior: Option<&Word>) -> Result<Word, NoMemory>
    ensures { IfOk result (λ word. word ≡ broken_text start (option_map (λ w. w.now) prior.entry)) }
{
    if prior.is_some() {
        return Word::copied(alloc, "NoChain");
    }
    let start = lsn_word(alloc, start)?;
    let start = start.as_str();
    Ok(Word::from_string(format!(in alloc; "NoPrior {start}")?))
}

/// Why a backup ends no chain, where it ends none.
fn fault_cell(alloc: Global, member: &Member) -> Result<Cell, NoMemory>
    ensures { IfOk result (λ cell. cell ≡ fault_cell member.now) }
{
    if member.chain.is_some() {
        return Ok(Cell::Nothing);
    }
    match member.backup.prior {
        Some(start) => Ok(Cell::Word(broken_text(alloc, start, member.prior.as_ref())?)),
        None => Ok(Cell::Nothing),
    }
}

/// The line of a backup.
pub(crate) fn member_line(alloc: Global, member: &Member) -> Result<Line, NoMemory>
    ensures { IfOk result (λ line. line ≡ member_line member.now) }
{
    let backup = &member.backup;
    let cells = Vec::from_array(
        alloc,
        [
            cell_of(alloc, member.chain.as_ref())?,
            Cell::Word(Word::copied(alloc, backup.name.as_str())?),
            Cell::Word(Word::copied(alloc, backup.kind.name())?),
            Cell::Word(lsn_word(alloc, backup.start)?),
            Cell::Word(lsn_word(alloc, backup.end)?),
            cell_of(alloc, member.prior.as_ref())?,
            Cell::Number(backup.files),
            Cell::Number(backup.bytes),
            fault_cell(alloc, member)?,
        ],
    )?;
    Ok(Line { cells })
}

/// The line of a folder that is no backup.
pub(crate) fn damaged_line(alloc: Global, damaged: &Damaged) -> Result<Line, NoMemory>
    ensures { IfOk result (λ line. line ≡ damaged_line damaged.now) }
{
    let cells = Vec::from_array(
        alloc,
        [
            Cell::Nothing,
            Cell::Word(Word::copied(alloc, damaged.name.as_str())?),
            Cell::Word(Word::copied(alloc, "damaged")?),
            Cell::Nothing,
            Cell::Nothing,
            Cell::Nothing,
            Cell::Nothing,
            Cell::Nothing,
            Cell::Word(fault_text(alloc, damaged.fault)?),
        ],
    )?;
    Ok(Line { cells })
}

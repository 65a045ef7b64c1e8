//! A backup, as its label and its manifest tell of it.

ghost use Rattle.std.specs.Prelude.{◌≡◌, IfOk};
ghost use Rattle.std.specs.List.{list_all};
ghost use Rattle.chain_listing.specs.Words.{is_name, is_name_byte};
ghost use Rattle.chain_listing.specs.Backups.{kind_of, kind_name, is_full, bytes_in, backup_of};
ghost use Rattle.chain_listing.specs.Order.{rank, backup_cmp};

use crate::word::{Word, plain_word};
use backup_label::Label;
use lsn_core::{Lsn, NoMemory};
use manifest::{FileRow, Manifest};
use std::alloc::Global;
use std::cmp::Ordering;

/// What a backup is.
#[derive(Clone, Copy, Debug, PartialEq, Eq)]
pub enum Kind {
    /// A full backup.
    Full,
    /// A backup of what changed since another one.
    Incremental,
    /// A full backup that a chain was combined to: its label has the name of another backup.
    Combined,
}

impl Kind {
    /// The word for it.
    pub fn name(self) -> &'static str
        ensures { result.now ≡ kind_name self }
    {
        match self {
            Kind::Full => "full",
            Kind::Incremental => "incremental",
            Kind::Combined => "combined",
        }
    }
}

/// What the label and the manifest of a backup tell.
#[derive(Debug, Drop)]
pub struct Backup {
    /// The name of its folder.
    pub name: Word,
    /// What it is.
    pub kind: Kind,
    /// The system identifier of its store.
    pub system: u64,
    /// Where a restore begins to read the WAL.
    pub start: Lsn,
    /// How far a restore has to read the WAL at least.
    pub end: Lsn,
    /// Where the backup starts that it stands on; None of a full one.
    pub prior: Option<Lsn>,
    /// How many files it has.
    pub files: u64,
    /// How many bytes these have; 2^64 - 1 also for more.
    pub bytes: u64,
}

impl Backup {
    /// Whether it stands on no other one.
    pub fn is_full(&self) -> bool
        ensures { result ≡ is_full self.now }
    {
        self.prior.is_none()
    }

    /// A copy.
    pub fn copied(&self, alloc: Global) -> Result<Backup, NoMemory>
        ensures { IfOk result (λ backup. backup ≡ self.now) }
    {
        let name = Word::copied(alloc, self.name.as_str())?;
        Ok(Backup { name, ..*self })
    }

    /// 0 for a full backup, and 1 for an incremental one.
    fn rank(&self) -> u8
        ensures { result ≡ rank self.now }
    {
        if self.is_full() { 0 } else { 1 }
    }

    /// The order in which backups are listed: by their ends, of those with one end full ones first,
    /// and then by name.
    pub(crate) fn order(&self, other: &Backup) -> Ordering
        ensures { result ≡ backup_cmp self.now other.now }
    {
        self.end
            .cmp(&other.end)
            .then(self.rank().cmp(&other.rank()))
            .then(self.name.as_str().cmp(other.name.as_str()))
    }
}

/// Whether a byte may stand in the name of a backup.
fn is_name_byte(b: u8) -> bool
    ensures { result ≡ is_name_byte b }
{
    matches!(b, b'a'..=b'z' | b'0'..=b'9' | b'_')
}

/// Whether each byte may.
fn has_name_bytes(name: &[u8]) -> bool
    ensures { result ≡ list_all is_name_byte name.now }
{
    name.iter().all(|b| is_name_byte(*b))
}

/// Whether a name is one that `pgbackup` takes: 1 to 32 of `a` to `z`, `0` to `9`, `_` (profile).
pub(crate) fn is_name(name: &[u8]) -> bool
    ensures { result ≡ is_name name.now }
{
    1 <= name.len() && name.len() <= 32 && has_name_bytes(name)
}

/// What the backup of a folder is, by its label.
fn kind_of(folder: &[u8], label: &Label) -> Kind
    ensures { result ≡ kind_of folder.now label.now }
{
    if label.prior.is_some() {
        return Kind::Incremental;
    }
    if is_name(label.label.as_bytes()) && label.label.as_bytes() != folder {
        return Kind::Combined;
    }
    Kind::Full
}

/// How many bytes the files of rows have; 2^64 - 1 also for more.
fn bytes_in(rows: &[FileRow]) -> u64
    ensures { result ≡ bytes_in rows.now }
{
    let mut bytes: u64 = 0;
    let mut left = rows;
    while let Some((row, behind)) = left.split_first() {
        bytes = bytes.saturating_add(row.size);
        left = behind;
    }
    bytes
}

/// The backup of a folder with this manifest and this label.
pub(crate) fn backup_of(
    alloc: Global,
    folder: &[u8],
    manifest: &Manifest,
    label: &Label,
) -> Result<Backup, NoMemory>
    ensures { IfOk result (λ backup. backup ≡ backup_of folder.now manifest.now label.now) }
{
    Ok(Backup {
        name: plain_word(alloc, folder)?,
        kind: kind_of(folder, label),
        system: manifest.system.unwrap_or(0),
        start: manifest.start,
        end: manifest.end,
        prior: label.prior.map(|prior| prior.0),
        files: manifest.files.len() as u64,
        bytes: bytes_in(&manifest.files),
    })
}

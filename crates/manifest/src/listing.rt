//! What a manifest lists.

use crate::kinds::SumKind;
use lsn_core::{Lsn, Text};
use std::marker::Model;

/// A file of a backup.
#[derive(Debug, Drop)]
pub struct FileRow {
    /// The path below the backup's directory.
    pub path: Text,
    /// The size in bytes.
    pub size: u64,
    /// When the file was last modified, in any form.
    pub modified: Text,
    /// The kind of the sum.
    pub kind: SumKind,
    /// The sum of the file's bytes in hexadecimal digits, in either case.
    pub sum: Text,
}

/// The manifest of a backup. Contracts see a `Listing`.
#[derive(Drop)]
pub struct Manifest {
    /// The version of the manifest's form.
    pub version: u32,
    /// The system identifier of the store, where the version has one: version 2 has, 1 hasn't.
    pub system: Option<u64>,
    /// The files, in byte order of their paths.
    pub files: Vec<FileRow>,
    /// Where a restore begins to read the WAL.
    pub start: Lsn,
    /// How far a restore has to read the WAL at least.
    pub end: Lsn,
}

impl Model for Manifest {
    ghost use Rattle.manifest.specs.Listing.{Listing};

    ghost Value = { Listing };

    ghost view = { λ m. record {
      version = m.version;
      system = m.system;
      files = m.files.items;
      start = m.start.0;
      end = m.end.0;
    } };
}

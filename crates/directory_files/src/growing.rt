//! A file that is written piece by piece.

ghost use Rattle.std.specs.Prelude.{◌≡◌, ◌≢◌, ◌+◌, ◌^◌, ◌<◌, ℕ, List, [], ◌++◌, length, Option, IfOk, OnOk};
ghost use Rattle.sha2.specs.Sha256.{sha256};
ghost use Rattle.lsn_core.specs.Causes.{HasCause};
ghost use Rattle.lsn_core.specs.Files.{Files};
ghost use Rattle.backup_files.specs.Directory.{manifest_name};
ghost use Rattle.backup_files.specs.Area.{Lacks, SparesManifest, with_file};
ghost use Rattle.directory_files.specs.Written.{Holds};

use lsn_core::AreaFault;
use sha2::{Digest, Sha256};
use vault::Vault;

/// A file of the output that is written piece by piece: how many bytes it has, and what hashes
/// them.
#[derive(Drop)]
pub struct Growing {
    size: u64,
    hasher: Sha256,
}

impl Growing {
    /// Makes a file that isn't there.
    pub fn begin<V: Vault>(out: &mut V, path: &[u8]) -> Result<Growing, AreaFault>
        requires other { path.now ≢ manifest_name }
        requires missing { Lacks (V.files out.old) path.now }
        ensures holds { IfOk result (λ file. Holds file []) }
        ensures written { OnOk result
            (V.files out.new ≡ with_file path.now [] (V.files out.old)) }
        ensures spares { SparesManifest V.Vault out.old out.new }
        ensures cause { HasCause (V.faults out.old) (V.faults out.new) result }
    {
        out.write_at(path, 0, &[])?;
        Ok(Growing {
            size: 0,
            hasher: Sha256::new(),
        })
    }

    /// Writes a piece behind what the file holds.
    pub fn add<V: Vault>(&mut self, out: &mut V, path: &[u8], piece: &[u8]) -> Result<(), AreaFault>
        requires other { path.now ≢ manifest_name }
        requires fits { self.old.size + length piece.now < 2 ^ 64 }
        ensures sized { OnOk result (self.new.size ≡ self.old.size + length piece.now) }
        ensures holds { OnOk result ((bytes : List ℕ) → Holds self.old bytes
            → Holds self.new (bytes ++ piece.now)) }
        ensures written { OnOk result ((bytes : List ℕ) (before : Option Files)
            → Holds self.old bytes → V.files out.old ≡ with_file path.now bytes before
            → V.files out.new ≡ with_file path.now (bytes ++ piece.now) before) }
        ensures spares { SparesManifest V.Vault out.old out.new }
        ensures cause { HasCause (V.faults out.old) (V.faults out.new) result }
    {
        out.write_at(path, self.size, piece)?;
        self.hasher.update(piece);
        self.size += piece.len() as u64;
        Ok(())
    }

    /// How many bytes it holds.
    pub fn size(&self) -> u64
        ensures { result ≡ self.now.size }
    {
        self.size
    }

    /// The SHA-256 of what it holds.
    pub fn sum(self) -> [u8; 32]
        ensures { (bytes : List ℕ) → Holds self bytes → result ≡ sha256 bytes }
    {
        self.hasher.finalize()
    }
}

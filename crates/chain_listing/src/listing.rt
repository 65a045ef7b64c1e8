//! The backups of an area in their order, and the folders that are none.

ghost use Rattle.std.specs.Prelude.{◌≡◌, IfOk, IfSome, OnOk};
ghost use Rattle.lsn_core.specs.Causes.{HasCause};
ghost use Rattle.vault.specs.Frame.{OnlyReads};
ghost use Rattle.chain_listing.specs.Listing.{nothing, with_shown, listing_in, IsListing};

use crate::backup::Backup;
use crate::chains::add_backup;
use crate::reading::{Folder, folders_of};
use crate::shown::FolderFault;
use crate::word::{Word, plain_word};
use lsn_core::{AreaFault, NoMemory};
use std::alloc::Global;
use std::marker::Model;
use vault::Vault;

/// A folder that is no backup which can be a member of a chain.
#[derive(Debug, Drop)]
pub struct Damaged {
    /// Its name.
    pub name: Word,
    /// Why it is none.
    pub fault: FolderFault,
}

/// What is listed of an area. Contracts see a `View`.
#[derive(Drop)]
pub struct Listing {
    /// The backups, by their ends, of those with one end full ones first, and then by name.
    pub backups: Vec<Backup>,
    /// The folders that are none, in the order of the names of their files.
    pub damaged: Vec<Damaged>,
}

impl Model for Listing {
    ghost use Rattle.chain_listing.specs.Listing.{View};

    ghost Value = { View };

    ghost view = { λ l. record { backups = l.backups.items; damaged = l.damaged.items } };
}

/// Puts what a folder shows to what is listed.
fn add_shown(alloc: Global, listing: &mut Listing, folder: Folder) -> Result<(), NoMemory>
    ensures { OnOk result (listing.new ≡ with_shown listing.old folder) }
{
    let Folder { name, shows } = folder;
    match shows {
        Ok(backup) => add_backup(&mut listing.backups, backup),
        Err(fault) => {
            let name = plain_word(alloc, name.as_bytes())?;
            listing.damaged.push(Damaged { name, fault })?;
            Ok(())
        }
    }
}

/// What is listed of these folders.
fn listing_in(alloc: Global, folders: Vec<Folder>) -> Result<Listing, NoMemory>
    ensures { IfOk result (λ listing. listing ≡ listing_in nothing folders.items) }
{
    let mut listing = Listing {
        backups: Vec::new(alloc),
        damaged: Vec::new(alloc),
    };
    for folder in folders {
        add_shown(alloc, &mut listing, folder)?;
    }
    Ok(listing)
}

/// The backups of an area, and its folders that are none. The area is only read, and of each folder
/// no file but the manifest and the label.
pub fn listing_of<V: Vault>(alloc: Global, area: &mut V) -> Result<Listing, AreaFault>
    ensures listing { IfOk result (λ listing. IfSome (V.files area.old) (λ m.
        IsListing m listing)) }
    ensures reads { OnlyReads V.Vault area.old area.new }
    ensures cause { HasCause (V.faults area.old) (V.faults area.new) result }
{
    let folders = folders_of(alloc, area)?;
    Ok(listing_in(alloc, folders)?)
}

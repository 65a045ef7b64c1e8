//! The folders of an area, and what each of them shows.

ghost use Rattle.std.specs.Prelude.{◌≡◌, ◌++◌, ◌∷◌, [], All, map, IfOk, OnOk, IfSome};
ghost use Rattle.std.specs.Option.{option_map};
ghost use Rattle.lsn_core.specs.Causes.{HasCause};
ghost use Rattle.vault.specs.Frame.{OnlyReads};
ghost use Rattle.chain_listing.specs.Shown.{Shows, TextsTell};
ghost use Rattle.chain_listing.specs.Folders.{is_other, with_folder, folders_in, IsFile, TellsIn, EntryShows, AreShown};

use crate::backup::{Backup, is_name};
use crate::shown::{FolderFault, shown};
use backup_files::MANIFEST;
use lsn_core::byte_words::cut_at;
use lsn_core::{AreaFault, NoMemory, Text};
use std::alloc::Global;
use vault::{Vault, read_whole};

/// The file of a label.
const LABEL: &[u8] = b"backup_label";

/// A folder of backups.
#[derive(Debug, Drop)]
pub struct Folder {
    /// Its name.
    pub name: Text,
    /// The backup that it is, or why it is none.
    pub shows: Result<Backup, FolderFault>,
}

/// Whether a folder isn't the last one of these.
fn is_other(folders: &[Text], folder: &[u8]) -> bool
    ensures { result ≡ is_other folders.now folder.now }
{
    match folders.last() {
        Some(last) => last.as_bytes() != folder,
        None => true,
    }
}

/// Adds the folder of a file, where it isn't the last one.
fn add_folder(alloc: Global, folders: &mut Vec<Text>, name: &[u8]) -> Result<(), NoMemory>
    ensures { OnOk result (folders.new.items ≡ with_folder folders.old.items name.now) }
{
    let Some((folder, _)) = cut_at(b'/', name) else {
        return Ok(());
    };
    if is_other(folders, folder) {
        folders.push(Text::copied(alloc, folder)?)?;
    }
    Ok(())
}

/// The folders of files of these names.
fn folders_in(alloc: Global, names: &[Text]) -> Result<Vec<Text>, NoMemory>
    ensures { IfOk result (λ folders. folders.items ≡ folders_in [] names.now) }
{
    let mut folders = Vec::new(alloc);
    let mut left = names;
    while let Some((name, behind)) = left.split_first() {
        add_folder(alloc, &mut folders, name.as_bytes())?;
        left = behind;
    }
    Ok(folders)
}

/// The path of a file of a folder.
fn path_in(alloc: Global, folder: &[u8], file: &[u8]) -> Result<Vec<u8>, NoMemory>
    ensures { IfOk result (λ path. path.items ≡ folder.now ++ (47 ∷ file.now)) }
{
    let mut path = Vec::new(alloc);
    path.extend_from_slice(folder)?;
    path.push(b'/')?;
    path.extend_from_slice(file)?;
    Ok(path)
}

/// The bytes of a file, where it is there.
fn file_in<V: Vault>(alloc: Global, area: &mut V, path: &[u8]) -> Result<Option<Vec<u8>>, AreaFault>
    ensures bytes { IfOk result (λ found. IfSome (V.files area.old) (λ m.
        IsFile m path.now found)) }
    ensures reads { OnlyReads V.Vault area.old area.new }
    ensures cause { HasCause (V.faults area.old) (V.faults area.new) result }
{
    if area.size(path)?.is_none() {
        return Ok(None);
    }
    let bytes = read_whole(alloc, area, path)?;
    Ok(Some(bytes))
}

/// The bytes of a file, where it is there.
fn text_of(file: &Option<Vec<u8>>) -> Option<&[u8]>
    ensures { option_map (λ t. t.now) result ≡ option_map (λ v. v.items) file.now }
{
    match file {
        Some(bytes) => Some(bytes.as_slice()),
        None => None,
    }
}

/// What the texts of a folder of this name tell.
fn told(
    alloc: Global,
    folder: &[u8],
    manifest: Option<&[u8]>,
    label: &[u8],
) -> Result<Result<Backup, FolderFault>, NoMemory>
    ensures { IfOk result (λ shows. TextsTell
        folder.now (option_map (λ t. t.now) manifest.entry) label.now shows) }
{
    match shown(alloc, folder, manifest, label) {
        Ok(backup) => Ok(Ok(backup)),
        Err(FolderFault::NoMemory) => Err(NoMemory),
        Err(fault) => Ok(Err(fault)),
    }
}

/// What a folder shows whose name is a backup's.
fn texts_in<V: Vault>(
    alloc: Global,
    area: &mut V,
    folder: &[u8],
) -> Result<Result<Backup, FolderFault>, AreaFault>
    ensures shows { IfOk result (λ shows. IfSome (V.files area.old) (λ m.
        TellsIn m folder.now shows)) }
    ensures reads { OnlyReads V.Vault area.old area.new }
    ensures cause { HasCause (V.faults area.old) (V.faults area.new) result }
{
    let path = path_in(alloc, folder, MANIFEST)?;
    let manifest = file_in(alloc, area, &path)?;
    let path = path_in(alloc, folder, LABEL)?;
    let label = read_whole(alloc, area, &path)?;
    Ok(told(alloc, folder, text_of(&manifest), &label)?)
}

/// What a folder of this name shows.
fn folder_of<V: Vault>(
    alloc: Global,
    area: &mut V,
    folder: &[u8],
) -> Result<Result<Backup, FolderFault>, AreaFault>
    ensures shows { IfOk result (λ shows. IfSome (V.files area.old) (λ m.
        Shows m folder.now shows)) }
    ensures reads { OnlyReads V.Vault area.old area.new }
    ensures cause { HasCause (V.faults area.old) (V.faults area.new) result }
{
    if !is_name(folder) {
        return Ok(Err(FolderFault::Name));
    }
    texts_in(alloc, area, folder)
}

/// What the folders of these names show.
fn shown_in<V: Vault>(alloc: Global, area: &mut V, names: &[Text]) -> Result<Vec<Folder>, AreaFault>
    ensures names { IfOk result (λ folders. map (λ f. f.name) folders.items ≡ names.now) }
    ensures shown { IfOk result (λ folders. IfSome (V.files area.old) (λ m.
        All (EntryShows m) folders.items)) }
    ensures reads { OnlyReads V.Vault area.old area.new }
    ensures cause { HasCause (V.faults area.old) (V.faults area.new) result }
{
    let mut folders = Vec::new(alloc);
    let mut left = names;
    while let Some((name, behind)) = left.split_first() {
        let shows = folder_of(alloc, area, name.as_bytes())?;
        let name = Text::copied(alloc, name.as_bytes())?;
        folders.push(Folder { name, shows })?;
        left = behind;
    }
    Ok(folders)
}

/// What the folders of an area show, in the order of the names of their files. The area is only
/// read, and of each folder no file but the manifest and the label.
pub fn folders_of<V: Vault>(alloc: Global, area: &mut V) -> Result<Vec<Folder>, AreaFault>
    ensures shown { IfOk result (λ folders. IfSome (V.files area.old) (λ m.
        AreShown m folders.items)) }
    ensures reads { OnlyReads V.Vault area.old area.new }
    ensures cause { HasCause (V.faults area.old) (V.faults area.new) result }
{
    let names = area.names(alloc)?;
    let folders = folders_in(alloc, &names)?;
    shown_in(alloc, area, &folders)
}

//! The pages of a combined file, by where they stand.

ghost use Rattle.std.specs.Prelude.{◌≡◌, ◌≤◌, ◌-◌, ℕ, List, Some, length, min, IfOk, IfErr, IfSome};
ghost use Rattle.lsn_core.specs.Files.{Files};
ghost use Rattle.chain_files.specs.Paths.{IsRelationFile};
ghost use Rattle.chain_files.specs.Segments.{chain_pages};
ghost use Rattle.chain_files.specs.Sources.{AreRead, OfChain, IsSourceAt, IsSourceOf, page_count};
ghost use Rattle.chain_files.specs.Inside.{ArePathsOf};
ghost use Rattle.chain_files.specs.Told.{chain_told, ArePlaces, AllOnlyRead, FailsAt};

use crate::fault::MemberFault;
use crate::mapping::{SourcePages, pages_of};
use crate::paths::{FilePaths, paths_at, paths_of};
use crate::reading::{read_plain, read_slots};
use lsn_core::ForkId;
use std::alloc::Global;
use vault::{Held, Vault};

/// The pages of a file that a chain is combined to, by where they stand. It holds 16 bytes a
/// page at most, and no page.
#[derive(Debug, Drop)]
pub struct SegmentSource {
    paths: FilePaths,
    pages: SourcePages,
}

/// What a chain has of the file of these paths.
fn open_paths<V: Vault>(
    alloc: Global,
    areas: &mut [Held<V>],
    places: &[u32],
    paths: FilePaths,
) -> Result<Option<SegmentSource>, MemberFault>
    requires places { ArePlaces (length areas.old) places.now }
    ensures source { IfOk result (λ found.
        OfChain (chain_told V.Vault areas.old places.now) (λ chain. (folder name : List ℕ)
        → ArePathsOf folder name paths → IsSourceAt chain folder name found)) }
    ensures reads { AllOnlyRead V.Vault areas.old areas.new }
    ensures cause { IfErr result (FailsAt V.Vault areas.old areas.new) }
{
    match pages_of(alloc, areas, places, &paths)? {
        Some(pages) => Ok(Some(SegmentSource { paths, pages })),
        None => Ok(None),
    }
}

/// What a chain has of the file of a folder and a plain name (PostgreSQL manual, pg_combinebackup):
/// `places` says of each member, the oldest one first, which of the areas is its own. None exactly
/// where the chain is combined to no such file. A block that no member has, and one that its area
/// doesn't give, is zeros; a file whose head is none counts as one without blocks.
pub fn open_file<V: Vault>(
    alloc: Global,
    areas: &mut [Held<V>],
    places: &[u32],
    folder: &[u8],
    name: &[u8],
) -> Result<Option<SegmentSource>, MemberFault>
    requires places { ArePlaces (length areas.old) places.now }
    requires placed { IsRelationFile folder.now name.now }
    ensures source { IfOk result (λ found.
        OfChain (chain_told V.Vault areas.old places.now) (λ chain.
        IsSourceAt chain folder.now name.now found)) }
    ensures reads { AllOnlyRead V.Vault areas.old areas.new }
    ensures cause { IfErr result (FailsAt V.Vault areas.old areas.new) }
{
    let paths = paths_at(alloc, folder, name)?;
    open_paths(alloc, areas, places, paths)
}

/// The same of a segment file of a fork.
pub fn open_segment<V: Vault>(
    alloc: Global,
    areas: &mut [Held<V>],
    places: &[u32],
    fork: &ForkId,
    seg: u32,
) -> Result<Option<SegmentSource>, MemberFault>
    requires places { ArePlaces (length areas.old) places.now }
    ensures source { IfOk result (λ found.
        OfChain (chain_told V.Vault areas.old places.now) (λ chain.
        IsSourceOf chain fork.now seg found)) }
    ensures reads { AllOnlyRead V.Vault areas.old areas.new }
    ensures cause { IfErr result (FailsAt V.Vault areas.old areas.new) }
{
    let paths = paths_of(alloc, fork, seg)?;
    open_paths(alloc, areas, places, paths)
}

/// How many pages these are.
fn page_count(pages: &SourcePages) -> u64
    ensures { result ≡ page_count pages.now }
{
    match pages {
        SourcePages::Plain(_, count) => *count,
        SourcePages::Mapped(slots) => slots.len() as u64,
    }
}

/// How many of these pages there are from a number on, but at most so many.
fn count_from(pages: &SourcePages, number: u32, most: u32) -> u32
    ensures { result ≡ min most (page_count pages.now - number) }
{
    let behind = page_count(pages).saturating_sub(u64::from(number));
    u64::from(most).min(behind) as u32
}

impl SegmentSource {
    /// How many pages the file has.
    pub fn pages(&self) -> u64
        ensures { (chain : List Files) (folder name : List ℕ)
            → IsSourceAt chain folder name (Some self.now)
            → IfSome (chain_pages chain folder name) (λ pages. result ≡ length pages) }
    {
        page_count(&self.pages)
    }

    /// Reads pages of it from a number on, counted from 0: as many as there are, but at most so
    /// many, and says how many.
    pub fn read_pages<V: Vault>(
        &self,
        areas: &mut [Held<V>],
        places: &[u32],
        number: u32,
        most: u32,
        into: &mut [u8; 65536],
    ) -> Result<u32, MemberFault>
        requires places { ArePlaces (length areas.old) places.now }
        requires most { most ≤ 8 }
        ensures pages { IfOk result (λ count.
            OfChain (chain_told V.Vault areas.old places.now) (λ chain.
            (folder name : List ℕ) → IsSourceAt chain folder name (Some self.now)
            → IfSome (chain_pages chain folder name) (λ pages.
            AreRead pages number most into.new count))) }
        ensures few { IfOk result (λ count. count ≤ most) }
        ensures reads { AllOnlyRead V.Vault areas.old areas.new }
        ensures cause { IfErr result (FailsAt V.Vault areas.old areas.new) }
    {
        let count = count_from(&self.pages, number, most);
        match &self.pages {
            SourcePages::Plain(member, _) => {
                read_plain(areas, places, *member, &self.paths, number, into)?;
            }
            SourcePages::Mapped(slots) => {
                read_slots(areas, places, &self.paths, slots, number, count, into)?;
            }
        }
        Ok(count)
    }
}

//! What members say of a segment file that each of them has in the incremental form.

ghost use Rattle.std.specs.Prelude.{◌≡◌, ◌≤◌, ◌<◌, ◌||◌, ◌∷◌, [], ◌++◌, Bool, false, nat_le, min, length, get_or, replicate, if◌then◌else◌, IfOk, OnOk};
ghost use Rattle.incr_file.specs.Head.{IsHead, head_with};
ghost use Rattle.series_files.specs.Inside.{AreMarked, had_blocks};

use incr_file::{HeadBlocks, IncrHead};
use lsn_core::{MOST_RELSEG, NoMemory};
use std::alloc::Global;

/// What newer members say of a segment file that each of them has in the incremental form.
#[derive(Debug, Drop)]
pub(crate) struct Answered {
    /// The least of their truncation lengths.
    least: u32,
    /// Of each block of the merged file, whether they answer it.
    had: Vec<bool>,
}

/// Marks those of the blocks that are below a truncation length.
fn mark(had: &mut [bool], blocks: &[u32], least: u32)
    ensures { AreMarked least blocks.now had.old had.new }
{
    let mut left = blocks;
    while let Some((block, behind)) = left.split_first() {
        if *block < least && (*block as usize) < had.len() {
            had[*block as usize] = true;
        }
        left = behind;
    }
}

/// So many blocks that aren't answered.
fn none_had(alloc: Global, count: u32) -> Result<Vec<bool>, NoMemory>
    ensures { IfOk result (λ had. had.items ≡ replicate count false) }
{
    Ok(vec![in alloc; false; count as usize]?)
}

/// Whether the merged file has a block.
fn lists(had: &[bool], least: u32, block: usize) -> bool
    requires { block < length had.now }
    ensures { (d : Bool) → result ≡ (get_or had.now block d || nat_le least block) }
{
    had[block] || least as usize <= block
}

/// Puts a block behind others, if it is listed.
fn add_if(blocks: &mut Vec<u32>, listed: bool, block: u32) -> Result<(), NoMemory>
    ensures { OnOk result (blocks.new.items
        ≡ (if listed then blocks.old.items ++ (block ∷ []) else blocks.old.items)) }
{
    if listed {
        blocks.push(block)?;
    }
    Ok(())
}

/// The blocks of the merged file.
fn had_blocks(alloc: Global, had: &[bool], least: u32) -> Result<Vec<u32>, NoMemory>
    requires { length had.now ≤ 131072 }
    ensures { IfOk result (λ blocks. blocks.items ≡ had_blocks had.now least) }
{
    let mut blocks = Vec::new(alloc);
    for block in 0..had.len() {
        add_if(&mut blocks, lists(had, least, block), block as u32)?;
    }
    Ok(blocks)
}

impl Answered {
    /// What no member says of a file of so many blocks.
    pub(crate) fn begin(alloc: Global, count: u32) -> Result<Answered, NoMemory>
        ensures least { IfOk result (λ a. a.least ≡ 131072) }
        ensures had { IfOk result (λ a. a.had.items ≡ replicate count false) }
    {
        Ok(Answered {
            least: MOST_RELSEG,
            had: none_had(alloc, count)?,
        })
    }

    /// Takes what one more member says, the next older one.
    pub(crate) fn add(&mut self, head: &IncrHead)
        ensures least { self.new.least ≡ min self.old.least head.now.truncation }
        ensures had { AreMarked self.old.least head.now.blocks self.old.had.items
            self.new.had.items }
    {
        mark(&mut self.had, head.blocks.as_slice(), self.least);
        self.least = self.least.min(head.truncation);
    }

    /// The head of the merged file.
    pub(crate) fn head(&self, alloc: Global) -> Result<IncrHead, NoMemory>
        requires least { self.now.least ≤ 131072 }
        requires few { length self.now.had.items ≤ 131072 }
        ensures written { IfOk result IsHead }
        ensures head { IfOk result (λ head. head
            ≡ head_with self.now.least (had_blocks self.now.had.items self.now.least)) }
    {
        let blocks = had_blocks(alloc, &self.had, self.least)?;
        Ok(IncrHead {
            truncation: self.least,
            blocks: HeadBlocks::from_rising(blocks),
        })
    }
}

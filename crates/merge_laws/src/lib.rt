//! What a series of consecutive incremental backups is merged to, and that the merged backup stands
//! for the series.
//!
//! `specs/Merged.antt` says which files stand for those of a series, `specs/Members.antt` which
//! member of a chain the merged backup is.
//!
//! Left to others: which series are accepted (`series_check`), what one file stands for
//! (`merged_forms`), what a directory is whose files stand for listed ones, and what writes it
//! (`directory_files`).
#![tactic(auto)]

ghost use Rattle.merge_laws.specs.Laws.{MergedStandsForSeries, MergedIsAsListed};
ghost use Rattle.merge_laws.specs.Laws.{MergedChainsAreAccepted};

use chain_check::directories_have_one_answer;
use incr_file::heads_are_read_as_written;
use merged_forms::merged_files_stand_for_series;

/// In a chain a merged backup stands for the same segment files as its series.
pub fn merged_directories_stand_for_series()
    ensures { MergedStandsForSeries }
{
    // known: merged forms stand for their series, files are read as they were written, and in
    // directories that are as listed the incremental files have their form
    merged_files_stand_for_series();
    heads_are_read_as_written();
    directories_have_one_answer();
}

/// A merged backup is as its manifest lists it, and where a chain with the series is accepted, so
/// is the chain with the merged backup in its place.
pub fn merged_directories_are_members()
    ensures listed { MergedIsAsListed }
    ensures accepted { MergedChainsAreAccepted }
{
    merged_files_stand_for_series();
    heads_are_read_as_written();
    directories_have_one_answer();
}

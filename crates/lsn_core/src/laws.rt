//! Laws of names: each is the contract of a function that does nothing.

ghost use Rattle.lsn_core.specs.Laws.{PrintedLsnsAreRead, TextsHaveOneLsn, WrittenNamesAreRead, NamesHaveOneSegment, NamesRise, PathsHaveOneFork, FilesAreDistinct, FilesHoldSegments};

/// What `lsn_text` gives is read as the LSN that it was given, and a text is read as one LSN.
pub fn lsns_are_read_again()
    ensures printed { PrintedLsnsAreRead }
    ensures one { TextsHaveOneLsn }
{}

/// What `segment_name` gives is the name of the segment on timeline 1, and a name is that of one
/// segment.
pub fn segments_are_read_again()
    ensures written { WrittenNamesAreRead }
    ensures one { NamesHaveOneSegment }
{}

/// The names of segments stand in the order of their numbers.
pub fn segment_names_rise()
    ensures { NamesRise }
{}

/// A path is that of one segment of one fork, incremental or plain.
pub fn paths_have_one_fork()
    ensures { PathsHaveOneFork }
{}

/// The files of a store have distinct names, so that none is written over another; and each path
/// leads to what its segment holds.
pub fn store_files_are_distinct()
    ensures distinct { FilesAreDistinct }
    ensures hold { FilesHoldSegments }
{}

//! Laws of the checks: each is the contract of a function that changes nothing.

ghost use Rattle.chain_check.specs.Laws.{DirectoriesAreOneMember, ListedIsNotRefused};
ghost use Rattle.chain_check.specs.Laws.{RefusalsAreOne, ListedHaveForms};
ghost use Rattle.chain_check.specs.Laws.{AcceptedIsNotRefused, ChainRefusalsAreOne};
ghost use Rattle.chain_check.specs.Collisions.{OneSumIsOneDirectory};

use incr_file::heads_are_read_as_written;
use manifest::manifests_are_read_again;

/// A directory that is as listed is one member of a name, and isn't refused; one that isn't is
/// refused for one fault, behind one number of files. Want of memory and failing devices are aside.
/// The incremental files of forks in one that is as listed have their form.
pub fn directories_have_one_answer()
    ensures one { DirectoriesAreOneMember }
    ensures apart { ListedIsNotRefused }
    ensures first { RefusalsAreOne }
    ensures forms { ListedHaveForms }
{
    // known: a text is read as one manifest, and a file as one head
    manifests_are_read_again();
    heads_are_read_as_written();
}

/// A chain that is accepted isn't refused, and one that isn't is refused for one fault of one
/// member.
pub fn chains_have_one_answer()
    ensures apart { AcceptedIsNotRefused }
    ensures first { ChainRefusalsAreOne }
{}

/// Two directories that are as listed, and whose manifests end in the same sum, hold the same: the
/// manifests' lines before the last one, what they and the labels say, and each other file but
/// those in the folder of the WAL that aren't listed. Digits of a sum may be of either case. Or
/// sums match by chance: the lines of the two manifests differ and have one sum, or the two files
/// of one row. So a directory that was changed since it was taken is refused, unless its manifest
/// ends in another sum than it did, or sums match by chance.
pub fn one_sum_is_one_directory()
    ensures { OneSumIsOneDirectory }
{
    // known: a text is read as one manifest
    manifests_are_read_again();
}

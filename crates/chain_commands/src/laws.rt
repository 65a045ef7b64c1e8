//! What holds of every call of a command.

ghost use Rattle.chain_commands.specs.Laws.{HasOneVerify, HasOneCombine, HasOneMerge, HasOneRestore};

use backup_restore::restores_end_alike;
use chain_check::{chains_have_one_answer, directories_have_one_answer};
use series_check::series_have_one_answer;

/// `verify` of one backup comes to one answer, too.
pub fn verify_has_one_answer()
    ensures { HasOneVerify }
{
    directories_have_one_answer();
}

/// `combine` of one chain to one output comes to one answer, too.
pub fn combine_has_one_answer()
    ensures { HasOneCombine }
{
    directories_have_one_answer();
    chains_have_one_answer();
}

/// `merge-incr` of one series to one output comes to one answer, too.
pub fn merge_has_one_answer()
    ensures { HasOneMerge }
{
    directories_have_one_answer();
    series_have_one_answer();
}

/// `restore` of one chain to one output, up to the same target, comes to one answer, too.
pub fn restore_has_one_answer()
    ensures { HasOneRestore }
{
    directories_have_one_answer();
    chains_have_one_answer();
    restores_end_alike();
}

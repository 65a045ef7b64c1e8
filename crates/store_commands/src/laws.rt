//! What holds of every call of a command.

ghost use Rattle.store_commands.specs.Laws.{HasOneInit, HasOneReplay, HasOneWalsummary};
ghost use Rattle.store_commands.specs.Laws.{HasOneFollow};

use summary_file::summaries_are_read_again;
use wal_summary::summaries_are_one;

/// A new store is made, or refused for one reason: from one outside, with the same options, `init`
/// comes to one answer, but for devices that fail and want of memory. So each refusal comes exactly
/// where its case holds.
pub fn init_has_one_answer()
    ensures { HasOneInit }
{}

/// `replay` to one output comes to one answer, too.
pub fn replay_has_one_answer()
    ensures { HasOneReplay }
{}

/// `walsummary` of one range comes to one answer, too: what is kept of an area's files is one list
/// of summaries, which have one merge, or one least place that they don't cover.
pub fn walsummary_has_one_answer()
    ensures { HasOneWalsummary }
{
    summaries_are_read_again();
    summaries_are_one();
}

/// `follow` of one input to one output, by the same sizes, comes to one answer, too.
pub fn follow_has_one_answer()
    ensures { HasOneFollow }
{}

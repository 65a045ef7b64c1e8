//! What holds of every run.

ghost use Rattle.pgbackup_cli.specs.Laws.{RunsBeginAlike};

/// `run` is refused for one reason, or runs one script from where the WAL ended: from one outside,
/// but for devices that fail and want of memory. What its lines are answered is told over the
/// history (`run_command`), over which a command is taken or refused, and never both.
pub fn runs_begin_alike()
    ensures { RunsBeginAlike }
{}

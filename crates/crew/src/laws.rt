//! Laws of runs: each is the contract of a function that does nothing.

ghost use Rattle.crew.specs.Run.{AnswersStay, CrewIsJoined, AnswersTellBackups, TakenOrRefused};
ghost use Rattle.crew.specs.Run.{AnswersTellIncrs};

/// Lines that were answered over a beginning of a history are answered so over the history,
/// whatever other workers do later.
pub fn answers_stay()
    ensures { AnswersStay }
{}

/// Each worker's accepted commands stand in the finished history once, in the order of its answers.
pub fn crew_is_joined()
    ensures { CrewIsJoined }
{}

/// A worker's answers tell of its backups: the directory of each that was taken stands in its area
/// when all lines were run, where the area tells its files, or where no later line names the backup
/// too; and an area failed only where its count of faults rose.
pub fn answers_tell_backups()
    ensures { AnswersTellBackups }
{}

/// A worker's answers tell of its incremental backups too: the directory of each that was taken
/// stands in its area when all lines were run, as those of full ones do, and so does what it was
/// taken on.
pub fn answers_tell_incrs()
    ensures { AnswersTellIncrs }
{}

/// A command that is taken behind a history is refused there for want of memory alone.
pub fn taken_or_refused()
    ensures { TakenOrRefused }
{}

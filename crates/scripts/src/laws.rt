//! Laws of scripts: each is the contract of a function that does nothing.

ghost use Rattle.scripts.specs.Apart.{ScriptsAreApart};
ghost use Rattle.scripts.specs.Laws.{HasOneAnswer};

/// The answers on a script shut each other out: it is taken as one list of tasks, or refused at one
/// line for one reason.
pub fn script_has_one_answer()
    ensures { HasOneAnswer }
{}

/// A script has no more workers than it may have, and of two workers none names a backup that the
/// other names.
pub fn scripts_are_apart()
    ensures { ScriptsAreApart }
{}

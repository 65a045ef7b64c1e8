//! Laws of the script: each is the contract of a function that does nothing.

ghost use Rattle.drill_script.specs.Laws.{DrilledIsRunnable};

/// The script that is drawn from a number may be run as a script that was read.
pub fn drilled_is_a_script()
    ensures { DrilledIsRunnable }
{}

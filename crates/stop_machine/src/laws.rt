//! Laws of an area as a machine: each is a clause on a function that does nothing.

ghost use Rattle.stop_machine.specs.Laws.{StepsAreSafe, RunsAreSafe};

/// A stop at any moment of a step of a safe area leaves what stays, and behind it the area is safe;
/// so it is over every list of steps.
pub fn areas_are_safe()
    ensures step { StepsAreSafe }
    ensures run { RunsAreSafe }
{}

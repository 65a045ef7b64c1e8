//! Laws of survivors: each is the contract of a function that does nothing.

ghost use Rattle.survivor_laws.specs.Laws.{SurvivorsAreFirst, SurvivorsAreOne};

/// Of entries that were written behind those that are read, the first ones survive.
pub fn survivors_are_first()
    ensures { SurvivorsAreFirst }
{}

/// Files have one list of survivors, with one end.
pub fn survivors_are_one()
    ensures { SurvivorsAreOne }
{}

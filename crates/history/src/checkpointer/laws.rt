//! What changes are written as, by a store: each law is the contract of a function that does
//! nothing.

ghost use Rattle.history.specs.checkpointer.Laws.{ChangesAreWrittenByPages, FitChangesHavePages};

/// What items are written as by the pages that a store has at their blocks is what they are written
/// as by the store; and items that can be written on a store can be so by these pages.
pub fn changes_are_written_by_pages()
    ensures written { ChangesAreWrittenByPages }
    ensures fit { FitChangesHavePages }
{}

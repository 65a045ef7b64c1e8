//! What a worker passes between its steps on a shared store.

/// The kinds of steps of a shared store and its summaries.
#[derive(Clone, Copy, Debug, PartialEq, Eq)]
pub enum StepKind {
    /// A command's entry was appended, and its pages were changed.
    Insert,
    /// One page, creation or cut of a partition was written to its area.
    WritePage,
    /// All that was dirty or pending in a partition was written to its area.
    Clean,
    /// The start of a checkpoint was appended.
    Redo,
    /// The end of a checkpoint was appended.
    Begin,
    /// Summaries of the WAL were published.
    Publish,
    /// The forks of a partition were listed.
    ListForks,
    /// A block was copied, or found to be gone.
    CopyBlock,
    /// The end of a backup was appended.
    End,
}

/// What a worker passes, with no lock held, behind each of its calls on a shared store or its
/// summaries that can do a step and answered well.
pub trait Gate: Sync {
    /// The worker of this number did a call whose last step is of this kind.
    fn passed(&self, worker: u32, step: StepKind);
}

/// A gate that holds nobody.
#[derive(Clone, Copy, Debug, Drop)]
pub struct OpenGate;

impl Gate for OpenGate {
    fn passed(&self, _worker: u32, _step: StepKind) {}
}

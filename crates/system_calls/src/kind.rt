//! What stands at a path.

/// What stands at a path.
#[derive(Clone, Copy, Debug)]
pub enum Kind {
    /// A regular file, and how many bytes it has.
    File(u64),
    Folder,
    /// Neither.
    Other,
}

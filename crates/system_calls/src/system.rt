//! The calls of the system on files and folders, by their paths.

ghost use Rattle.std.specs.Prelude.{◌≡◌, ◌≢◌, ◌+◌, ◌<◌, ◌^◌, ◌≤◌, ℕ, List, [], length, Option, IfOk, IfSome, IfNone, OnOk, OnErr};
ghost use Rattle.std.specs.Option.{is_some, option_map};
ghost use Rattle.lsn_core.specs.Files.{Files};
ghost use Rattle.vault.specs.Area.{IsTorn, IsUndecided, Related, after_write, after_remove};
ghost use Rattle.system_calls.specs.System.{TellsKind, ListsAll, IsMissingIn, ReadsSome, MakesFile, AreShort, Stays, after_resize};

use crate::kind::Kind;
use std::alloc::Global;
use std::io;

/// What the system does with files and folders, by paths below the working directory: parts between
/// slashes. It tells files that none but the owner of this object changes, or nothing, as the real
/// one. Of a folder is told what stands in it. No file has two names.
///
/// An open file is the one that its path named, until a name is removed. What a stop may leave is
/// not told.
pub trait System: Drop {
    /// An open file.
    type File: Drop;

    /// The files by their paths, where the system tells them.
    ghost files: { Self → Option Files };

    /// An open file is the one of this path.
    ghost is_at: { Self → Self.File → List ℕ → Type 0 };

    /// No file has more than 2^63 - 1 bytes.
    ghost short: { (s : Self) → IfSome (files s) AreShort };

    /// What stands at a path.
    fn stat(&self, path: &str) -> io::Result<Option<Kind>>
        ensures { IfOk result (TellsKind (files self.now) path.now) };

    /// The names that stand in a folder, in no order. Its path ends with a slash. None where there
    /// is no such folder.
    fn list(&self, alloc: Global, folder: &str) -> io::Result<Option<Vec<String>>>
        ensures { IfOk result (ListsAll (files self.now) folder.now) };

    /// Opens a file to read. None where there is none.
    fn open(&self, path: &str) -> io::Result<Option<Self::File>>
        ensures at { IfOk result (λ found. IfSome found (λ file. is_at self.now file path.now)) }
        ensures none { IfOk result (λ found. IfNone found (IsMissingIn
            (files self.now) path.now)) };

    /// Reads once from a place on: some of the bytes that are there, and none exactly where there
    /// are none or there is no room.
    fn read(&self, file: &Self::File, at: u64, into: &mut [u8]) -> io::Result<usize>
        ensures count { IfOk result (λ n. n ≤ length into.old) }
        ensures read { IfOk result (λ n. (path : List ℕ) → is_at self.now file.now path → ReadsSome
            (files self.now) path at into.old into.new n) };

    /// Opens a file to write, which is made where it is missing. None where its folder is missing.
    fn make(&mut self, path: &str) -> io::Result<Option<Self::File>>
        ensures at { IfOk result (λ found. IfSome found (λ file. is_at self.new file path.now)) }
        ensures made { IfOk result (MakesFile path.now (files self.old) (files self.new)) }
        ensures failed { OnErr result (Related (IsUndecided (after_write path.now 0 []))
            (files self.old) (files self.new)) }
        ensures open { Stays is_at self.old self.new };

    /// Makes a folder, and those above it, where they are missing.
    fn make_folders(&mut self, path: &str) -> io::Result<()>
        ensures same { files self.new ≡ files self.old }
        ensures open { Stays is_at self.old self.new };

    /// Writes all of a piece at a place. A gap is filled with zeros. After an error only the range
    /// and what lies past the old end are unknown.
    fn write(&mut self, file: &Self::File, at: u64, piece: &[u8]) -> io::Result<()>
        requires { at + length piece.now < 2 ^ 64 }
        ensures written { (path : List ℕ) → is_at self.old file.now path → OnOk result
            (files self.new ≡ option_map (after_write path at piece.now) (files self.old)) }
        ensures failed { (path : List ℕ) → is_at self.old file.now path → OnErr result
            (Related (IsTorn path at (length piece.now)) (files self.old) (files self.new)) }
        ensures open { Stays is_at self.old self.new };

    /// Gives a file that is there this size: cuts it, or fills it up with zeros. After an error it
    /// has that size or the old one.
    fn truncate(&mut self, path: &str, size: u64) -> io::Result<()>
        ensures sized { OnOk result (files self.new ≡ option_map (after_resize path.now size)
            (files self.old)) }
        ensures failed { OnErr result (Related (IsUndecided (after_resize path.now size))
            (files self.old) (files self.new)) }
        ensures open { Stays is_at self.old self.new };

    /// Removes the name of a file. A missing one is no error. Of open files nothing is known then:
    /// who has that one open reads and writes on what has no name any longer.
    fn unlink(&mut self, path: &str) -> io::Result<()>
        ensures removed { OnOk result (files self.new ≡ option_map (after_remove path.now)
            (files self.old)) }
        ensures failed { OnErr result (Related (IsUndecided (after_remove path.now))
            (files self.old) (files self.new)) };

    /// Makes durable what stands at a path: the bytes of a file, or the names in a folder. That
    /// nothing stands there is no error.
    fn sync(&mut self, path: &str) -> io::Result<()>
        ensures same { files self.new ≡ files self.old }
        ensures open { Stays is_at self.old self.new };

    /// All systems of the type tell their files, or none does.
    ghost tells_alike: { (a b : Self) → is_some (files a) ≡ is_some (files b) };
}

//! The reader of paths for a caller in C, as conformance/paths.py asks it.
#![tactic(auto)]

ghost use Rattle.std.specs.Prelude.{◌≡◌, true, false};
ghost use Rattle.lsn_core.specs.Names.{NamesNoFork};
ghost use Rattle.lsn_core_c.specs.File.{path_of};

use lsn_core::{ForkKind, path_fork};

/// A segment file of a fork: the numbers of its database, its relation and its segment, whether it
/// is of the init fork and not of the main one, and whether it is an incremental file.
#[repr(C)]
#[derive(Clone, Copy)]
pub struct RelationFile {
    pub db: u32,
    pub rel: u32,
    pub segment: u32,
    pub init: bool,
    pub incremental: bool,
}

/// Whether a path, which C passes as a pointer and a length, is that of a segment file of a fork;
/// the file is then this one, and else as it was.
#[unsafe(no_mangle)]
pub extern "C" fn lsn_path_fork(path: &[u8], file: &mut RelationFile) -> bool
    ensures found { result ≡ true → path.now ≡ path_of file.new }
    ensures none { result ≡ false → NamesNoFork path.now }
    ensures same { result ≡ false → file.new ≡ file.old }
{
    let Some((fork, segment, incremental)) = path_fork(path) else {
        return false;
    };
    *file = RelationFile {
        db: fork.rel.db(),
        rel: fork.rel.rel(),
        segment,
        init: fork.kind == ForkKind::Init,
        incremental,
    };
    true
}

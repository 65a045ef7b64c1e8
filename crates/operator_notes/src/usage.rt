//! How the program is used.

use command_base::joined;
use lsn_core::{NoMemory, Text};
use std::alloc::Global;

const INIT: &[u8] = b"usage: pgbackup init [--segment-mib M] [--relseg N] [--system-id S]
  makes a new store below the working directory: its settings, and a WAL of one entry in wal
  M: MiB of a WAL segment, a power of two from 1 to 1024 (16)
  N: blocks of a fork in one file, 1 to 131072 (131072)
  S: the system identifier, below 2^64 (made of the clock)
";

const RUN: &[u8] = b"usage: pgbackup run [--frames N] [--keep-days K] < SCRIPT
  reads a script of at most 8 workers from standard input, runs its lines on the store, and writes
  their WAL, pages, summaries and backups; each line's answer is printed, also where it is refused
  (after a crash: restart first)
  N: pages of each of the four data areas that are held in memory, 4 to 16384 (4096)
  K: days for which summaries are kept, 0 to 36500; 0 keeps all (10)
a line of SCRIPT is empty, begins with #, or is one of these, with F a fork, D/R or D/R_init:
  worker NAME        the lines behind it are this worker's; stands before all others
  create F           make the fork F of relation R of database D
  truncate D/R N     cut the main fork of the relation to N blocks
  drop D/R           remove the relation
  change ITEM..      change blocks; ITEM: F@B=L,U,C for a page at block B that is filled with C up
                     to L and from U on, or F@B+O:HEX for bytes from byte O on, and more behind it
                     as ,O:HEX
  grow F@B N L,U,C   put such a page at N blocks from B on
  checkpoint         do a checkpoint
  flush N            write N times what comes next: a page, or a fork that was made, cut or removed
  summarise          publish summaries of the WAL to sums
  full NAME          take a full backup to b/NAME, which holds no file; one worker alone names it
  incr NAME PRIOR    take an incremental backup to b/NAME, on the one in b/PRIOR, also of an
                     earlier run, as long as summaries are kept since then
";

const REPLAY: &[u8] = b"usage: pgbackup replay [--target LSN] OUT
  replays the WAL from its beginning, and writes the relation files that it makes to o/OUT, which
  holds no file
  LSN: where to stop, as 0/1000108 (the WAL's end)
  OUT: 1 to 32 of a to z, 0 to 9 and _
";

const VERIFY: &[u8] = b"usage: pgbackup verify NAME
  checks that the backup in b/NAME is what its manifest lists, each file with its size and checksum
  NAME: 1 to 32 of a to z, 0 to 9 and _
";

const RESTORE: &[u8] = b"usage: pgbackup restore [--target LSN] OUT MEMBER..
  checks the chain of backups in b/MEMBER.., replays the WAL from the last one's start on over it,
  and writes the relation files that they make to o/OUT, which holds no file
  LSN: where to stop, at the last backup's end or past it (the WAL's end)
  OUT, MEMBER: 1 to 32 of a to z, 0 to 9 and _; MEMBER..: a full backup and then incremental ones,
  each on the one before, at most 64; pgbackup-chains --for LSN b lists them
";

const COMBINE: &[u8] = b"usage: pgbackup combine OUT MEMBER..
  combines the chain of backups in b/MEMBER.. to a full backup, and writes it to b/OUT, which holds
  no file
  OUT, MEMBER: 1 to 32 of a to z, 0 to 9 and _; MEMBER..: a full backup and then incremental ones,
  each on the one before, at most 64
";

const MERGE: &[u8] = b"usage: pgbackup merge-incr OUT MEMBER MEMBER..
  merges the consecutive incremental backups in b/MEMBER.. to one, and writes it to b/OUT, which
  holds no file; in a chain it stands in their place
  OUT, MEMBER: 1 to 32 of a to z, 0 to 9 and _; MEMBER..: incremental backups, each on the one
  before, at least 2 and at most 64
";

const WALSUMMARY: &[u8] = b"usage: pgbackup walsummary FROM TO
  prints what the summaries in sums tell of the WAL from FROM on and before TO: of each fork the
  shortest length to which it was cut, and the blocks that were changed since
  FROM, TO: LSNs, as 0/1000108, TO past FROM
";

const FOLLOW: &[u8] = b"usage: pgbackup follow [--segment-mib M] [--relseg N] OUT < STREAM
  reads the bytes of a WAL from standard input, from the start of segment 1 on, and writes the
  relation files that it makes to o/OUT, which holds no file
  M: MiB of a WAL segment, a power of two from 1 to 1024 (16)
  N: blocks of a fork in one file, 1 to 131072 (131072)
  OUT: 1 to 32 of a to z, 0 to 9 and _
";

const DRILL: &[u8] = b"usage: pgbackup drill N
  makes a new store of segments of 1 MiB below the working directory, where nothing of one may be;
  runs a script on it that is drawn from N, with four writers, one that flushes, and one that takes
  a chain of three backups meanwhile; and restores that chain to o/drill
  N: below 2^32
";

const RESTART: &[u8] = b"usage: pgbackup restart
  brings wal and the data folders back after a stop: the WAL up to its first damage, behind which
  all of it is removed, and the pages that it makes
";

const HELP: &[u8] = b"usage: pgbackup help [COMMAND]
  prints how a command is used, or all of them: init, run, replay, verify, restore,
  combine, merge-incr, walsummary, follow, drill, restart; in parentheses stand defaults
a command ends with 0 where it is done, 1 where it is refused, 2 for wrong words or a wrong script,
3 where a device failed, and 4 for want of memory; run one command at a time in a folder
usage: pgbackup --version
  prints the program's name and version
";

const VERSION: &[u8] = b"pgbackup 1.0
";

/// How this command is used; None where there is no command of that name.
fn command_usage(name: &[u8]) -> Option<&'static [u8]> {
    if name == b"init".as_slice() {
        return Some(INIT);
    }
    if name == b"run".as_slice() {
        return Some(RUN);
    }
    if name == b"replay".as_slice() {
        return Some(REPLAY);
    }
    if name == b"verify".as_slice() {
        return Some(VERIFY);
    }
    if name == b"restore".as_slice() {
        return Some(RESTORE);
    }
    if name == b"combine".as_slice() {
        return Some(COMBINE);
    }
    if name == b"merge-incr".as_slice() {
        return Some(MERGE);
    }
    if name == b"walsummary".as_slice() {
        return Some(WALSUMMARY);
    }
    if name == b"follow".as_slice() {
        return Some(FOLLOW);
    }
    if name == b"drill".as_slice() {
        return Some(DRILL);
    }
    if name == b"restart".as_slice() {
        return Some(RESTART);
    }
    None
}

/// Whether a word asks for help.
fn is_help(word: &[u8]) -> bool {
    word == b"help".as_slice() || word == b"--help".as_slice() || word == b"-h".as_slice()
}

/// Whether a word asks for the version.
fn is_version(word: &[u8]) -> bool {
    word == b"--version".as_slice() || word == b"-V".as_slice()
}

/// The word that names the command that the words are about: that of `help`, or the first one of
/// words that aren't taken.
fn command_word(words: &[Text]) -> Option<&[u8]> {
    match words {
        [help, name, ..] if is_help(help.as_bytes()) => Some(name.as_bytes()),
        [help] if is_help(help.as_bytes()) => None,
        [name, ..] => Some(name.as_bytes()),
        [] => None,
    }
}

/// How each command is used, behind these parts.
fn all_usages(alloc: Global, before: &[&[u8]]) -> Result<Text, NoMemory> {
    let before = joined(alloc, before)?;
    joined(
        alloc,
        &[
            before.as_bytes(),
            INIT,
            RUN,
            REPLAY,
            VERIFY,
            RESTORE,
            COMBINE,
            MERGE,
            WALSUMMARY,
            FOLLOW,
            DRILL,
            RESTART,
            HELP,
        ],
    )
}

/// How the command of this name is used, or that there is none of it and how each is.
fn usage_by(alloc: Global, name: &[u8]) -> Result<Text, NoMemory> {
    match command_usage(name) {
        Some(usage) => joined(alloc, &[usage]),
        None => all_usages(
            alloc,
            &[b"pgbackup: error: there is no command ", name, b"\n"],
        ),
    }
}

/// How the command is used that the words are about, or else how each is; name and version, where
/// the words ask for that.
pub fn usage_of(alloc: Global, words: &[Text]) -> Result<Text, NoMemory> {
    match command_word(words) {
        Some(name) if is_version(name) => joined(alloc, &[VERSION]),
        Some(name) => usage_by(alloc, name),
        None => all_usages(alloc, &[]),
    }
}

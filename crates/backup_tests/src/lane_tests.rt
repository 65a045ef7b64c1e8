//! Directories with many small files, whose sums are taken side by side.

use crate::dir_lines::told;
use lsn_core::AreaFault;
use memory_vault::MemVault;
use std::alloc::Global;
use std::test::Fail;
use test_areas::{Change, make, make_all};

/// A label and eight files of several sizes, the content made by a rule (sums: hashlib).
const FILES: &[Change<'static>] = &[
    Change::Write(b"a", 0, b""),
    Change::Write(
        b"b",
        0,
        b"dkryFMT07elszGNU18fmtAHOV29gnuBIPW3ahovCJQX4bipwDKRY5cjqxELSZ6e",
    ),
    Change::Write(
        b"backup_label",
        0,
        b"START WAL LOCATION: 0/1003B0 (file 000000010000000000000001)\nCHECKPOINT LOCATION: 0/1003D0\nBACKUP METHOD: streamed\nBACKUP FROM: primary\nSTART TIME: 2023-11-14 22:13:20 UTC\nLABEL: f1\nSTART TIMELINE: 1\n",
    ),
    Change::Write(
        b"c",
        0,
        b"gnuBIPW3ahovCJQX4bipwDKRY5cjqxELSZ6dkryFMT07elszGNU18fmtAHOV29ho",
    ),
    Change::Write(
        b"d",
        0,
        b"jqxELSZ6dkryFMT07elszGNU18fmtAHOV29gnuBIPW3ahovCJQX4bipwDKRY5ckry",
    ),
    Change::Write(
        b"e",
        0,
        b"mtAHOV29gnuBIPW3ahovCJQX4bipwDKRY5cjqxELSZ6dkryFMT07elszGNU18fnuBIPW3ahovCJQX4bipwDKRY5cjqxELSZ6dkryFMT07elszGNU18fmtAH",
    ),
    Change::Write(
        b"f",
        0,
        b"pwDKRY5cjqxELSZ6dkryFMT07elszGNU18fmtAHOV29gnuBIPW3ahovCJQX4biqxELSZ6dkryFMT07elszGNU18fmtAHOV29gnuBIPW3ahovCJQX4bipwDKRY5cjryFM",
    ),
    Change::Write(
        b"g",
        0,
        b"szGNU18fmtAHOV29gnuBIPW3ahovCJQX4bipwDKRY5cjqxELSZ6dkryFMT07eltAHOV29gnuBIPW3ahovCJQX4bipwDKRY5cjqxELSZ6dkryFMT07elszGNU18fmuBIPW3ahovCJQX4bipwDKRY5cjqxELSZ6dkryFMT07elszGNU18fmtAHOV29gnvCJQX4bipwDKRY5cjqxELSZ6dkryFMT07elszGNU18fmtAHOV29gnuBIPW3ahowDKRY5cjqxELSZ6dkryFMT07elszGNU18fmtAHOV29gnuBIPW3ahovCJQX4bipx",
    ),
    Change::Write(
        b"h",
        0,
        b"vCJQX4bipwDKRY5cjqxELSZ6dkryFMT07elszGNU18fmtAHOV29gnuBIPW3ahowDKRY5cjqxELSZ6dkryFMT07elszGNU18fmtAHOV29gnuBIPW3ahovCJQX4bipxELSZ6dkryFMT07elszGNU18fmtAHOV29gnuBIPW3ahovCJQX4bipwDKRY5cjqyFMT07elszGNU18fmtAHOV29gnuBIPW3ahovCJQX4bipwDKRY5cjqxELSZ6dkrzGNU18fmtAHOV29gnuBIPW3ahovCJQX4bipwDKRY5cjqxELSZ6dkryFMT07elsAHOV29gnuB",
    ),
];

/// Their manifest: the sum of `d` is one of SHA-512.
const MANIFEST: &[u8] =
    b"{ \"PostgreSQL-Backup-Manifest-Version\": 2,\n\"System-Identifier\": 7,\n\"Files\": [\n{ \"Path\": \"a\", \"Size\": 0, \"Last-Modified\": \"2023-11-14 22:13:20 GMT\", \"Checksum-Algorithm\": \"SHA256\", \"Checksum\": \"e3b0c44298fc1c149afbf4c8996fb92427ae41e4649b934ca495991b7852b855\" },\n{ \"Path\": \"b\", \"Size\": 63, \"Last-Modified\": \"2023-11-14 22:13:20 GMT\", \"Checksum-Algorithm\": \"SHA256\", \"Checksum\": \"02e3959588dd7f9b6662c253a85c0fb9a10a4b7aa158939ed2591d06041e6a53\" },\n{ \"Path\": \"backup_label\", \"Size\": 200, \"Last-Modified\": \"2023-11-14 22:13:20 GMT\", \"Checksum-Algorithm\": \"SHA256\", \"Checksum\": \"67c229648f8e61f45608cf991942190ffcf72fc04da937b9742d4ef0ea009838\" },\n{ \"Path\": \"c\", \"Size\": 64, \"Last-Modified\": \"2023-11-14 22:13:20 GMT\", \"Checksum-Algorithm\": \"SHA256\", \"Checksum\": \"db7c1b5bf90a8d55d6a2f4b343a9f6252e2823c38de9b27242a3ef9fc1c27624\" },\n{ \"Path\": \"d\", \"Size\": 65, \"Last-Modified\": \"2023-11-14 22:13:20 GMT\", \"Checksum-Algorithm\": \"SHA512\", \"Checksum\": \"736020db5006a7f2ee1c3051de865c6f9f2ab385f4d12cb21d45ca10b22d465685e0281ad4f2612dd598edd27ee956292be8c93ee4f1ba12ce4aa3fab7621eb9\" },\n{ \"Path\": \"e\", \"Size\": 119, \"Last-Modified\": \"2023-11-14 22:13:20 GMT\", \"Checksum-Algorithm\": \"SHA256\", \"Checksum\": \"a54acb5940b00ec49ead39877b4570bad62f35d20573e26bdfe18fab16905bad\" },\n{ \"Path\": \"f\", \"Size\": 128, \"Last-Modified\": \"2023-11-14 22:13:20 GMT\", \"Checksum-Algorithm\": \"SHA256\", \"Checksum\": \"43eabcfa1575eaf274b0d292670b7d7a51e1abd9a8d826814dc59aa43dc35384\" },\n{ \"Path\": \"g\", \"Size\": 311, \"Last-Modified\": \"2023-11-14 22:13:20 GMT\", \"Checksum-Algorithm\": \"SHA256\", \"Checksum\": \"d76ec30d0af4034fabe541a51fb848acc2e09c8b7f61ff7ad9ebd88ebe94bb38\" },\n{ \"Path\": \"h\", \"Size\": 320, \"Last-Modified\": \"2023-11-14 22:13:20 GMT\", \"Checksum-Algorithm\": \"SHA256\", \"Checksum\": \"55f513615fc3942a4259b66732d699299a4247ff37c47c984b9276996dd9e6a8\" }\n],\n\"WAL-Ranges\": [\n{ \"Timeline\": 1, \"Start-LSN\": \"0/1003B0\", \"End-LSN\": \"0/100430\" }\n],\n\"Manifest-Checksum\": \"2559413ef5a8908990405fdaa5fa0732957ffbab11bb5a8d6e1a2df229305557\"}\n";

/// How the directory is changed, and what its check tells.
type Case<'a> = (&'a [Change<'a>], &'a str);

static CASES: [Case; 8] = [
    (&[], "f1 1049520 1049648 9"),
    (&[Change::Write(b"h", 319, b"!")], "FileSum h after 8"),
    (&[Change::Write(b"h", 0, b"!")], "FileSum h after 8"),
    (&[Change::Write(b"b", 62, b"!")], "FileSum b after 1"),
    (&[Change::Write(b"c", 63, b"!")], "FileSum c after 3"),
    (&[Change::Write(b"d", 64, b"!")], "FileSum d after 4"),
    (
        &[
            Change::Write(b"g", 70, b"!"),
            Change::Write(b"e", 118, b"!"),
        ],
        "FileSum e after 5",
    ),
    (
        &[
            Change::Write(b"g", 310, b"!"),
            Change::Write(b"h", 320, b"!"),
        ],
        "FileSum g after 7",
    ),
];

/// The check of the changed directory tells its line.
fn is_told(alloc: Global, case: &Case) -> Result<bool, AreaFault> {
    let mut area = MemVault::new(alloc, &[0])?;
    make_all(&mut area, FILES)?;
    make(&mut area, Change::Write(b"backup_manifest", 0, MANIFEST))?;
    make_all(&mut area, case.0)?;
    let line = told(alloc, &mut area)?;
    Ok(line.as_slice() == case.1.as_bytes())
}

#[test]
fn small_files_are_summed(rt: HostRuntime) -> Result<(), Fail> {
    for case in &CASES {
        assert!(rt; is_told(rt.alloc(), case)?, "{}", case.1);
    }
    Ok(())
}

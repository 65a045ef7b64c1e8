//! Manifests in texts whose sums an independent SHA-2 made.

ghost use Rattle.std.specs.Prelude.{◌≡◌, true, IfOk};
ghost use Rattle.manifest.specs.Kinds.{is_sum};
ghost use Rattle.manifest.specs.Shape.{is_path};
ghost use Rattle.manifest.specs.Text.{IsWritableRow, IsWritable};

use lsn_core::{Lsn, NoMemory, Text};
use manifest::{FileRow, Manifest, ManifestFault, SumKind, read_manifest, write_manifest};
use std::alloc::Global;

/// Texts, and what each is refused for. The first of each fault has the causes of all later faults
/// too; the last text is read.
static TEXTS: [(&str, Option<ManifestFault>); 18] = [
    (
        "{{ \"PostgreSQL-Backup-Manifest-Version\": 3,\n\"System-Identifier\": 7,\n\"Files\": [\n{ \"Path\": \"a\", \"Size\": 0, \"Last-Modified\": \"x\", \"Checksum-Algorithm\": \"MD5\", \"Checksum\": \"e3b0c44298fc1c149afbf4c8996fb92427ae41e4649b934ca495991b7852b855\" },\n{ \"Path\": \"a\", \"Size\": 0, \"Last-Modified\": \"x\", \"Checksum-Algorithm\": \"MD5\", \"Checksum\": \"e3b0c44298fc1c149afbf4c8996fb92427ae41e4649b934ca495991b7852b855\" }\n],\n\"WAL-Ranges\": [ { \"Timeline\": 2, \"Start-LSN\": \"0/100090\", \"End-LSN\": \"0/100110\" } ],\n\"Manifest-Checksum\": \"000000000000000000000000000000000000000000000000000000000000000g\"}\n",
        Some(ManifestFault::Lines),
    ),
    (
        "{{ \"PostgreSQL-Backup-Manifest-Version\": 3,\n\"System-Identifier\": 7,\n\"Files\": [\n{ \"Path\": \"a\", \"Size\": 0, \"Last-Modified\": \"x\", \"Checksum-Algorithm\": \"MD5\", \"Checksum\": \"e3b0c44298fc1c149afbf4c8996fb92427ae41e4649b934ca495991b7852b855\" },\n{ \"Path\": \"a\", \"Size\": 0, \"Last-Modified\": \"x\", \"Checksum-Algorithm\": \"MD5\", \"Checksum\": \"e3b0c44298fc1c149afbf4c8996fb92427ae41e4649b934ca495991b7852b855\" }\n],\n\"WAL-Ranges\": [ { \"Timeline\": 2, \"Start-LSN\": \"0/100090\", \"End-LSN\": \"0/100110\" } ],\n\"Manifest-Checksum\": \"f67c7566aa36e8aeea3929120919f1377c4b16601d20b315d55f136881ee9e7e\"}",
        Some(ManifestFault::Lines),
    ),
    (
        "\"Manifest-Checksum\": \"e3b0c44298fc1c149afbf4c8996fb92427ae41e4649b934ca495991b7852b855\"}\n",
        Some(ManifestFault::Lines),
    ),
    (
        "{{ \"PostgreSQL-Backup-Manifest-Version\": 3,\n\"System-Identifier\": 7,\n\"Files\": [\n{ \"Path\": \"a\", \"Size\": 0, \"Last-Modified\": \"x\", \"Checksum-Algorithm\": \"MD5\", \"Checksum\": \"e3b0c44298fc1c149afbf4c8996fb92427ae41e4649b934ca495991b7852b855\" },\n{ \"Path\": \"a\", \"Size\": 0, \"Last-Modified\": \"x\", \"Checksum-Algorithm\": \"MD5\", \"Checksum\": \"e3b0c44298fc1c149afbf4c8996fb92427ae41e4649b934ca495991b7852b855\" }\n],\n\"WAL-Ranges\": [ { \"Timeline\": 2, \"Start-LSN\": \"0/100090\", \"End-LSN\": \"0/100110\" } ],\n\"Manifest-Checksum\": \"0000000000000000000000000000000000000000000000000000000000000000\"}\n",
        Some(ManifestFault::Sum),
    ),
    (
        "{{ \"PostgreSQL-Backup-Manifest-Version\": 3,\n\"System-Identifier\": 7,\n\"Files\": [\n{ \"Path\": \"a\", \"Size\": 0, \"Last-Modified\": \"x\", \"Checksum-Algorithm\": \"MD5\", \"Checksum\": \"e3b0c44298fc1c149afbf4c8996fb92427ae41e4649b934ca495991b7852b855\" },\n{ \"Path\": \"a\", \"Size\": 0, \"Last-Modified\": \"x\", \"Checksum-Algorithm\": \"MD5\", \"Checksum\": \"e3b0c44298fc1c149afbf4c8996fb92427ae41e4649b934ca495991b7852b855\" }\n],\n\"WAL-Ranges\": [ { \"Timeline\": 2, \"Start-LSN\": \"0/100090\", \"End-LSN\": \"0/100110\" } ],\n\"Manifest-Checksum\": \"f67c7566aa36e8aeea3929120919f1377c4b16601d20b315d55f136881ee9e7e\"}\n",
        Some(ManifestFault::Json),
    ),
    (
        "{ \"PostgreSQL-Backup-Manifest-Version\": 3,\n\"System-Identifier\": 7,\n\"Files\": [\n{ \"Path\": \"a\", \"Size\": 0, \"Last-Modified\": \"x\", \"Checksum-Algorithm\": \"MD5\", \"Checksum\": \"e3b0c44298fc1c149afbf4c8996fb92427ae41e4649b934ca495991b7852b855\" },\n{ \"Path\": \"a\", \"Size\": 0, \"Last-Modified\": \"x\", \"Checksum-Algorithm\": \"MD5\", \"Checksum\": \"e3b0c44298fc1c149afbf4c8996fb92427ae41e4649b934ca495991b7852b855\" }\n],\n\"WAL-Ranges\": [ { \"Timeline\": 2, \"Start-LSN\": \"0/100090\", \"End-LSN\": \"0/100110\" } ],\n\"Manifest-Checksum\": \"27aa91e66b65be04ba3cc443c71cad01d2c8e20e60cace2d16c14877cd6a0895\"}\n",
        Some(ManifestFault::Version(3)),
    ),
    (
        "{ \"PostgreSQL-Backup-Manifest-Version\": 2,\n\"System-Identifier\": 7,\n\"Files\": [\n{ \"Path\": \"a\", \"Size\": 0, \"Last-Modified\": \"x\", \"Checksum-Algorithm\": \"MD5\", \"Checksum\": \"e3b0c44298fc1c149afbf4c8996fb92427ae41e4649b934ca495991b7852b855\" },\n{ \"Path\": \"a\", \"Size\": 0, \"Last-Modified\": \"x\", \"Checksum-Algorithm\": \"MD5\", \"Checksum\": \"e3b0c44298fc1c149afbf4c8996fb92427ae41e4649b934ca495991b7852b855\" }\n],\n\"WAL-Ranges\": [ { \"Timeline\": 2, \"Start-LSN\": \"0/100090\", \"End-LSN\": \"0/100110\" } ],\n\"Manifest-Checksum\": \"0f788a9004aca64fc2f23c1278889831a2af84d4c8c4ba6ff6f080f88b8e0bf8\"}\n",
        Some(ManifestFault::Shape),
    ),
    (
        "{ \"PostgreSQL-Backup-Manifest-Version\": 2.0,\n\"System-Identifier\": 7,\n\"Files\": [\n\n],\n\"WAL-Ranges\": [ { \"Timeline\": 1, \"Start-LSN\": \"0/100090\", \"End-LSN\": \"0/100110\" } ],\n\"Manifest-Checksum\": \"5b37eee648007e8e8a88566481ca2bef2294dc26573a6bc76f2f8f6731670033\"}\n",
        Some(ManifestFault::Shape),
    ),
    (
        "{ \"PostgreSQL-Backup-Manifest-Version\": 2,\n\"System-Identifier\": -1,\n\"Files\": [\n\n],\n\"WAL-Ranges\": [ { \"Timeline\": 1, \"Start-LSN\": \"0/100090\", \"End-LSN\": \"0/100110\" } ],\n\"Manifest-Checksum\": \"59b088909d67faa264c34106ebd5539f5031cdab3d1336ea1fea79723dd3c1e3\"}\n",
        Some(ManifestFault::Shape),
    ),
    (
        "{ \"PostgreSQL-Backup-Manifest-Version\": 2,\n\"System-Identifier\": 7,\n\"Files\": [\n{ \"Path\": \"a/../b\", \"Size\": 0, \"Last-Modified\": \"x\", \"Checksum-Algorithm\": \"SHA256\", \"Checksum\": \"e3b0c44298fc1c149afbf4c8996fb92427ae41e4649b934ca495991b7852b855\" }\n],\n\"WAL-Ranges\": [ { \"Timeline\": 1, \"Start-LSN\": \"0/100090\", \"End-LSN\": \"0/100110\" } ],\n\"Manifest-Checksum\": \"145bd641c797efd24886bf02e6e44731a170edebff40419ccd14474ee1a777e0\"}\n",
        Some(ManifestFault::Shape),
    ),
    (
        "{ \"PostgreSQL-Backup-Manifest-Version\": 2,\n\"System-Identifier\": 7,\n\"Files\": [\n{ \"Path\": \"/a\", \"Size\": 0, \"Last-Modified\": \"x\", \"Checksum-Algorithm\": \"SHA256\", \"Checksum\": \"e3b0c44298fc1c149afbf4c8996fb92427ae41e4649b934ca495991b7852b855\" }\n],\n\"WAL-Ranges\": [ { \"Timeline\": 1, \"Start-LSN\": \"0/100090\", \"End-LSN\": \"0/100110\" } ],\n\"Manifest-Checksum\": \"bf56f60305c65a32e31f1957dcc899bea8a5704f77b4e11a09f997d251ed4b3e\"}\n",
        Some(ManifestFault::Shape),
    ),
    (
        "{ \"PostgreSQL-Backup-Manifest-Version\": 2,\n\"System-Identifier\": 7,\n\"Files\": [\n{ \"Path\": \"a\", \"Size\": 0, \"Last-Modified\": \"x\", \"Checksum-Algorithm\": \"SHA256\", \"Checksum\": \"e3b0c44298fc1c149afbf4c8996fb92427ae41e4649b934ca495991b7852b855\", \"More\": 1 }\n],\n\"WAL-Ranges\": [ { \"Timeline\": 1, \"Start-LSN\": \"0/100090\", \"End-LSN\": \"0/100110\" } ],\n\"Manifest-Checksum\": \"a7fe7dd44edcab634bdc8d83e96d114aacb87b173a870d8f79630a36d7d4f37b\"}\n",
        Some(ManifestFault::Shape),
    ),
    (
        "{ \"PostgreSQL-Backup-Manifest-Version\": 2,\n\"System-Identifier\": 7,\n\"Files\": [\n\n],\n\"WAL-Ranges\": [ { \"Timeline\": 1, \"Start-LSN\": \"0/100090\", \"End-LSN\": \"0/100090\" } ],\n\"Manifest-Checksum\": \"1fa11d46cd468e78a80dd7f78fe2a8ede480ade4ebf83e815f7ecb9f71f7aed6\"}\n",
        Some(ManifestFault::Shape),
    ),
    (
        "{ \"PostgreSQL-Backup-Manifest-Version\": 2,\n\"System-Identifier\": 7,\n\"Files\": [\n\n],\n\"WAL-Ranges\": [  ],\n\"Manifest-Checksum\": \"0f241cc75fb55140c618b088213dbf829fd98128c9576fb4e23e22bf1b391313\"}\n",
        Some(ManifestFault::Shape),
    ),
    (
        "{ \"PostgreSQL-Backup-Manifest-Version\": 2,\n\"System-Identifier\": 7,\n\"Files\": [\n{ \"Path\": \"a\", \"Size\": 0, \"Last-Modified\": \"x\", \"Checksum-Algorithm\": \"MD5\", \"Checksum\": \"e3b0c44298fc1c149afbf4c8996fb92427ae41e4649b934ca495991b7852b855\" }\n],\n\"WAL-Ranges\": [ { \"Timeline\": 2, \"Start-LSN\": \"0/100090\", \"End-LSN\": \"0/100110\" } ],\n\"Manifest-Checksum\": \"95056c643f2f24b235011bfac4d10fa11f764ba79d4a77ffda7334224409ec07\"}\n",
        Some(ManifestFault::SumKind),
    ),
    (
        "{ \"PostgreSQL-Backup-Manifest-Version\": 2,\n\"System-Identifier\": 7,\n\"Files\": [\n{ \"Path\": \"a\", \"Size\": 0, \"Last-Modified\": \"x\", \"Checksum-Algorithm\": \"SHA224\", \"Checksum\": \"e3b0c44298fc1c149afbf4c8996fb92427ae41e4649b934ca495991b7852b855\" }\n],\n\"WAL-Ranges\": [ { \"Timeline\": 2, \"Start-LSN\": \"0/100090\", \"End-LSN\": \"0/100110\" } ],\n\"Manifest-Checksum\": \"276c57a0f9d0c5dd6ad72e5e6ddcdeb1621260965f760de8beadefb0dd65ea0b\"}\n",
        Some(ManifestFault::SumKind),
    ),
    (
        "{ \"PostgreSQL-Backup-Manifest-Version\": 2,\n\"System-Identifier\": 7,\n\"Files\": [\n\n],\n\"WAL-Ranges\": [ { \"Timeline\": 2, \"Start-LSN\": \"0/100090\", \"End-LSN\": \"0/100110\" } ],\n\"Manifest-Checksum\": \"381a2fe92e2ec50998e67fbbd2c35fcf1d5ca01064274653ed92c9664d9dc2b9\"}\n",
        Some(ManifestFault::TimelineIs(2)),
    ),
    (
        "{ \"PostgreSQL-Backup-Manifest-Version\": 2,\n\"System-Identifier\": 7,\n\"Files\": [\n{ \"Path\": \"b\", \"Size\": 1, \"Last-Modified\": \"x\", \"Checksum-Algorithm\": \"SHA256\", \"Checksum\": \"e3b0c44298fc1c149afbf4c8996fb92427ae41e4649b934ca495991b7852b855\" },\n{ \"Path\": \"a\", \"Size\": 2, \"Last-Modified\": \"x\", \"Checksum-Algorithm\": \"SHA224\", \"Checksum\": \"D14A028C2A3A2BC9476102BB288234C415A2B01F828EA62AC5B3E42F\" }\n],\n\"WAL-Ranges\": [ { \"Timeline\": 1, \"Start-LSN\": \"0/100090\", \"End-LSN\": \"0/100110\" } ],\n\"Manifest-Checksum\": \"36BB3DEBFD40C47891783EB084D627BFD8575B0D69ECF91547908B447EE599D2\"}\n",
        None,
    ),
];

/// What a text is refused for.
fn fault_of(alloc: Global, text: &str) -> Option<ManifestFault> {
    read_manifest(alloc, text.as_bytes()).err()
}

#[test]
fn texts_are_read_or_refused(rt: HostRuntime) {
    for (text, fault) in &TEXTS {
        assert!(rt; fault_of(rt.alloc(), text) == *fault, "{text}");
    }
}

/// A text with two rows, the later path first, and digits in upper case.
static UNORDERED: &str =
    "{ \"PostgreSQL-Backup-Manifest-Version\": 2,\n\"System-Identifier\": 7,\n\"Files\": [\n{ \"Path\": \"b\", \"Size\": 1, \"Last-Modified\": \"x\", \"Checksum-Algorithm\": \"SHA256\", \"Checksum\": \"e3b0c44298fc1c149afbf4c8996fb92427ae41e4649b934ca495991b7852b855\" },\n{ \"Path\": \"a\", \"Size\": 2, \"Last-Modified\": \"x\", \"Checksum-Algorithm\": \"SHA224\", \"Checksum\": \"D14A028C2A3A2BC9476102BB288234C415A2B01F828EA62AC5B3E42F\" }\n],\n\"WAL-Ranges\": [ { \"Timeline\": 1, \"Start-LSN\": \"0/100090\", \"End-LSN\": \"0/100110\" } ],\n\"Manifest-Checksum\": \"36BB3DEBFD40C47891783EB084D627BFD8575B0D69ECF91547908B447EE599D2\"}\n";

/// The rows of that text in order.
static ORDERED: [(&str, u64, SumKind); 2] = [("a", 2, SumKind::Sha224), ("b", 1, SumKind::Sha256)];

/// A row has this path, size and kind.
fn is_row(row: &FileRow, wanted: &(&str, u64, SumKind)) -> bool {
    row.path.as_bytes() == wanted.0.as_bytes() && row.size == wanted.1 && row.kind == wanted.2
}

/// The text has the system identifier, the range and the rows that are wanted.
fn is_read(alloc: Global) -> Result<bool, ManifestFault> {
    let m = read_manifest(alloc, UNORDERED.as_bytes())?;
    let rows = m.files.len() == 2
        && m.files
            .iter()
            .zip(&ORDERED)
            .all(|(row, wanted)| is_row(row, wanted));
    Ok(rows && m.system == Some(7) && m.start == Lsn(0x10_0090) && m.end == Lsn(0x10_0110))
}

#[test]
fn rows_are_read_in_order(rt: HostRuntime) -> Result<(), ManifestFault> {
    assert!(rt; is_read(rt.alloc())?);
    Ok(())
}

/// When the files of the written manifest were modified.
const MODIFIED: &str = "2023-11-14 22:13:20 GMT";

/// A row that can be written.
fn row(alloc: Global, path: &str, size: u64, kind: SumKind, sum: &str) -> Result<FileRow, NoMemory>
    requires good_path { is_path path.now ≡ true }
    requires good_sum { is_sum kind sum.now ≡ true }
    ensures writable { IfOk result (λ r. IsWritableRow r) }
    ensures same_path { IfOk result (λ r. r.path ≡ path.now) }
{
    Ok(FileRow {
        path: Text::copied(alloc, path.as_bytes())?,
        size,
        modified: Text::copied(alloc, MODIFIED.as_bytes())?,
        kind,
        sum: Text::copied(alloc, sum.as_bytes())?,
    })
}

/// The sum of the byte `x`, and that of no bytes.
const SUM_OF_X: &str = "2d711642b726b04401627ca9fbac32f5c8530fb1903cc4db02258717921a4881";

const SUM_OF_NONE: &str = "d14a028c2a3a2bc9476102bb288234c415a2b01f828ea62ac5b3e42f";

/// A manifest of two files.
fn two_files(alloc: Global) -> Result<Manifest, NoMemory>
    ensures { IfOk result (λ m. IsWritable m) }
{
    let first = row(alloc, "b\"\\\né", u64::MAX, SumKind::Sha224, SUM_OF_NONE)?;
    let second = row(alloc, "backup_label", 200, SumKind::Sha256, SUM_OF_X)?;
    let mut files = Vec::new(alloc);
    files.push(first)?;
    files.push(second)?;
    Ok(Manifest {
        version: 2,
        system: Some(7),
        files,
        start: Lsn(0x10_0090),
        end: Lsn(0x10_0110),
    })
}

/// The text of that manifest.
static WRITTEN: &str =
    "{ \"PostgreSQL-Backup-Manifest-Version\": 2,\n\"System-Identifier\": 7,\n\"Files\": [\n{ \"Path\": \"b\\\"\\\\\\né\", \"Size\": 18446744073709551615, \"Last-Modified\": \"2023-11-14 22:13:20 GMT\", \"Checksum-Algorithm\": \"SHA224\", \"Checksum\": \"d14a028c2a3a2bc9476102bb288234c415a2b01f828ea62ac5b3e42f\" },\n{ \"Path\": \"backup_label\", \"Size\": 200, \"Last-Modified\": \"2023-11-14 22:13:20 GMT\", \"Checksum-Algorithm\": \"SHA256\", \"Checksum\": \"2d711642b726b04401627ca9fbac32f5c8530fb1903cc4db02258717921a4881\" }\n],\n\"WAL-Ranges\": [\n{ \"Timeline\": 1, \"Start-LSN\": \"0/100090\", \"End-LSN\": \"0/100110\" }\n],\n\"Manifest-Checksum\": \"17d31eec032566414794c041185ef608232457ad4b26ce82497348530ecc4258\"}\n";

/// The manifest is written so.
fn is_written(alloc: Global) -> Result<bool, NoMemory> {
    let m = two_files(alloc)?;
    Ok(write_manifest(alloc, &m)?.as_slice() == WRITTEN.as_bytes())
}

#[test]
fn a_manifest_is_written(rt: HostRuntime) -> Result<(), NoMemory> {
    assert!(rt; is_written(rt.alloc())?);
    Ok(())
}

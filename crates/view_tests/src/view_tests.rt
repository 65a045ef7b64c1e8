//! The listing of two chains as text and in JSON, and the members for a place.

use chain_view::{Asked, answer_of};
use lsn_core::{AreaFault, Lsn};
use memory_vault::MemVault;
use std::alloc::Global;
use std::test::Fail;
use test_areas::{Change, make_all};

/// The manifests and labels of a full backup, one over it, one to which these two were combined, and
/// one over that, as `pgbackup` wrote them; and a folder without a manifest.
const FILES: &[Change<'static>] = &[
    Change::Write(
        b"f1/backup_label",
        0,
        b"START WAL LOCATION: 0/1001F8 (file 000000010000000000000001)\nCHECKPOINT LOCATION: 0/100218\nBACKUP METHOD: streamed\nBACKUP FROM: primary\nSTART TIME: 2026-11-29 16:20:57 UTC\nLABEL: f1\nSTART TIMELINE: 1\n",
    ),
    Change::Write(
        b"f1/backup_manifest",
        0,
        b"{ \"PostgreSQL-Backup-Manifest-Version\": 2,\n\"System-Identifier\": 7,\n\"Files\": [\n{ \"Path\": \"backup_label\", \"Size\": 200, \"Last-Modified\": \"2026-11-29 16:20:57 GMT\", \"Checksum-Algorithm\": \"SHA256\", \"Checksum\": \"4cf92a2e58bcc01f83c185872160ca7e7375e16c51599bbac1c806dabb0d8a81\" },\n{ \"Path\": \"base/5/16384\", \"Size\": 24576, \"Last-Modified\": \"2026-11-29 16:20:57 GMT\", \"Checksum-Algorithm\": \"SHA256\", \"Checksum\": \"ee4d312fb10beb954a8487284b5528b7657b4f94458bd1adf2cf8539d95a5486\" }\n],\n\"WAL-Ranges\": [\n{ \"Timeline\": 1, \"Start-LSN\": \"0/1001F8\", \"End-LSN\": \"0/100278\" }\n],\n\"Manifest-Checksum\": \"7101aee9fb2786ba5cd825878795c84b50160f8da9563ce919373d964a4f6d56\"}\n",
    ),
    Change::Write(
        b"i1/backup_label",
        0,
        b"START WAL LOCATION: 0/1002F0 (file 000000010000000000000001)\nCHECKPOINT LOCATION: 0/100310\nBACKUP METHOD: streamed\nBACKUP FROM: primary\nSTART TIME: 2026-11-29 16:20:57 UTC\nLABEL: i1\nSTART TIMELINE: 1\nINCREMENTAL FROM LSN: 0/1001F8\nINCREMENTAL FROM TLI: 1\n",
    ),
    Change::Write(
        b"i1/backup_manifest",
        0,
        b"{ \"PostgreSQL-Backup-Manifest-Version\": 2,\n\"System-Identifier\": 7,\n\"Files\": [\n{ \"Path\": \"backup_label\", \"Size\": 255, \"Last-Modified\": \"2026-11-29 16:20:57 GMT\", \"Checksum-Algorithm\": \"SHA256\", \"Checksum\": \"3d55b203fbf7f3f989038e2184ad426be299f4054df9903ca272f2daa80dc0ec\" },\n{ \"Path\": \"base/5/INCREMENTAL.16384\", \"Size\": 16384, \"Last-Modified\": \"2026-11-29 16:20:57 GMT\", \"Checksum-Algorithm\": \"SHA256\", \"Checksum\": \"b9d70292f836fd7d7d97a7bcdccbc0e8fdb7834dc4b79dfadf93764abb932384\" }\n],\n\"WAL-Ranges\": [\n{ \"Timeline\": 1, \"Start-LSN\": \"0/1002F0\", \"End-LSN\": \"0/100370\" }\n],\n\"Manifest-Checksum\": \"085e9e8feb7062bd2b001441ef5d121a1a51a4a7fb5ae4fec0a527a408cb70c9\"}\n",
    ),
    Change::Write(
        b"c1/backup_label",
        0,
        b"START WAL LOCATION: 0/1002F0 (file 000000010000000000000001)\nCHECKPOINT LOCATION: 0/100310\nBACKUP METHOD: streamed\nBACKUP FROM: primary\nSTART TIME: 2026-11-29 16:20:57 UTC\nLABEL: i1\nSTART TIMELINE: 1\n",
    ),
    Change::Write(
        b"c1/backup_manifest",
        0,
        b"{ \"PostgreSQL-Backup-Manifest-Version\": 2,\n\"System-Identifier\": 7,\n\"Files\": [\n{ \"Path\": \"backup_label\", \"Size\": 200, \"Last-Modified\": \"2026-11-29 16:20:57 GMT\", \"Checksum-Algorithm\": \"SHA256\", \"Checksum\": \"974e4e8b54f3cca3c4efc6962a13fdb2fed2c2e317b8cffb5e30c02d3187757a\" },\n{ \"Path\": \"base/5/16384\", \"Size\": 24576, \"Last-Modified\": \"2026-11-29 16:20:57 GMT\", \"Checksum-Algorithm\": \"SHA256\", \"Checksum\": \"7dcec4157ac3738981c77b8ac946b8df63f93f5614f1412d89450a29fba984d9\" }\n],\n\"WAL-Ranges\": [\n{ \"Timeline\": 1, \"Start-LSN\": \"0/1002F0\", \"End-LSN\": \"0/100370\" }\n],\n\"Manifest-Checksum\": \"789432554d2d32c7b103c9b2b25281dea10d2facd9240a7ffb2b58a38e87d9d9\"}\n",
    ),
    Change::Write(
        b"i2/backup_label",
        0,
        b"START WAL LOCATION: 0/1003E8 (file 000000010000000000000001)\nCHECKPOINT LOCATION: 0/100408\nBACKUP METHOD: streamed\nBACKUP FROM: primary\nSTART TIME: 2026-11-29 16:20:57 UTC\nLABEL: i2\nSTART TIMELINE: 1\nINCREMENTAL FROM LSN: 0/1002F0\nINCREMENTAL FROM TLI: 1\n",
    ),
    Change::Write(
        b"i2/backup_manifest",
        0,
        b"{ \"PostgreSQL-Backup-Manifest-Version\": 2,\n\"System-Identifier\": 7,\n\"Files\": [\n{ \"Path\": \"backup_label\", \"Size\": 255, \"Last-Modified\": \"2026-11-29 16:20:57 GMT\", \"Checksum-Algorithm\": \"SHA256\", \"Checksum\": \"3864bc253a496528b07427b7edfbd6b2fffac05787f97c04df90c950e54a6cad\" },\n{ \"Path\": \"base/5/INCREMENTAL.16384\", \"Size\": 16384, \"Last-Modified\": \"2026-11-29 16:20:57 GMT\", \"Checksum-Algorithm\": \"SHA256\", \"Checksum\": \"a9e4aefaa5775c95237befce64e54b84642849ad4e68ba654078af80d09d5c5f\" }\n],\n\"WAL-Ranges\": [\n{ \"Timeline\": 1, \"Start-LSN\": \"0/1003E8\", \"End-LSN\": \"0/100468\" }\n],\n\"Manifest-Checksum\": \"b89fd8d7a7ec3522817c80431c059580ab25dd73fc48768e0223f0dedd01ecde\"}\n",
    ),
    Change::Write(b"torn/base/5/16384", 0, b""),
];

/// The text and the JSON of the listing.
const TEXT: &[u8] = b"\
CHAIN  NAME  KIND         START     END       PRIOR  FILES  BYTES  FAULT\n\
f1     f1    full         0/1001F8  0/100278  -      2      24776  -\n\
f1     i1    incremental  0/1002F0  0/100370  f1     2      16639  -\n\
c1     c1    combined     0/1002F0  0/100370  -      2      24776  -\n\
c1     i2    incremental  0/1003E8  0/100468  c1     2      16639  -\n\
-      torn  damaged      -         -         -      -      -      NoManifest\n";

const JSON: &[u8] = b"[\
{\"bytes\":24776,\"chain\":\"f1\",\"end\":\"0/100278\",\"fault\":null,\"files\":2,\"kind\":\"full\",\"name\":\"f1\",\"prior\":null,\"start\":\"0/1001F8\"},\
{\"bytes\":16639,\"chain\":\"f1\",\"end\":\"0/100370\",\"fault\":null,\"files\":2,\"kind\":\"incremental\",\"name\":\"i1\",\"prior\":\"f1\",\"start\":\"0/1002F0\"},\
{\"bytes\":24776,\"chain\":\"c1\",\"end\":\"0/100370\",\"fault\":null,\"files\":2,\"kind\":\"combined\",\"name\":\"c1\",\"prior\":null,\"start\":\"0/1002F0\"},\
{\"bytes\":16639,\"chain\":\"c1\",\"end\":\"0/100468\",\"fault\":null,\"files\":2,\"kind\":\"incremental\",\"name\":\"i2\",\"prior\":\"c1\",\"start\":\"0/1003E8\"},\
{\"bytes\":null,\"chain\":null,\"end\":null,\"fault\":\"NoManifest\",\"files\":null,\"kind\":\"damaged\",\"name\":\"torn\",\"prior\":null,\"start\":null}\
]\n";

/// Whether this is what an area of these files answers.
fn answers(
    alloc: Global,
    json: bool,
    upto: Option<Lsn>,
    wanted: Option<&[u8]>,
) -> Result<bool, AreaFault> {
    let mut area = MemVault::new(alloc, &[])?;
    make_all(&mut area, FILES)?;
    let asked = Asked {
        json,
        upto,
        folder: b"b",
    };
    match (answer_of(alloc, &asked, &mut area)?, wanted) {
        (Some(text), Some(wanted)) => Ok(text.as_bytes() == wanted),
        (None, None) => Ok(true),
        _ => Ok(false),
    }
}

#[test]
fn backups_are_listed_in_their_chains(rt: HostRuntime) -> Result<(), Fail> {
    assert!(rt; answers(rt.alloc(), false, None, Some(TEXT))?);
    assert!(rt; answers(rt.alloc(), true, None, Some(JSON))?);
    Ok(())
}

#[test]
fn members_are_those_of_the_newest_chain(rt: HostRuntime) -> Result<(), Fail> {
    let alloc = rt.alloc();
    assert!(rt; answers(alloc, false, Some(Lsn(0x10_0468)), Some(b"c1 i2\n"))?);
    assert!(rt;
        answers(
            alloc,
            true,
            Some(Lsn(0x10_0468)),
            Some(b"[\"c1\",\"i2\"]\n")
        )?
    );
    assert!(rt; answers(alloc, false, Some(Lsn(0x10_0467)), Some(b"c1\n"))?);
    assert!(rt; answers(alloc, false, Some(Lsn(0x10_036F)), Some(b"f1\n"))?);
    assert!(rt; answers(alloc, false, Some(Lsn(0x10_0277)), None)?);
    Ok(())
}

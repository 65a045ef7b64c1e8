//! Tests of merging.
#![tactic(auto)]

use backup_label::Label;
use chain_check::Member;
use incr_merge::merge_incr;
use lsn_core::{Lsn, Text};
use manifest::{FileRow, Manifest, SumKind};
use memory_vault::MemVault;
use std::alloc::Global;
use std::test::Fail;
use vault::{Held, Vault, read_whole};

const FORK: &[u8] = b"base/5/INCREMENTAL.16384";

/// A backup of one incremental file, which holds these bytes.
fn member_area(alloc: Global, name: &[u8], bytes: &[u8]) -> Result<Held<MemVault>, Fail> {
    let mut area = MemVault::new(alloc, &[])?;
    area.write_at(FORK, 0, bytes)
        .map_err(|_| Fail::from("write"))?;
    area.write_at(b"backup_label", 0, b"a\nb\nc\nd\ne\nf\ng\nh\ni\n")
        .map_err(|_| Fail::from("write"))?;
    Ok(Held {
        name: Text::copied(alloc, name)?,
        area,
    })
}

fn row(alloc: Global, path: &[u8]) -> Result<FileRow, Fail> {
    Ok(FileRow {
        path: Text::copied(alloc, path)?,
        size: 12,
        modified: Text::copied(alloc, b"x")?,
        kind: SumKind::Sha256,
        sum: Text::copied(alloc, b"")?,
    })
}

/// The newest member, whose manifest lists the label and the file.
fn newest(alloc: Global) -> Result<Member, Fail> {
    let mut files = Vec::new(alloc);
    files.push(row(alloc, b"backup_label")?)?;
    files.push(row(alloc, FORK)?)?;
    let manifest = Manifest {
        version: 2,
        system: Some(7),
        files,
        start: Lsn(200),
        end: Lsn(300),
    };
    let label = Label {
        start: Lsn(200),
        checkpoint: Lsn(200),
        time: Text::copied(alloc, b"x")?,
        label: Text::copied(alloc, b"x")?,
        timeline: 1,
        prior: Some((Lsn(100), 1)),
    };
    Ok(Member {
        name: Text::copied(alloc, b"n")?,
        label,
        manifest,
    })
}

#[test]
fn blocks_that_none_has_are_zeros(rt: HostRuntime) -> Result<(), Fail> {
    let alloc = rt.alloc();
    let mut held = Vec::new(alloc);
    // truncation lengths 2 and then 5, both without blocks
    held.push(member_area(alloc, b"o", &[13, 31, 174, 211, 0, 0, 0, 0, 2, 0, 0, 0])?)?;
    held.push(member_area(alloc, b"n", &[13, 31, 174, 211, 0, 0, 0, 0, 5, 0, 0, 0])?)?;
    let newest = newest(alloc)?;
    let mut out = MemVault::new(alloc, &[])?;
    let rows = merge_incr(alloc, &mut held, &[0, 1], &newest, &mut out, 1_700_000_000);
    assert_eq!(rt; rows == Ok(2), true);
    let bytes = read_whole(alloc, &mut out, FORK).map_err(|_| Fail::from("read"))?;
    assert_eq!(rt; bytes.len(), 32768);
    // the magic, three blocks, truncation length 2, blocks 2 to 4
    let head = [
        13, 31, 174, 211, 3, 0, 0, 0, 2, 0, 0, 0, 2, 0, 0, 0, 3, 0, 0, 0, 4, 0, 0, 0,
    ];
    assert_eq!(rt; bytes.get(..24) == Some(head.as_slice()), true);
    assert_eq!(rt; bytes.iter().skip(24).all(|b| *b == 0), true);
    Ok(())
}

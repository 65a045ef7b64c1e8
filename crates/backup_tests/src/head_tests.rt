//! Heads of incremental files, and plans of segment files: rows that follow from the formats alone.

ghost use Rattle.std.specs.Prelude.{◌≡◌, length, IfOk};
ghost use Rattle.incr_file.specs.Head.{IsHead};
ghost use Rattle.incr_file.specs.Reading.{HasPlaces};

use incr_file::{
    FilePlan, HeadBlocks, HeadFault, HeadView, block_place, decode_head, encode_head, head_size,
    plan_segment,
};
use lsn_core::NoMemory;
use std::alloc::Global;
use std::test::Fail;

/// The head of a file that holds the blocks 2 to 5 of a segment, and is rebuilt with six.
const FOUR: &[u8] = b"\x0d\x1f\xae\xd3\x04\0\0\0\x06\0\0\0\x02\0\0\0\x03\0\0\0\x04\0\0\0\x05\0\0\0";

/// That of one that holds none.
const NONE: &[u8] = b"\x0d\x1f\xae\xd3\0\0\0\0\x06\0\0\0";

/// So many bytes that begin with these, and are zeros behind them.
fn padded(alloc: Global, front: &[u8], size: u64) -> Result<Vec<u8>, NoMemory>
    ensures { IfOk result (λ bytes. length bytes.items ≡ size) }
{
    let mut bytes = Vec::from_slice(alloc, front)?;
    bytes.resize(size as usize, 0)?;
    Ok(bytes)
}

/// A file of so many bytes that begins with these, and has zeros behind them, as it is read.
fn read(alloc: Global, front: &[u8], file: u32) -> Result<HeadView, HeadFault>
    ensures places { IfOk result HasPlaces }
    ensures head { IfOk result (λ view. IsHead view.head) }
{
    let bytes = padded(alloc, front, u64::from(file))?;
    match head_size(&bytes, u64::from(file)) {
        Some(size) if size > bytes.len() as u64 => Err(HeadFault::Length),
        _ => decode_head(alloc, &bytes, u64::from(file)),
    }
}

/// Whether a file is read as one with this truncation length and these blocks, of which the first
/// begins at a place, and is written again with the bytes that it begins with.
fn is_read_as(
    alloc: Global,
    front: &[u8],
    file: u32,
    truncation: u32,
    blocks: &[u32],
    body: u64,
) -> Result<bool, HeadFault> {
    let view = read(alloc, front, file)?;
    let written = padded(alloc, front, body)?;
    let again = encode_head(alloc, &view.head)?;
    Ok(
        view.head.truncation == truncation
            && view.head.blocks.as_slice() == blocks
            && view.body == body
            && again.as_slice() == written.as_slice(),
    )
}

#[test]
fn heads_are_read_and_written(rt: HostRuntime) -> Result<(), HeadFault> {
    assert!(rt; is_read_as(rt.alloc(), FOUR, 40_960, 6, &[2, 3, 4, 5], 8192)?);
    assert!(rt; is_read_as(rt.alloc(), NONE, 12, 6, &[], 12)?);
    Ok(())
}

/// Where block 4 of the first file begins; block 6 isn't there.
#[test]
fn listed_blocks_have_places(rt: HostRuntime) -> Result<(), HeadFault> {
    let view = read(rt.alloc(), FOUR, 40_960)?;
    assert!(rt; block_place(&view, 4) == Some(24_576));
    assert!(rt; block_place(&view, 6).is_none());
    Ok(())
}

/// The beginning of a file, its size, and why it is refused.
static DAMAGED: [(&[u8], u32, HeadFault); 9] = [
    (NONE, 11, HeadFault::Length),
    (NONE, 13, HeadFault::Length),
    (FOUR, 40_959, HeadFault::Length),
    (
        b"\x0c\x1f\xae\xd3\x01\0\0\0\x06\0\0\0",
        12,
        HeadFault::Length,
    ),
    (
        b"\x0c\x1f\xae\xd3\0\0\0\0\x01\0\x02\0",
        12,
        HeadFault::Magic,
    ),
    (
        b"\x0d\x1f\xae\xd3\0\0\0\0\x01\0\x02\0",
        12,
        HeadFault::Range,
    ),
    (
        b"\x0d\x1f\xae\xd3\x01\0\0\0\x06\0\0\0\0\0\x02\0",
        16_384,
        HeadFault::Range,
    ),
    (
        b"\x0d\x1f\xae\xd3\x02\0\0\0\x06\0\0\0\x03\0\0\0\x03\0\0\0",
        24_576,
        HeadFault::Order,
    ),
    (
        b"\x0d\x1f\xae\xd3\x02\0\0\0\x06\0\0\0\x03\0\0\0\0\0\x02\0",
        24_576,
        HeadFault::Range,
    ),
];

#[test]
fn damaged_heads_are_refused(rt: HostRuntime) {
    for (front, file, why) in &DAMAGED {
        let refused = matches!(read(rt.alloc(), front, *file), Err(fault) if fault == *why);
        assert!(rt; refused, "{file}");
    }
}

/// A segment file: its first block, how many are planned, how many a file has; the fork's limit and
/// its listed blocks; whether the prior backup lists the file.
type Segment<'a> = (u32, u32, u32, Option<u32>, &'a [u32], bool);

/// A head's truncation length and blocks; none where the file is sent whole.
type Sent<'a> = Option<(u32, &'a [u32])>;

static PLANS: [(Segment, Sent); 13] = [
    // nine of ten blocks, and all of them
    (
        (0, 10, 131_072, None, &[0, 1, 2, 3, 4, 5, 6, 7, 8], true),
        Some((10, &[0, 1, 2, 3, 4, 5, 6, 7, 8])),
    ),
    (
        (0, 10, 131_072, None, &[0, 1, 2, 3, 4, 5, 6, 7, 8, 9], true),
        None,
    ),
    // cut to two blocks and grown again; and no change behind that
    (
        (0, 6, 131_072, Some(2), &[2, 3, 4, 5], true),
        Some((6, &[2, 3, 4, 5])),
    ),
    ((0, 6, 131_072, None, &[], true), Some((6, &[]))),
    // cut, and grown only behind the start of the backup
    ((0, 5, 131_072, Some(2), &[], true), Some((5, &[]))),
    // made since the prior backup; unknown to it; without blocks
    ((0, 6, 131_072, Some(0), &[0], true), None),
    ((0, 6, 131_072, None, &[0], false), None),
    ((0, 0, 131_072, None, &[], true), None),
    // a fork of six blocks with four a file, of which it had four before
    ((0, 4, 4, None, &[4, 5], true), Some((4, &[]))),
    ((4, 2, 4, None, &[4, 5], false), None),
    // raised to the limit, and to no more than a file has
    ((0, 2, 131_072, Some(5), &[1], true), Some((5, &[1]))),
    ((4, 2, 4, Some(9), &[5, 8], true), Some((4, &[1]))),
    // a limit at the first block
    ((4, 2, 4, Some(4), &[5], true), None),
];

/// Whether a segment file is sent so.
fn is_planned(alloc: Global, of: &Segment, sent: &Sent) -> Result<bool, NoMemory> {
    let (first, planned, relseg, limit, blocks, known) = *of;
    let Some(rising) = HeadBlocks::from_vec(Vec::from_slice(alloc, blocks)?) else {
        return Ok(false);
    };
    let plan = plan_segment(
        alloc,
        first,
        planned,
        relseg,
        limit,
        rising.as_slice(),
        known,
    )?;
    Ok(match (plan, sent) {
        (FilePlan::Whole, None) => true,
        (FilePlan::Incr(head), Some((truncation, blocks))) => {
            head.truncation == *truncation && head.blocks.as_slice() == *blocks
        }
        _ => false,
    })
}

#[test]
fn segments_are_planned(rt: HostRuntime) -> Result<(), Fail> {
    for number in 0..PLANS.len() {
        let (of, sent) = &PLANS[number];
        assert!(rt; is_planned(rt.alloc(), of, sent)?, "{number}");
    }
    Ok(())
}

//! Normalising sources.

use super::images::Image;
use crate::tests::probes::WAYS;
use std::alloc::Global;
use std::test::Fail;
use ubi_compose::normalise_to;
use ubi_probe::pebs::small;
use ubi_probe::{Failure, ProbeSource, ProbeWriter};
use ubi_scan::{MemorySource, StreamError};

/// Whether a writer that fails once it has so many bytes of a normal image received these, and their number is reported.
fn is_cut(
    alloc: Global,
    image: &[u8],
    want: &[u8],
    room: usize,
    (failure, most): (Failure, usize),
) -> Result<bool, Fail> {
    let mut source = MemorySource::new(image);
    let mut writer = ProbeWriter::new(alloc, room, most, failure)?;
    let answer = normalise_to(alloc, &small()?, &mut source, &mut writer);
    let told = if room < want.len() {
        Err(StreamError::Write(room as u64))
    } else {
        Ok(room as u64)
    };
    Ok(answer == told && want.get(..room) == Some(writer.taken()))
}

/// An image, what it is normalised to, and whether each way is tried of each number of bytes, or that a writer takes
/// 100 bytes at once.
static STREAMED: [(Image, Image, bool); 4] = [
    (Image::Blank(1536), Image::NormalTable, true),
    (Image::UsedRoot, Image::NormalRoot, false),
    (Image::NormalRoot, Image::NormalRoot, false),
    (Image::NormalDamaged, Image::NormalDamaged, false),
];

#[test]
fn tells_how_much_was_written(rt: HostRuntime) -> Result<(), Fail> {
    let alloc = rt.alloc();
    for (image, want, has_ways) in &STREAMED {
        let (image, want) = (image.bytes(alloc)?, want.bytes(alloc)?);
        let (image, want) = (image.as_slice(), want.as_slice());
        for room in 0..want.len() + 1 {
            for way in WAYS {
                let is = !has_ways || is_cut(alloc, image, want, room, way)?;
                assert!(rt; is, "{way:?} after {room} bytes");
            }
            let is = is_cut(alloc, image, want, room, (Failure::Nothing, 100))?;
            assert!(rt; is, "after {room} bytes");
        }
    }
    Ok(())
}

/// What is answered of an image whose read `at` fails, once it is seen that a writer received as much of the normal
/// image as is reported; none if no read failed.
fn fault_at(
    alloc: Global,
    image: &[u8],
    want: &[u8],
    at: u64,
) -> Result<Option<StreamError>, Fail> {
    let mut source = ProbeSource::new(alloc, &small()?, image, at)?;
    let mut writer = ProbeWriter::new(alloc, 4096, 4096, Failure::Nothing)?;
    let answer = normalise_to(alloc, &small()?, &mut source, &mut writer);
    let told = match answer {
        Ok(count) | Err(StreamError::Read(_, count)) => count as usize,
        Err(_) => 0,
    };
    if want.get(..told) == Some(writer.taken()) {
        Ok(answer.err())
    } else {
        Err("another count".into())
    }
}

/// A normal image, and what is answered of it where its last read fails.
static LAST_READS: [(Image, StreamError); 2] = [
    (Image::NormalRoot, StreamError::Read(4, 2048)),
    (Image::NormalPieces, StreamError::Read(3, 1536)),
];

#[test]
fn tells_which_read_failed(rt: HostRuntime) -> Result<(), Fail> {
    let alloc = rt.alloc();
    for (image, last) in &LAST_READS {
        let image = image.bytes(alloc)?;
        let image = image.as_slice();
        let first = fault_at(alloc, image, image, 1)?;
        assert!(rt; first == Some(StreamError::Read(0, 0)));
        let mut fault = first;
        for at in 2..60 {
            let next = fault_at(alloc, image, image, at)?;
            let is_read = matches!(next, None | Some(StreamError::Read(0..=4, _)));
            assert!(rt; is_read, "read {at}");
            fault = next.or(fault);
        }
        assert!(rt; fault == Some(*last));
    }
    Ok(())
}

/// Whether an image is normalised to some bytes, and so much is read for it.
fn is_read(alloc: Global, image: &[u8], want: &[u8]) -> Result<bool, Fail> {
    let mut source = ProbeSource::new(alloc, &small()?, image, 0)?;
    let mut writer = ProbeWriter::new(alloc, 4096, 4096, Failure::Nothing)?;
    let answer = normalise_to(alloc, &small()?, &mut source, &mut writer);
    let reads = (
        source.reads(2),
        source.data_reads(2),
        source.reads(3),
        source.crossing(),
    );
    Ok(answer == Ok(2048) && writer.taken() == want && reads == (7, 2, 1, 0))
}

/// Each eraseblock is read 7 times at most: once more than to attach it, if it is a winner.
#[test]
fn reads_each_piece_once_more(rt: HostRuntime) -> Result<(), Fail> {
    let image = Image::CopiedPieces.bytes(rt.alloc())?;
    let want = Image::NormalPieces.bytes(rt.alloc())?;
    assert!(rt; is_read(rt.alloc(), image.as_slice(), want.as_slice())?);
    Ok(())
}

//! Writing volumes from their places in a source: what is written, what is read for it, and what fails.

use super::images::{HOLED, NEWER_0};
use crate::tests::probes::has_reads;
use std::alloc::Global;
use std::test::Fail;
use ubi_probe::pebs::{
    ALIGNED_ZEROED, FIRST_ALIGNED, FIRST_BOOT, FIRST_MARKED, Peb, SECOND_ALIGNED, SECOND_BOOT,
    SECOND_MARKED, TEXT_0, TEXT_1, small, small_image,
};
use ubi_probe::{Failure, ProbeSource, ProbeWriter};
use ubi_scan::StreamError;
use ubi_volume::{ReadError, attach_places, write_places};

/// What is answered: how many bytes were written, or why not all; or why the volume isn't read.
type Answer = Result<Result<u64, StreamError>, ReadError>;

/// Writes a volume of a source.
fn extract(
    alloc: Global,
    source: &mut ProbeSource<'_>,
    id: u32,
    writer: &mut ProbeWriter,
) -> Result<Answer, Fail> {
    let geometry = small()?;
    let places = attach_places(alloc, &geometry, source)?;
    let extent = match places.extent(id) {
        Ok(extent) => extent,
        Err(error) => return Ok(Err(error)),
    };
    let mut room = Vec::from_elem(alloc, 0u8, geometry.peb_size() as usize)?;
    let room = room.as_mut_slice();
    Ok(Ok(write_places(&geometry, source, &places, id, extent, room, writer)))
}

/// A static volume of a text in two logical eraseblocks.
const STATIC: [Peb; 4] = [FIRST_BOOT, SECOND_BOOT, TEXT_0, TEXT_1];

/// Some eraseblocks, a volume, which read fails, for how many bytes the writer has room, what is answered, and some of the bytes that
/// are taken then: as many as is reported.
type Case = (
    &'static [Peb],
    u32,
    u64,
    usize,
    Answer,
    &'static [(usize, u8)],
);

/// Of the text all reads before the eleventh are those of attaching.
static CASES: [Case; 14] = [
    (
        &HOLED,
        0,
        0,
        1152,
        Ok(Ok(1152)),
        &[
            (0, 0x41),
            (383, 0x41),
            (384, 0xFF),
            (767, 0xFF),
            (768, 0x43),
            (831, 0x43),
            (832, 0xFF),
            (1151, 0xFF),
        ],
    ),
    (
        &[FIRST_ALIGNED, SECOND_ALIGNED, ALIGNED_ZEROED],
        0,
        0,
        6000,
        Ok(Ok(5120)),
        &[(0, 0x41), (255, 0x41), (256, 0xFF), (5119, 0xFF)],
    ),
    (
        &STATIC,
        0,
        0,
        400,
        Ok(Ok(385)),
        &[(0, 0x61), (383, 0x61), (384, 0x62)],
    ),
    (&[FIRST_BOOT, SECOND_BOOT], 0, 0, 8, Ok(Ok(0)), &[]),
    // Volumes that can't be read.
    (
        &[FIRST_MARKED, SECOND_MARKED],
        0,
        0,
        8,
        Err(ReadError::Updating),
        &[],
    ),
    (
        &[FIRST_BOOT, SECOND_BOOT, TEXT_0],
        0,
        0,
        8,
        Err(ReadError::Damaged),
        &[],
    ),
    (&STATIC, 1, 0, 8, Err(ReadError::NoVolume), &[]),
    // Reads that fail.
    (&STATIC, 0, 11, 400, Ok(Err(StreamError::Read(2, 0))), &[]),
    (
        &STATIC,
        0,
        12,
        400,
        Ok(Err(StreamError::Read(3, 384))),
        &[(0, 0x61), (383, 0x61)],
    ),
    (&STATIC, 0, 13, 400, Ok(Ok(385)), &[]),
    // Writes that fail.
    (&STATIC, 0, 0, 0, Ok(Err(StreamError::Write(0))), &[]),
    (
        &STATIC,
        0,
        0,
        384,
        Ok(Err(StreamError::Write(384))),
        &[(383, 0x61)],
    ),
    (
        &HOLED,
        0,
        0,
        500,
        Ok(Err(StreamError::Write(500))),
        &[(383, 0x41), (384, 0xFF), (499, 0xFF)],
    ),
    (
        &HOLED,
        0,
        0,
        1151,
        Ok(Err(StreamError::Write(1151))),
        &[(768, 0x43), (1150, 0xFF)],
    ),
];

/// Whether a case answers as it should, and no read goes beyond an eraseblock.
fn is_answered(alloc: Global, (pebs, id, at, room, want, taken): &Case) -> Result<bool, Fail> {
    let bytes = small_image(alloc, pebs)?;
    let mut source = ProbeSource::new(alloc, &small()?, bytes.as_slice(), *at)?;
    let mut writer = ProbeWriter::new(alloc, *room, 100, Failure::Nothing)?;
    let answer = extract(alloc, &mut source, *id, &mut writer)?;
    let told = match want {
        Ok(Ok(count) | Err(StreamError::Read(_, count) | StreamError::Write(count))) => *count,
        _ => 0,
    };
    let text = writer.taken();
    let mut is = answer == *want && text.len() as u64 == told && source.crossing() == 0;
    for sample in taken.iter() {
        is = is && text.get(sample.0) == Some(&sample.1);
    }
    Ok(is)
}

/// Whether the text of some eraseblocks is written, and each of these is read 7 times at most: once more than to attach it, if it is
/// a winner.
fn is_read(alloc: Global) -> Result<bool, Fail> {
    let bytes = small_image(alloc, &[FIRST_BOOT, SECOND_BOOT, NEWER_0, TEXT_0, TEXT_1])?;
    let mut source = ProbeSource::new(alloc, &small()?, bytes.as_slice(), 0)?;
    let mut writer = ProbeWriter::new(alloc, 400, 400, Failure::Nothing)?;
    let answer = extract(alloc, &mut source, 0, &mut writer)?;
    let is = has_reads(&source, &[(2, 7, 3)]) && source.reads(0) == 2 && source.reads(3) == 1;
    Ok(answer == Ok(Ok(385)) && is)
}

#[test]
fn writes_what_a_volume_reads(rt: HostRuntime) -> Result<(), Fail> {
    for (index, case) in CASES.iter().enumerate() {
        assert!(rt; is_answered(rt.alloc(), case)?, "case {index}");
    }
    assert!(rt; is_read(rt.alloc())?);
    Ok(())
}

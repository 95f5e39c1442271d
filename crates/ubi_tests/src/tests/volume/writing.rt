//! Writing volumes through writers that fail.

use super::images::{BASE, BASE_TEXT, HOLED, attached};
use crate::tests::probes::WAYS;
use std::alloc::Global;
use std::process::Abort;
use std::test::Fail;
use ubi_probe::pebs::{
    A, B, FIRST_BOOT, FIRST_MARKED, Peb, SECOND_BOOT, SECOND_MARKED, TEXT_0, TEXT_1,
};
use ubi_probe::texts::bytes_of;
use ubi_probe::{Failure, ProbeWriter};
use ubi_volume::{Meaning, ReadError, write_all, write_volume};

/// Some eraseblocks, what their volume 0 reads, as bytes that each stand so many times, and for how many bytes writers
/// have room.
type Case = (
    &'static [Peb],
    &'static [(&'static [u8], usize)],
    (usize, usize),
);

static WRITTEN: [Case; 5] = [
    (
        &HOLED,
        &[(b"A", 384), (b"\xFF", 384), (b"C", 64), (b"\xFF", 320)],
        (0, 1154),
    ),
    (
        &[FIRST_BOOT, SECOND_BOOT, TEXT_0, TEXT_1],
        &[(b"a", 384), (b"b", 1)],
        (0, 387),
    ),
    (&BASE, BASE_TEXT, (500, 501)),
    (&BASE, BASE_TEXT, (7679, 7681)),
    // A volume that reads nothing.
    (&[FIRST_BOOT, SECOND_BOOT], &[], (0, 1)),
];

/// Whether a writer with so much room takes all that volume 0 reads, and else as much as fits.
fn is_written(
    alloc: Global,
    meaning: &Meaning,
    text: &[u8],
    room: usize,
    (failure, most): (Failure, usize),
) -> Result<bool, Fail> {
    let mut writer = ProbeWriter::new(alloc, room, most, failure)?;
    let answer = write_volume(meaning, 0, &mut writer);
    Ok(match text.get(..room) {
        Some(front) if room < text.len() => {
            answer == Err(ReadError::Write(room as u64)) && writer.taken() == front
        }
        _ => answer == Ok(text.len() as u64) && writer.taken() == text,
    })
}

/// Asserts it of writers with so much room, in each way.
fn assert_written(
    rt: &impl Abort,
    alloc: Global,
    meaning: &Meaning,
    text: &[u8],
    (from, to): (usize, usize),
) -> Result<(), Fail> {
    for room in from..to {
        for way in WAYS {
            let is = is_written(alloc, meaning, text, room, way)?;
            assert!(*rt; is, "{way:?} after {room} bytes");
        }
    }
    Ok(())
}

/// Some eraseblocks, and a volume of which nothing is written, with the cause.
static UNWRITTEN: [(&[Peb], u32, ReadError); 4] = [
    (&[FIRST_MARKED, SECOND_MARKED, A, B], 0, ReadError::Updating),
    (&[FIRST_MARKED, SECOND_MARKED, A, B], 1, ReadError::NoVolume),
    (&[FIRST_BOOT, SECOND_BOOT, TEXT_0], 0, ReadError::Damaged),
    (&[FIRST_BOOT, SECOND_BOOT, TEXT_0], 200, ReadError::NoVolume),
];

#[test]
fn writes_volumes_until_it_fails_and_nothing_of_what_is_not_read(
    rt: HostRuntime,
) -> Result<(), Fail> {
    let alloc = rt.alloc();
    for (pebs, runs, rooms) in &WRITTEN {
        let attached = attached(alloc, pebs)?;
        let text = bytes_of(alloc, runs)?;
        assert_written(&rt, alloc, attached.meaning(), text.as_slice(), *rooms)?;
    }
    for (pebs, id, cause) in &UNWRITTEN {
        let attached = attached(alloc, pebs)?;
        let mut writer = ProbeWriter::new(alloc, 1024, 1, Failure::Nothing)?;
        let answer = write_volume(attached.meaning(), *id, &mut writer);
        assert!(rt; answer == Err(*cause) && writer.taken().is_empty());
    }
    Ok(())
}

/// Whether a writer with so much room takes all of some bytes, and else as many as fit.
fn is_all_written(
    alloc: Global,
    bytes: &[u8],
    room: usize,
    (failure, most): (Failure, usize),
) -> Result<bool, Fail> {
    let mut writer = ProbeWriter::new(alloc, room, most, failure)?;
    let answer = write_all(&mut writer, bytes);
    Ok(match bytes.get(..room) {
        Some(front) if room < bytes.len() => answer == Err(room) && writer.taken() == front,
        _ => answer == Ok(()) && writer.taken() == bytes,
    })
}

#[test]
fn writes_all_of_some_bytes_until_it_fails(rt: HostRuntime) -> Result<(), Fail> {
    for way in WAYS {
        for room in 0..14 {
            let is = is_all_written(rt.alloc(), b"twelve bytes", room, way)?;
            assert!(rt; is, "{way:?} after {room} bytes");
        }
    }
    Ok(())
}

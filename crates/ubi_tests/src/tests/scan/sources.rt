//! Scans over sources: what they read, what they find, and what fails.

use super::images::{OLD, RIGHT, WRONG_4, WRONG_6, WRONG_9};
use crate::tests::probes::{Reads, has_reads};
use std::alloc::Global;
use std::fs;
use std::test::Fail;
use ubi_media::Refusal;
use ubi_probe::pebs::{Data, ERASED, NEW, Peb, Vid, small, small_image};
use ubi_probe::{ChangingSource, ProbeSource};
use ubi_scan::{BlockSource, FileSource, MemorySource, Scan, StreamError, scan_from};

/// The winner of logical eraseblock 0 of volume 0.
fn winner(answer: Result<Scan, StreamError>) -> Option<u32> {
    match answer {
        Ok(found) => found.winner(0, 0),
        Err(_) => None,
    }
}

/// A member that is no copy, and older than the copies.
const OLDER: Peb = Peb(NEW, Vid::Leb(0, 0, 6), Data::Fill(b'6', 384));

/// Members of a logical eraseblock, which of them wins, and what is read to find it.
type Case = (&'static [Peb], u32, &'static [Reads]);

/// Of members that meet one another the copies' data are read once each, and those of the others never. The candidate's
/// headers are read again when the second member comes. A copy is checked where it meets another one, and a copy that
/// is alone never.
static CHECKED: [Case; 9] = [
    (
        &[OLD, RIGHT, WRONG_9, OLDER],
        1,
        &[(0, 2, 0), (1, 2, 1), (2, 2, 1), (3, 1, 0)],
    ),
    (
        &[OLD, RIGHT, WRONG_9],
        1,
        &[(0, 2, 0), (1, 2, 1), (2, 2, 1)],
    ),
    (
        &[OLD, WRONG_9, RIGHT],
        2,
        &[(0, 2, 0), (1, 2, 1), (2, 2, 1)],
    ),
    (
        &[RIGHT, OLD, WRONG_9],
        0,
        &[(0, 3, 1), (1, 1, 0), (2, 2, 1)],
    ),
    (
        &[RIGHT, WRONG_9, OLD],
        0,
        &[(0, 3, 1), (1, 2, 1), (2, 1, 0)],
    ),
    (
        &[WRONG_9, OLD, RIGHT],
        2,
        &[(0, 3, 1), (1, 1, 0), (2, 2, 1)],
    ),
    (
        &[WRONG_9, RIGHT, OLD],
        1,
        &[(0, 3, 1), (1, 2, 1), (2, 1, 0)],
    ),
    (
        &[WRONG_6, WRONG_4, ERASED],
        1,
        &[(0, 3, 1), (1, 2, 1), (2, 1, 0)],
    ),
    (
        &[ERASED, WRONG_6, ERASED],
        1,
        &[(0, 1, 0), (1, 1, 0), (2, 1, 0)],
    ),
];

/// Whether a member wins, and so much is read to find it.
fn is_checked(alloc: Global, (pebs, winning, reads): &Case) -> Result<bool, Fail> {
    let bytes = small_image(alloc, pebs)?;
    let mut source = ProbeSource::new(alloc, &small()?, bytes.as_slice(), 0)?;
    let won = winner(scan_from(alloc, &small()?, &mut source));
    Ok(won == Some(*winning) && has_reads(&source, reads))
}

#[test]
fn checks_copied_data_once_in_any_order(rt: HostRuntime) -> Result<(), Fail> {
    for (index, case) in CHECKED.iter().enumerate() {
        assert!(rt; is_checked(rt.alloc(), case)?, "case {index}");
    }
    Ok(())
}

/// Why a scan fails whose read `at` fails, if it does.
fn error_of(alloc: Global, bytes: &[u8], at: u64) -> Result<Option<StreamError>, Fail> {
    let mut source = ProbeSource::new(alloc, &small()?, bytes, at)?;
    Ok(scan_from(alloc, &small()?, &mut source).err())
}

/// The read that fails, and the error that is reported: each in turn, up to one more than there are.
static FAILING: [(u64, Option<StreamError>); 8] = [
    (1, Some(StreamError::Read(0, 0))),
    (2, Some(StreamError::Read(1, 0))),
    (3, Some(StreamError::Read(0, 0))),
    (4, Some(StreamError::Read(1, 0))),
    (5, Some(StreamError::Read(2, 0))),
    (6, Some(StreamError::Read(2, 0))),
    (7, Some(StreamError::Read(3, 0))),
    (8, None),
];

/// How many bytes there are, and for what cause they are refused before the first read, which would fail.
static SIZES: [(usize, Refusal); 3] = [
    (0, Refusal::Length),
    (511, Refusal::Length),
    (33 * 512, Refusal::TooMany),
];

#[test]
fn tells_which_read_failed_or_a_size_before_any_read(rt: HostRuntime) -> Result<(), Fail> {
    let bytes = small_image(rt.alloc(), &[OLD, RIGHT, WRONG_9, OLDER])?;
    for (at, want) in &FAILING {
        let error = error_of(rt.alloc(), bytes.as_slice(), *at)?;
        assert!(rt; error == *want, "read {at}");
    }
    let bytes = [0xFF; 33 * 512];
    for (len, cause) in &SIZES {
        let bytes = bytes.get(..*len).ok_or("too short")?;
        let error = error_of(rt.alloc(), bytes, 1)?;
        assert!(rt; error == Some(StreamError::Refused(*cause)), "{len} bytes");
    }
    Ok(())
}

/// Which eraseblock of a file wins, or why it isn't scanned.
fn file_winner(
    alloc: Global,
    file: &mut impl BlockSource,
) -> Result<Result<Option<u32>, StreamError>, Fail> {
    Ok(match scan_from(alloc, &small()?, file) {
        Ok(found) => Ok(found.winner(0, 0)),
        Err(error) => Err(error),
    })
}

/// A file is scanned as its bytes are. One that is cut short while it is open fails where its bytes are missing.
#[test]
fn scans_a_file_as_memory(rt: HostRuntime) -> Result<(), Fail> {
    let alloc = rt.alloc();
    let bytes = small_image(alloc, &[OLD, RIGHT, WRONG_9])?;
    fs::write(&rt, "scanned.img", bytes.as_slice())?;
    let mut memory = MemorySource::new(bytes.as_slice());
    assert!(rt; file_winner(alloc, &mut memory)? == Ok(Some(1)));
    let mut file = FileSource::open(&rt, "scanned.img")?;
    assert!(rt; file.len() == 1536);
    assert!(rt; file_winner(alloc, &mut file)? == Ok(Some(1)));
    let short = bytes.as_slice().get(..1024).ok_or("too short")?;
    fs::write(&rt, "scanned.img", short)?;
    assert!(rt; file_winner(alloc, &mut file)? == Err(StreamError::Read(2, 0)));
    fs::remove_file(&rt, "scanned.img")?;
    assert!(rt; FileSource::open(&rt, "scanned.img").is_err());
    assert!(rt; FileSource::open(&rt, ".").is_err());
    Ok(())
}

/// What is found in a source that changes after two reads lies in the source, whatever that answers.
#[test]
fn scans_a_source_that_changes(rt: HostRuntime) -> Result<(), Fail> {
    let alloc = rt.alloc();
    let first = small_image(alloc, &[ERASED, OLD, ERASED])?;
    let then = small_image(alloc, &[RIGHT, ERASED, WRONG_9])?;
    let mut source = ChangingSource::new(first.as_slice(), then.as_slice(), 2);
    // Eraseblock 1 was a member when its headers were read, and is none when it meets eraseblock 2.
    let found = winner(scan_from(alloc, &small()?, &mut source));
    assert!(rt; matches!(found, Some(0..=2)));
    Ok(())
}

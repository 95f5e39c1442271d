//! Surveying: what is found of an image without its contents, what is read for it, and what fails.

use std::alloc::Global;
use std::test::Fail;
use ubi_media::{AttachError, Refusal};
use ubi_probe::ProbeSource;
use ubi_probe::pebs::{
    A, B, Data, ERASED, FIRST, FIRST_BOOT, NAMED, Peb, SECOND, SECOND_BOOT, STATIC_A, TEXT_0,
    TEXT_1, Vid, small, small_image,
};
use ubi_scan::StreamError;
use ubi_volume::BlockState::{Blank, Orphan, Table, Used};
use ubi_volume::{Surveyed, survey, survey_from};

/// A logical eraseblock beyond those that its volume reserves.
const BEYOND_7: Peb = Peb(NAMED, Vid::Leb(0, 20, 7), Data::Fill(b'D', 384));

/// Whether what is surveyed has the states, the numbers, the winners of volume 0 and of none, and the records.
fn is_found(surveyed: &Surveyed) -> bool {
    let table = surveyed.table();
    surveyed.states() == [Table, Table, Used, Used, Orphan, Blank].as_slice()
        && surveyed.top_sqnum() == 7
        && surveyed.image_seq() == 0x1234_5678
        && surveyed.mean_ec() == 0
        && surveyed.winner(0, 0) == Some(2)
        && surveyed.winner(0, 20) == Some(4)
        && surveyed.winner(1, 0).is_none()
        && table.get(0).is_some()
        && table.get(1).is_none()
}

#[test]
fn tells_the_state_of_each_eraseblock_or_the_cause(rt: HostRuntime) -> Result<(), Fail> {
    let alloc = rt.alloc();
    let bytes = small_image(alloc, &[FIRST, SECOND, A, B, BEYOND_7, ERASED])?;
    let surveyed = survey(alloc, &small()?, bytes.as_slice())?;
    assert!(rt; is_found(&surveyed));
    assert!(rt; surveyed.states().len() > 4);
    assert!(rt; surveyed.state(4) == Orphan);
    let bytes = small_image(alloc, &[FIRST, SECOND, STATIC_A])?;
    let mismatch = survey(alloc, &small()?, bytes.as_slice()).err();
    assert!(rt; mismatch == Some(AttachError::Refused(Refusal::Mismatch(2))));
    let cut = survey(alloc, &small()?, &[0xFF; 511]).err();
    assert!(rt; cut == Some(AttachError::Refused(Refusal::Length)));
    Ok(())
}

/// How many reads begin in an eraseblock of a source that is surveyed, how many of them in its
/// data, and how many reads leave an eraseblock.
fn reads_of(alloc: Global, bytes: &[u8], p: u32) -> Result<(u64, u64, u64), Fail> {
    let mut source = ProbeSource::new(alloc, &small()?, bytes, 0)?;
    survey_from(alloc, &small()?, &mut source)?;
    Ok((source.reads(p), source.data_reads(p), source.crossing()))
}

/// Why a source isn't surveyed whose read `at` fails.
fn failure_at(alloc: Global, bytes: &[u8], at: u64) -> Result<Option<StreamError>, Fail> {
    let mut source = ProbeSource::new(alloc, &small()?, bytes, at)?;
    Ok(survey_from(alloc, &small()?, &mut source).err())
}

/// The headers are read once, for the scan; of the data those of one copy of the table alone, and none of a static
/// volume. Each read of those fails in turn.
#[test]
fn reads_no_contents_and_tells_which_read_failed(rt: HostRuntime) -> Result<(), Fail> {
    let alloc = rt.alloc();
    let bytes = small_image(alloc, &[FIRST_BOOT, SECOND_BOOT, TEXT_0, TEXT_1])?;
    for (p, want) in [
        (0, (2, 1, 0)),
        (1, (1, 0, 0)),
        (2, (1, 0, 0)),
        (3, (1, 0, 0)),
    ] {
        assert!(rt; reads_of(alloc, bytes.as_slice(), p)? == want);
    }
    let bytes = small_image(alloc, &[FIRST_BOOT, SECOND_BOOT, TEXT_0])?;
    let failing = [0, 1, 2, 0];
    for (at, p) in (1..).zip(failing) {
        let failure = failure_at(alloc, bytes.as_slice(), at)?;
        assert!(rt; failure == Some(StreamError::Read(p, 0)));
    }
    assert!(rt; failure_at(alloc, bytes.as_slice(), 5)? == None);
    Ok(())
}

//! Sources that change while they are read.

use std::alloc::Global;
use std::test::Fail;
use ubi_change::Avoided;
use ubi_compose::normalise_to;
use ubi_files::Outcome;
use ubi_probe::pebs::{
    A, B, BOOT_0, BOOT_1, C, ERASED, FIRST, FIRST_BOOT, FIRST_OF_5, FIRST_UPDATING, NEWER_BOOT_0,
    NEWER_BOOT_1, OLD, Peb, RIGHT, SECOND, SECOND_BOOT, SECOND_OF_6, SECOND_UPDATING, TORN,
    WRONG_6, WRONG_9, small, small_image,
};
use ubi_probe::{ChangingSource, Failure, ProbeWriter};
use ubi_reading::{Comparison, Format, Reading};
use ubi_scan::{MemorySource, StreamError};
use ubi_volume::{Places, attach_places};
use ubi_writing::{NewBytes, run_change, run_change_from, run_rename, run_rename_from};

/// Whether each logical eraseblock of the first two volumes lies in one of so many eraseblocks.
fn lie_within(places: &Places, count: usize) -> bool {
    let mut lie = true;
    for from in 0..32 {
        for id in 0..2 {
            let next = places.next_place(id, from);
            let is_within = match next {
                Some((_, p)) => (p as usize) < count,
                None => true
            };
            lie = lie && is_within;
        }
    }
    lie
}

/// Whether a source that changes after so many reads has its places within it, and what is written of it is told, and
/// is whole eraseblocks, or nothing.
fn is_sound(alloc: Global, first: &[u8], then: &[u8], left: u64) -> Result<bool, Fail> {
    let geometry = small()?;
    let mut source = ChangingSource::new(first, then, left);
    let lie = match attach_places(alloc, &geometry, &mut source) {
        Ok(places) => lie_within(&places, first.len() / 512),
        Err(StreamError::Refused(_)) => true,
        Err(_) => false,
    };
    let mut source = ChangingSource::new(first, then, left);
    let mut writer = ProbeWriter::new(alloc, 32 * 512, 4096, Failure::Nothing)?;
    let is_told = match normalise_to(alloc, &geometry, &mut source, &mut writer) {
        Ok(count) => writer.taken().len() as u64 == count && count >= 1024 && count % 512 == 0,
        Err(StreamError::Refused(_)) => writer.taken().is_empty(),
        Err(_) => false,
    };
    Ok(lie && is_told)
}

/// Images, and what they change to while they are read.
static CHANGES: [(&[Peb], &[Peb]); 8] = [
    (&[FIRST, SECOND, A, B, C], &[C, B, A, SECOND, FIRST]),
    (&[FIRST, SECOND, A, B, C], &[ERASED]),
    (&[FIRST, SECOND, A, B, C], &[TORN, TORN, TORN, TORN, TORN]),
    (
        &[FIRST, SECOND, OLD, RIGHT, WRONG_9],
        &[FIRST, SECOND, WRONG_9, WRONG_6, OLD],
    ),
    (
        &[FIRST_BOOT, SECOND_BOOT, BOOT_0, BOOT_1],
        &[FIRST_BOOT, SECOND_BOOT, BOOT_1, BOOT_0],
    ),
    (
        &[
            FIRST_BOOT,
            SECOND_BOOT,
            NEWER_BOOT_0,
            BOOT_0,
            BOOT_1,
            NEWER_BOOT_1,
        ],
        &[FIRST_BOOT, SECOND_BOOT, FIRST_OF_5, SECOND_OF_6, A, B],
    ),
    (
        &[FIRST_BOOT, SECOND_BOOT, BOOT_0, BOOT_1],
        &[FIRST, SECOND, A, B],
    ),
    (
        &[FIRST_UPDATING, SECOND_UPDATING, FIRST_OF_5, SECOND_OF_6],
        &[FIRST_BOOT, SECOND_BOOT, BOOT_0, BOOT_1],
    ),
];

/// Whether lines were told or a refusal, and nothing is to be written; and, where it has to be, what was wanted.
fn is_told(answer: &Outcome, want: &Outcome, has_to: bool) -> bool {
    let is_refused = answer.text.as_slice().starts_with(b"refused ");
    let is_wanted = answer.text == want.text && answer.status == want.status;
    answer.file.is_none() && is_refused == (answer.status == 1) && (!has_to || is_wanted)
}

/// Whether a command that reads has an answer for a source that changes after so many reads, and, where it has to be,
/// that of one that doesn't.
fn is_answered(
    alloc: Global,
    command: Reading,
    (first, then): (&[u8], &[u8]),
    left: u64,
    has_to: bool,
) -> Result<bool, Fail> {
    let geometry = small()?;
    let mut source = ChangingSource::new(first, then, left);
    let answer = command.answer(alloc, &geometry, &mut source)?;
    let want = command.answer(alloc, &geometry, &mut MemorySource::new(first))?;
    Ok(is_told(&answer, &want, has_to))
}

/// Whether `same` tells of a source that changes after so many reads, beside one that doesn't, that both mean the same
/// or not, or that it is refused; and the right one if it doesn't change.
fn is_compared<'a>(
    alloc: Global,
    first: &'a [u8],
    then: &'a [u8],
    left: u64,
) -> Result<bool, Fail> {
    let geometry = small()?;
    let mut source = ChangingSource::new(first, then, left);
    let mut beside = MemorySource::new(first);
    let how = Comparison::Same(Format::Text);
    let answer = how.answer(alloc, &geometry, &mut source, &mut beside)?;
    let (mut one, mut other) = (MemorySource::new(first), MemorySource::new(first));
    let want = how.answer(alloc, &geometry, &mut one, &mut other)?;
    let text = answer.text.as_slice();
    let is_form = if answer.status == 0 {
        text == b"same\n".as_slice()
    } else {
        text == b"different\n".as_slice() || text.starts_with(b"left refused ")
    };
    Ok(is_form && (answer.text == want.text || left < 49))
}

/// Whether each command has an answer for a source that changes after so many reads.
fn are_answered(alloc: Global, first: &[u8], then: &[u8], left: u64) -> Result<bool, Fail> {
    let (bytes, is_same) = ((first, then), left == 49);
    Ok(
        is_answered(alloc, Reading::Check(Format::Text), bytes, left, is_same)?
            && is_answered(alloc, Reading::List(Format::Text), bytes, left, is_same)?
            && is_answered(alloc, Reading::Show(1), bytes, left, left >= 2)?
            && is_compared(alloc, first, then, left)?
            && is_sound(alloc, first, then, left)?,
    )
}

/// Whether the lines of a plan were told, and as many bytes written as the image has; or a refusal, and nothing; and, where it
/// has to be, what was wanted.
fn is_written(answer: &Outcome, written: &[u8], want: &Outcome, size: usize, has_to: bool) -> bool {
    let text = answer.text.as_slice();
    let is_form = if answer.status == 0 {
        text.starts_with(b"steps ") && written.len() == size
    } else {
        text.starts_with(b"refused ") && written.is_empty()
    };
    let is_file = match &want.file {
        Some(file) => file.as_slice() == written,
        None => written.is_empty(),
    };
    let is_wanted = answer.text == want.text && answer.status == want.status && is_file;
    is_form && answer.file.is_none() && (!has_to || is_wanted)
}

/// Whether `change` and `rename` have an answer for a source that changes after so many reads, and the right one if it
/// doesn't.
fn is_edited(alloc: Global, first: &[u8], then: &[u8], left: u64) -> Result<bool, Fail> {
    let geometry = small()?;
    let new = NewBytes {
        id: 0,
        lnum: 0,
        bytes: &[0x61; 64],
    };
    let nothing = Avoided::nothing();
    let mut pages = Vec::new(alloc);
    let mut source = ChangingSource::new(first, then, left);
    let mut writer = ProbeWriter::new(alloc, 8192, 1000, Failure::Nothing)?;
    let changed = run_change_from(
        alloc,
        &geometry,
        &mut source,
        &nothing,
        &new,
        Some(2),
        &mut writer,
        &mut pages,
    )?;
    let want = run_change(alloc, &geometry, first, 0, 0, &[0x61; 64], Some(2))?;
    let is_changed = is_written(&changed, writer.taken(), &want, first.len(), left == 99);
    pages.clear();
    let mut source = ChangingSource::new(first, then, left);
    let mut writer = ProbeWriter::new(alloc, 8192, 1000, Failure::Nothing)?;
    let renamed = run_rename_from(
        alloc,
        &geometry,
        &mut source,
        &nothing,
        0,
        b"data",
        None,
        &mut writer,
        &mut pages,
    )?;
    let want = run_rename(alloc, &geometry, first, 0, b"data", None)?;
    Ok(is_changed && is_written(&renamed, writer.taken(), &want, first.len(), left == 99))
}

/// Images of which the first has two eraseblocks that may be taken, and what each changes into.
static EDITED: [(&[Peb], &[Peb]); 4] = [
    (
        &[FIRST, SECOND, A, B, C, ERASED, ERASED],
        &[FIRST, SECOND, A, B, C, OLD, ERASED],
    ),
    (
        &[FIRST, SECOND, A, B, C, ERASED, ERASED],
        &[
            FIRST_BOOT,
            SECOND_BOOT,
            BOOT_0,
            BOOT_1,
            ERASED,
            ERASED,
            TORN,
        ],
    ),
    (
        &[FIRST_BOOT, SECOND_BOOT, BOOT_0, BOOT_1, ERASED, ERASED],
        &[FIRST, SECOND, A, B, C, ERASED],
    ),
    (
        &[FIRST, ERASED, A, B, C, ERASED, ERASED],
        &[ERASED, SECOND, A, B, C, ERASED, ERASED],
    ),
];

/// To be edited no eraseblock is read more than 12 times, so that after 99 reads it is as of one that doesn't change.
#[test]
fn edits_a_source_that_changes(rt: HostRuntime) -> Result<(), Fail> {
    for (first, then) in &EDITED {
        let (first, then) = (
            small_image(rt.alloc(), first)?,
            small_image(rt.alloc(), then)?,
        );
        for left in 0..100 {
            let is = is_edited(rt.alloc(), first.as_slice(), then.as_slice(), left)?;
            assert!(rt; is, "after {left} reads");
        }
    }
    Ok(())
}

/// To be told of none is read more than 7 times.
#[test]
fn answers_of_a_source_that_changes(rt: HostRuntime) -> Result<(), Fail> {
    for (first, then) in &CHANGES {
        let (first, then) = (
            small_image(rt.alloc(), first)?,
            small_image(rt.alloc(), then)?,
        );
        for left in 0..50 {
            let is = are_answered(rt.alloc(), first.as_slice(), then.as_slice(), left)?;
            assert!(rt; is, "after {left} reads");
        }
    }
    Ok(())
}

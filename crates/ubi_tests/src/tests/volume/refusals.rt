//! Which images are refused, and for what.

use super::images::{PAD, attach_bytes};
use std::alloc::Global;
use std::test::Fail;
use ubi_media::{AttachError, RecFault, Refusal};
use ubi_probe::pebs::{
    A, B, C, Data, ERASED, FIRST, FIRST_ALIGNMENT_0, FIRST_BOOT, FIRST_FLIPPED, FIRST_MARKED,
    FIRST_OVERFULL, NAMED, Peb, SECOND, SECOND_BOOT, SECOND_MARKED, STATIC_A, Vid, small_image,
};
use ubi_probe::records::{FLIPPED, FULL, OVERFULL};

/// Whether some bytes are refused for a cause, or taken where there is none.
fn is_refused(alloc: Global, bytes: &[u8], cause: Option<Refusal>) -> Result<bool, Fail> {
    match attach_bytes(alloc, bytes)? {
        Ok(_) => Ok(cause.is_none()),
        Err(AttachError::Refused(refused)) => Ok(cause == Some(refused)),
        Err(AttachError::Memory) => Ok(false),
    }
}

/// How many bytes there are, and for what cause they are refused, if they are.
static LENGTHS: [(usize, Option<Refusal>); 4] = [
    (0, Some(Refusal::Length)),
    (511, Some(Refusal::Length)),
    (16_896, Some(Refusal::TooMany)),
    (16_384, None),
];

/// Copies of tables: with a bit turned, with a volume that takes all that a device has left, and one eraseblock more.
const SECOND_FLIPPED: Peb = Peb(NAMED, Vid::Table(1, 0), Data::Table(&[FLIPPED]));

const FIRST_FULL: Peb = Peb(NAMED, Vid::Table(0, 0), Data::Table(&[FULL]));

const SECOND_FULL: Peb = Peb(NAMED, Vid::Table(1, 0), Data::Table(&[FULL]));

const SECOND_OVERFULL: Peb = Peb(NAMED, Vid::Table(1, 0), Data::Table(&[OVERFULL]));

/// Logical eraseblocks of another internal volume that may be dropped, and of one that may be read alone; and one of a dynamic
/// volume after those of the static one.
const DROPPED_0: Peb = Peb(NAMED, Vid::Internal(1, 0), Data::Fill(b'D', 384));

const UNKNOWN: Peb = Peb(NAMED, Vid::Internal(4, 0), Data::Fill(b'D', 384));

const DYNAMIC_7: Peb = Peb(NAMED, Vid::Leb(0, 7, 0), Data::Fill(b'A', 384));

/// Some eraseblocks, and for what cause they are refused, if they are.
static CASES: [(&[Peb], Option<Refusal>); 16] = [
    // Tables that can't be read.
    (
        &[FIRST_FLIPPED, SECOND_FLIPPED, A, B, C],
        Some(Refusal::BothCorrupt),
    ),
    (
        &[FIRST_ALIGNMENT_0, SECOND, A, B, C],
        Some(Refusal::Record(0, 0, RecFault::Alignment)),
    ),
    (&[FIRST_FLIPPED, SECOND, A, B, C], None),
    (&[A, B, C], Some(Refusal::NoTable)),
    // Volumes that want more than there is.
    (&[FIRST_FULL, SECOND_FULL], None),
    (&[FIRST_OVERFULL, SECOND_OVERFULL], Some(Refusal::NoSpace)),
    // Volumes of others.
    (&[FIRST, SECOND, A, B, C, DROPPED_0], None),
    (
        &[FIRST, SECOND, A, B, C, UNKNOWN],
        Some(Refusal::Incompatible(5, 2_147_479_552)),
    ),
    // The lowest winner unlike its record.
    (&[FIRST, SECOND, STATIC_A, B, C], Some(Refusal::Mismatch(2))),
    (&[FIRST, SECOND, A, PAD, C], Some(Refusal::Mismatch(3))),
    (
        &[FIRST, SECOND, STATIC_A, PAD, C],
        Some(Refusal::Mismatch(2)),
    ),
    (
        &[FIRST, SECOND, C, PAD, STATIC_A],
        Some(Refusal::Mismatch(3)),
    ),
    (&[STATIC_A, FIRST, SECOND], Some(Refusal::Mismatch(0))),
    (&[ERASED, FIRST, SECOND, A], None),
    // Any winners while a volume is updated.
    (&[FIRST_MARKED, SECOND_MARKED, STATIC_A], None),
    // A static volume's winners beyond what is reserved.
    (
        &[FIRST_BOOT, SECOND_BOOT, DYNAMIC_7],
        Some(Refusal::Mismatch(2)),
    ),
];

#[test]
fn names_the_first_cause(rt: HostRuntime) -> Result<(), Fail> {
    let alloc = rt.alloc();
    let blank = [0xFF; 16_896];
    for (len, cause) in &LENGTHS {
        let bytes = blank.get(..*len).ok_or("too short")?;
        assert!(rt; is_refused(alloc, bytes, *cause)?, "{len} bytes");
    }
    for (index, (pebs, cause)) in CASES.iter().enumerate() {
        let bytes = small_image(alloc, pebs)?;
        assert!(rt;
            is_refused(alloc, bytes.as_slice(), *cause)?,
            "case {index}"
        );
    }
    Ok(())
}

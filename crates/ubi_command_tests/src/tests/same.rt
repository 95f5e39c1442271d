//! The command `same` over sources that fail.

use super::contents::Contents;
use std::alloc::Global;
use std::test::Fail;
use ubi_files::SidesError;
use ubi_probe::ProbeSource;
use ubi_probe::pebs::small;
use ubi_reading::{Comparison, Format};

/// Whether a comparison, of which each side fails at one read, counted from 1, answers a line with its status, or the
/// side that failed. 0 is no read.
fn is_compared(
    alloc: Global,
    (left, left_at): (&[u8], u64),
    (right, right_at): (&[u8], u64),
    want: Result<(&str, u8), SidesError>,
) -> Result<bool, Fail> {
    let mut left = ProbeSource::new(alloc, &small()?, left, left_at)?;
    let mut right = ProbeSource::new(alloc, &small()?, right, right_at)?;
    let answer = Comparison::Same(Format::Text).answer(alloc, &small()?, &mut left, &mut right);
    Ok(match (answer, want) {
        (Ok(outcome), Ok((line, status))) => {
            outcome.text.as_slice() == line.as_bytes() && outcome.status == status
        }
        (Err(error), Err(side)) => error == side,
        _ => false,
    })
}

/// An image is read by the headers of five eraseblocks, a copy of the table, and three logical eraseblocks.
#[test]
fn names_the_side_whose_read_fails(rt: HostRuntime) -> Result<(), Fail> {
    let alloc = rt.alloc();
    let root = Contents::Root.bytes(alloc)?;
    let image = root.as_slice();
    for at in 1..10 {
        let side = Err(SidesError::Left);
        assert!(rt;
            is_compared(alloc, (image, at), (image, 0), side)?,
            "left at {at}"
        );
        let side = Err(SidesError::Right);
        assert!(rt;
            is_compared(alloc, (image, 0), (image, at), side)?,
            "right at {at}"
        );
    }
    assert!(rt; is_compared(alloc, (image, 10), (image, 0), Ok(("same\n", 0)))?);
    Ok(())
}

/// The left image is judged before the right one is read: if it is refused, a right one that fails isn't reported.
#[test]
fn refuses_the_left_image_before_the_right_is_read(rt: HostRuntime) -> Result<(), Fail> {
    let alloc = rt.alloc();
    let (root, faulty) = (Contents::Root.bytes(alloc)?, Contents::Faulty.bytes(alloc)?);
    let (root, faulty) = (root.as_slice(), faulty.as_slice());
    let left = Ok(("left refused S4 ImageSeq block=3\n", 1));
    assert!(rt; is_compared(alloc, (faulty, 0), (root, 1), left)?);
    let right = Ok(("right refused S4 ImageSeq block=3\n", 1));
    assert!(rt; is_compared(alloc, (root, 0), (faulty, 0), right)?);
    Ok(())
}

//! The command `diff` over sources that fail.

use super::contents::Contents;
use std::test::Fail;
use ubi_files::SidesError;
use ubi_probe::ProbeSource;
use ubi_probe::pebs::{A, B, C, FIRST, SECOND, small};
use ubi_reading::{Comparison, Format};

/// The image of `root` with another first byte in logical eraseblock 0 and another last one in 2.
const BOTH_ENDS: Contents = Contents::Pebs(
    &[FIRST, SECOND, A, B, C],
    &[(2 * 512 + 128, b"x"), (5 * 512 - 1, b"x")],
);

/// An image is read by the headers of five eraseblocks, a copy of the table, and three logical eraseblocks. Each read of either side
/// that fails is told, and no line of a difference before it.
#[test]
fn names_the_side_whose_read_fails(rt: HostRuntime) -> Result<(), Fail> {
    let alloc = rt.alloc();
    let (root, other) = (Contents::Root.bytes(alloc)?, BOTH_ENDS.bytes(alloc)?);
    let (root, other) = (root.as_slice(), other.as_slice());
    let geometry = small()?;
    for at in 1..11 {
        let mut left = ProbeSource::new(alloc, &geometry, root, at)?;
        let mut right = ProbeSource::new(alloc, &geometry, other, 0)?;
        let answer = Comparison::Diff(Format::Text).answer(alloc, &geometry, &mut left, &mut right);
        let is_left = matches!(&answer, Err(SidesError::Left));
        assert!(rt; is_left == (at < 10), "left at {at}");
        let mut left = ProbeSource::new(alloc, &geometry, root, 0)?;
        let mut right = ProbeSource::new(alloc, &geometry, other, at)?;
        let answer = Comparison::Diff(Format::Text).answer(alloc, &geometry, &mut left, &mut right);
        let is_right = matches!(&answer, Err(SidesError::Right));
        assert!(rt; is_right == (at < 10), "right at {at}");
    }
    Ok(())
}

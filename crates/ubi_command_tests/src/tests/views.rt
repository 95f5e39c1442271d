//! A part of a file beyond 4 GiB.

use super::answers::{are_one, run_over};
use super::contents::Contents;
use super::fake::Broken;
use std::alloc::Global;
use std::test::Fail;

/// An image of small eraseblocks with bytes that are neither 0xFF nor those of a header after each of its pages, and after
/// all of them.
fn laid(alloc: Global, image: &[u8]) -> Result<Vec<u8>, Fail> {
    let mut bytes = Vec::new(alloc);
    for page in image.chunks(64) {
        bytes.extend_from_slice(page)?;
        bytes.extend_from_slice(&[7; 5])?;
    }
    bytes.extend_from_slice(&[7; 9])?;
    Ok(bytes)
}

#[test]
fn sees_a_part_beyond_four_gibibytes(rt: HostRuntime) -> Result<(), Fail> {
    let alloc = rt.alloc();
    let image = Contents::Spares.bytes(alloc)?;
    let file = laid(alloc, image.as_slice())?;
    for line in ["check a.img", "normalise a.img --out b.img --bad 3"] {
        let want = run_over(alloc, (image.as_slice(), &[]), Broken::Nothing, line)?;
        // 56 pages of 69 bytes.
        let line = format!(in alloc; "{line} --start 4294967299 --length 3864 --oob 5")?;
        let broken = Broken::Behind(4_294_967_299);
        let answer = run_over(alloc, (file.as_slice(), &[]), broken, line.as_str())?;
        assert!(rt; are_one(&answer, &want) && want.0.status == 0, "of {line}");
    }
    Ok(())
}

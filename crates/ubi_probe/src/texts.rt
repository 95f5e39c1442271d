//! Texts as bytes that each stand a number of times, and what some of them say.

use std::alloc::{AllocError, Global};

/// The text that composes the volume `root` of 20 eraseblocks, whose logical eraseblocks 0, 1 and 2 hold 384 bytes 0x41, 0x42
/// and 0x43. They stand in another order.
pub const ROOT_TEXT: &[(&[u8], usize)] = &[
    (b"volume 0 dynamic 20 1 00 root\nleb 0 2 ", 1),
    (b"43", 384),
    (b"\nleb 0 0 ", 1),
    (b"41", 384),
    (b"\nleb 0 1 ", 1),
    (b"42", 384),
    (b"\n", 1),
];

/// Adds bytes that each stand a number of times.
pub fn put_runs(bytes: &mut Vec<u8>, runs: &[(&[u8], usize)]) -> Result<(), AllocError> {
    for (run, count) in runs {
        for _ in 0..*count {
            bytes.extend_from_slice(run)?;
        }
    }
    Ok(())
}

/// Bytes that each stand a number of times.
///
/// # Errors
///
/// Memory ran out.
pub fn bytes_of(alloc: Global, runs: &[(&[u8], usize)]) -> Result<Vec<u8>, AllocError> {
    let mut bytes = Vec::new(alloc);
    put_runs(&mut bytes, runs)?;
    Ok(bytes)
}

/// Writes bytes over others from a place on, as far as there is room.
pub fn overwrite(bytes: &mut [u8], at: usize, over: &[u8]) {
    for (old, new) in bytes.iter_mut().skip(at).zip(over) {
        *old = *new;
    }
}

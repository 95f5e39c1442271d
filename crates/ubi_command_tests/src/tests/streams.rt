//! Reading through readers that fail.

use super::fake::{Broken, FakeFiles, Left};
use std::alloc::Global;
use std::fs;
use std::io::ErrorKind;
use std::process::Abort;
use std::test::Fail;
use ubi_files::{ToolError, read_limited};

/// Asserts that so many of 40,000 bytes are read up to a limit, however many are expected.
fn assert_reads(
    rt: &impl Abort,
    alloc: Global,
    (limit, expected, want): (u64, u64, usize),
) -> Result<(), Fail> {
    let bytes = vec![in alloc; 7u8; 40_000]?;
    let mut reader = bytes.as_slice();
    let read = read_limited(alloc, &mut reader, limit, expected)?.len();
    let is = read == want && reader.len().saturating_add(want) == 40_000;
    assert!(*rt; is, "{want} bytes");
    Ok(())
}

/// The limit, how many bytes are expected, and how many are read.
static READ: [(u64, u64, usize); 7] = [
    (0, 40_000, 0),
    (1, 0, 1),
    (16_384, 40_000, 16_384),
    (16_385, 16_384, 16_385),
    (39_999, u64::MAX, 39_999),
    (40_000, 1, 40_000),
    (u64::MAX, 40_000, 40_000),
];

/// Asserts that a read that fails by an error of a kind, once so many bytes were read, is reported, and that these
/// are read.
fn assert_fails(rt: &impl Abort, alloc: Global, kind: ErrorKind, after: usize) -> Result<(), Fail> {
    let left = Left::new(alloc);
    let files = FakeFiles::of(&[7; 40_000], Broken::Read(kind, after), &left);
    let (mut file, mut again) = (fs::open(&files, "a.img")?, fs::open(&files, "a.img")?);
    let error = read_limited(alloc, &mut file, 40_000, 40_000).err();
    let bytes = read_limited(alloc, &mut again, after as u64, 0)?;
    let is = error == Some(ToolError::Read) && bytes.len() == after;
    assert!(*rt; is, "after {after} bytes");
    Ok(())
}

/// How a read fails, and once how many bytes were read.
static FAILS: [(ErrorKind, usize); 3] = [
    (ErrorKind::Other, 0),
    (ErrorKind::Interrupted, 0),
    (ErrorKind::Interrupted, 20_000),
];

#[test]
fn reads_up_to_the_limit_and_tells_of_a_read_that_fails(rt: HostRuntime) -> Result<(), Fail> {
    for read in READ {
        assert_reads(&rt, rt.alloc(), read)?;
    }
    for (kind, after) in FAILS {
        assert_fails(&rt, rt.alloc(), kind, after)?;
    }
    Ok(())
}

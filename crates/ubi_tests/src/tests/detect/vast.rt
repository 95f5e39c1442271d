//! Files of any size that can't be read.

use std::io;
use std::io::ErrorKind;
use std::test::Fail;
use ubi_detect::{DetectError, detect_from};
use ubi_scan::{FileSource, PlacedFile};

/// A file whose reads fail.
#[derive(Drop)]
struct UnreadableFile;

impl PlacedFile for UnreadableFile {
    ghost use Rattle.std.specs.Prelude.{None};

    ghost bytes = { λ _. None };

    fn read_from(&self, _at: u64, _out: &mut [u8]) -> io::Result<usize> {
        Err(io::Error::from(ErrorKind::PermissionDenied))
    }
}

/// Sizes of files, up to far more than a device has.
static SIZES: [u64; 8] = [
    512,
    1 << 20,
    1 << 32,
    1 << 40,
    1 << 42,
    1 << 44,
    1 << 46,
    1 << 62,
];

/// That the first read fails is reported for each: memory runs out of none before.
#[test]
fn the_first_read_fails(rt: HostRuntime) -> Result<(), Fail> {
    let alloc = rt.alloc();
    for size in &SIZES {
        let mut source = FileSource::of(UnreadableFile, *size);
        let error = detect_from(alloc, &mut source).err();
        assert!(rt; error == Some(DetectError::Read(0)), "of {size} bytes");
    }
    Ok(())
}

//! What sources and writers for tests are asked, in several layers.

use std::io::ErrorKind;
use ubi_probe::{Failure, ProbeSource};

/// An eraseblock, how many reads begin in it, and how many of them in its data.
pub type Reads = (u32, u64, u64);

/// Whether so many reads began in the eraseblocks, and none went beyond one.
pub fn has_reads(source: &ProbeSource<'_>, want: &[Reads]) -> bool {
    let mut has = source.crossing() == 0;
    for reads in want {
        has = has && source.reads(reads.0) == reads.1 && source.data_reads(reads.0) == reads.2;
    }
    has
}

/// The ways in which a write fails, with how many bytes are taken at once.
pub static WAYS: [(Failure, usize); 6] = [
    (Failure::Nothing, 1),
    (Failure::Error(ErrorKind::Interrupted), 1),
    (Failure::Error(ErrorKind::Other), 1),
    (Failure::Nothing, usize::MAX),
    (Failure::Error(ErrorKind::Interrupted), usize::MAX),
    (Failure::Error(ErrorKind::Other), usize::MAX),
];

//! Parts of files.

ghost use Rattle.std.specs.Prelude.{◌≡◌, ◌+◌, ◌≤◌, drop, option_map, take};

use crate::file_row::SizedFile;
use std::io;
use ubi_scan::PlacedFile;

/// A part of a file that is read at places, which is read as a file.
#[derive(Drop)]
pub struct Part<F: PlacedFile> {
    file: SizedFile<F>,
    /// Where it begins in the file.
    start: u64,
    len: u64,
    ghost inside: { start + len ≤ file.len },
}

impl<F: PlacedFile> Part<F> {
    /// The `len` bytes of a file from `start` on.
    pub fn of(file: SizedFile<F>, start: u64, len: u64) -> SizedFile<Part<F>>
        requires { start + len ≤ file.len }
        ensures file { result.file.file ≡ file }
        ensures start { result.file.start ≡ start }
        ensures part { result.file.len ≡ len }
        ensures len { result.len ≡ len }
    {
        SizedFile::new(Part { file, start, len }, len)
    }
}

impl<F: PlacedFile> PlacedFile for Part<F> {
    ghost bytes = { λ part. option_map (λ all. take part.len (drop part.start all)) (F.bytes part.file.file) };

    fn read_from(&self, at: u64, out: &mut [u8]) -> io::Result<usize> {
        if at >= self.len {
            return Ok(0);
        }
        let most = out.len().min((self.len - at) as usize);
        let file = self.file.file();
        file.read_from(self.start + at, &mut out[..most])
    }
}

//! Files in a row, which are read as one.

ghost use Rattle.std.specs.List.{All};
ghost use Rattle.std.specs.Option.{ForSome};
ghost use Rattle.std.specs.Prelude.{◌≡◌, ◌<◌, ◌^◌, length, map, sum_by};
ghost use Rattle.ubi_files.specs.Row.{row_bytes};

use std::io;
use ubi_scan::PlacedFile;

/// A file, and its size in bytes.
#[derive(Drop)]
pub struct SizedFile<F: PlacedFile> {
    file: F,
    len: u64,
    // If the bytes of a file are known, it has this many.
    pub ghost sized: { ForSome (F.bytes file) (λ all. length all ≡ len) },
    pub ghost counted: { len < 2 ^ 64 },
}

impl<F: PlacedFile> SizedFile<F> {
    /// A file of `len` bytes.
    pub fn new(file: F, len: u64) -> SizedFile<F>
        requires { ForSome (F.bytes file) (λ all. length all ≡ len) }
        ensures file { result.file ≡ file }
        ensures len { result.len ≡ len }
    {
        SizedFile { file, len }
    }

    /// The file.
    pub fn file(&self) -> &F
        ensures { result.now ≡ self.now.file }
    {
        &self.file
    }

    /// The size of the file in bytes.
    pub fn len(&self) -> u64
        ensures { result ≡ self.now.len }
    {
        self.len
    }
}

/// Files in a row: after the end of one comes the beginning of the next.
#[derive(Drop)]
pub struct FileRow<F: PlacedFile> {
    files: Vec<SizedFile<F>>,
}

impl<F: PlacedFile> FileRow<F> {
    /// Files in this order.
    pub fn new(files: Vec<SizedFile<F>>) -> FileRow<F>
        ensures { result.files ≡ files }
    {
        FileRow { files }
    }
}

impl<F: PlacedFile> PlacedFile for FileRow<F> {
    ghost bytes = { λ row. row_bytes (map (λ f. F.bytes f.file) row.files.items) };

    fn read_from(&self, at: u64, out: &mut [u8]) -> io::Result<usize> {
        let mut place = at;
        for part in self.files.iter() {
            if place < part.len {
                let count = part.file.read_from(place, out)?;
                return Ok(count.min((part.len - place) as usize));
            }
            place -= part.len;
        }
        Ok(0)
    }
}

//! Files whose bad eraseblocks read 0xFF.

ghost use Rattle.std.specs.Option.{ForSome};
ghost use Rattle.std.specs.Prelude.{◌≡◌, ◌+◌, ◌<◌, ℕ, List, length, option_map, take};
ghost use Rattle.ubi_scan.specs.Marks.{is_listed};
ghost use Rattle.ubi_files.specs.BadBlocks.{masked};

use crate::file_row::SizedFile;
use std::io;
use ubi_scan::PlacedFile;

/// Whether an eraseblock is marked. One that has no mark isn't.
fn is_marked(marks: &[bool], p: u64) -> bool
    ensures { result ≡ is_listed marks.now p }
{
    if p >= marks.len() as u64 {
        return false;
    }
    marks[p as usize]
}

/// Fills an eraseblock of an image with 0xFF if it is marked, as far as the image has its bytes.
fn mask_block(bytes: &mut [u8], size: u32, p: usize, marks: &[bool])
    requires some { 0 < size }
    requires within { p < length marks.now }
    ensures { (before : List ℕ) → bytes.old ≡ masked size (take p marks.now) before → bytes.new ≡ masked size (take (p + 1) marks.now) before }
{
    if marks[p] {
        let start = p.saturating_mul(size as usize).min(bytes.len());
        let end = start.saturating_add(size as usize).min(bytes.len());
        bytes[start..end].fill(0xFF);
    }
}

/// Fills the marked eraseblocks of an image with 0xFF. An eraseblock has `size` bytes.
pub fn mask(bytes: &mut [u8], size: u32, marks: &[bool])
    requires { 0 < size }
    ensures { bytes.new ≡ masked size marks.now bytes.old }
{
    for p in 0..marks.len() {
        mask_block(bytes, size, p, marks);
    }
}

/// A file that is read at places, in which marked eraseblocks read 0xFF: their bytes aren't read from the file.
#[derive(Drop)]
pub struct Masked<'a, F: PlacedFile> {
    file: SizedFile<F>,
    /// The size of an eraseblock in bytes.
    size: u32,
    marks: &'a [bool],
    ghost some: { 0 < size },
}

impl<'a, F: PlacedFile> Masked<'a, F> {
    /// A file with eraseblocks of `size` bytes, and their marks.
    pub fn new(file: SizedFile<F>, size: u32, marks: &'a [bool]) -> Masked<'a, F>
        requires { 0 < size }
        ensures file { result.file ≡ file }
        ensures size { result.size ≡ size }
        ensures marks { result.marks.now ≡ marks.now }
    {
        Masked { file, size, marks }
    }
}

impl<F: PlacedFile> PlacedFile for Masked<'_, F> {
    ghost bytes = { λ seen. option_map (masked seen.size seen.marks.now) (F.bytes seen.file.file) };

    fn read_from(&self, at: u64, out: &mut [u8]) -> io::Result<usize> {
        if self.marks.is_empty() {
            return self.file.file().read_from(at, out);
        }
        let size = u64::from(self.size);
        // At most what is left of the eraseblock.
        let most = out.len().min((size - at % size) as usize);
        if !is_marked(self.marks, at / size) {
            return self.file.file().read_from(at, &mut out[..most]);
        }
        let count = most.min(self.file.len().saturating_sub(at) as usize);
        out[..count].fill(0xFF);
        Ok(count)
    }
}

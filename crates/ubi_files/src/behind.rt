//! Files behind bytes 0xFF.

ghost use Rattle.std.specs.Prelude.{◌≡◌, ◌+◌, ◌++◌, ◌<◌, ◌^◌, option_map};
ghost use Rattle.ubi_media.specs.Fields.{blank};

use crate::file_row::SizedFile;
use std::io;
use ubi_scan::PlacedFile;

/// A file that is read at places behind bytes 0xFF, which are read as a file together.
#[derive(Drop)]
pub struct Behind<F: PlacedFile> {
    file: SizedFile<F>,
    /// How many bytes are before it.
    before: u64,
}

impl<F: PlacedFile> Behind<F> {
    /// A file behind `before` bytes 0xFF.
    pub fn of(file: SizedFile<F>, before: u64) -> SizedFile<Behind<F>>
        requires { before + file.len < 2 ^ 64 }
        ensures file { result.file.file ≡ file }
        ensures before { result.file.before ≡ before }
    {
        let len = before + file.len();
        SizedFile::new(Behind { file, before }, len)
    }
}

impl<F: PlacedFile> PlacedFile for Behind<F> {
    ghost bytes = { λ seen. option_map (λ all. blank seen.before ++ all) (F.bytes seen.file.file) };

    fn read_from(&self, at: u64, out: &mut [u8]) -> io::Result<usize> {
        if at >= self.before {
            return self.file.file().read_from(at - self.before, out);
        }
        let count = out.len().min((self.before - at) as usize);
        out[..count].fill(0xFF);
        Ok(count)
    }
}

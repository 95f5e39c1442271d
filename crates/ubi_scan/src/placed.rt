//! Files that are read at places.

ghost use Rattle.std.specs.Io.{ReadsAtMost};
ghost use Rattle.std.specs.Option.{ForSome};
ghost use Rattle.std.specs.Prelude.{◌≡◌, List, ℕ, Option, IfOk, IfSome, length, take, None};
ghost use Rattle.ubi_scan.specs.Placed.{StandsAt};

use std::fs::File;
use std::io;
use std::io::{Seek, SeekFrom};
use std::os::unix::fs::FileExt;

/// A file that is read at places.
pub trait PlacedFile {
    // What it holds, if that is known: then nobody else writes to it.
    ghost bytes: { Self → Option (List ℕ) };

    /// Reads bytes from the place `at` on to the beginning of `out`, and returns how many.
    ///
    /// # Errors
    ///
    /// The read failed.
    fn read_from(&self, at: u64, out: &mut [u8]) -> io::Result<usize>
        ensures bound { ReadsAtMost result out.new }
        ensures read { IfOk result (λ n. ForSome (bytes self.now) (λ all. StandsAt all at (take n out.new))) };
}

/// The size of a file in bytes. Its position is at its end afterwards.
///
/// # Errors
///
/// It has no end, or its end can't be found.
pub fn file_len<F: Seek>(file: &mut F) -> io::Result<u64>
    ensures { IfSome (F.stream_position file.old) (λ _. IfSome (F.stream_bytes file.old) (λ all. IfOk result (λ len. len ≡ length all))) }
{
    file.seek(SeekFrom::End(0))
}

/// A file of the system. Other programs may write to it, so nobody knows what it holds.
#[derive(Drop)]
pub struct SystemFile<F = File> {
    file: F,
}

impl<F> SystemFile<F> {
    /// An open file.
    pub fn new(file: F) -> SystemFile<F>
        ensures { result.file ≡ file }
    {
        SystemFile { file }
    }
}

impl<F: FileExt> PlacedFile for SystemFile<F> {
    ghost bytes = { λ _. None };

    fn read_from(&self, at: u64, out: &mut [u8]) -> io::Result<usize> {
        self.file.read_at(out, at)
    }
}

//! An open file of the system, which says on standard error why a read or a write of it failed.

ghost use Rattle.std.specs.Prelude.{◌≡◌, None};

use std::io;
use std::io::{Read, Write};
use std::os::unix::fs::FileExt;
use ubi_scan::PlacedFile;

/// Says on standard error why a path can't be opened, made or written.
pub fn tell_path<R: Eprint>(rt: &R, path: &str, error: &io::Error) {
    let _ = rt.eprintln(format_args!("{path}: {error}"));
}

/// An open file of the system. Other programs may write to it, so nobody knows what it holds. Where a read or a write fails, standard error
/// says why.
#[derive(Drop)]
pub struct HostFile<'a, F, R> {
    file: F,
    rt: &'a R,
}

impl<'a, F, R> HostFile<'a, F, R> {
    /// An open file, and what reaches standard error.
    pub fn new(file: F, rt: &'a R) -> HostFile<'a, F, R>
        ensures file { result.file ≡ file }
        ensures rt { result.rt.now ≡ rt.now }
    {
        HostFile { file, rt }
    }
}

/// Says on standard error why work on an open file failed, if it did.
fn tell_failure<R: Eprint>(rt: &R, what: &str, work: &io::Result<usize>) {
    if let Err(error) = work {
        let _ = rt.eprintln(format_args!("{what} failed: {error}"));
    }
}

impl<F: Read, R: Eprint> Read for HostFile<'_, F, R> {
    ghost remaining = { λ _. None };

    fn read(&mut self, buf: &mut [u8]) -> io::Result<usize> {
        let work = self.file.read(buf);
        tell_failure(self.rt, "a read", &work);
        work
    }
}

impl<F: Write, R: Eprint> Write for HostFile<'_, F, R> {
    ghost contents = { λ _. None };

    fn write(&mut self, buf: &[u8]) -> io::Result<usize> {
        let work = self.file.write(buf);
        tell_failure(self.rt, "a write", &work);
        work
    }

    fn flush(&mut self) -> io::Result<()> {
        self.file.flush()
    }
}

impl<F: FileExt, R: Eprint> PlacedFile for HostFile<'_, F, R> {
    ghost bytes = { λ _. None };

    fn read_from(&self, at: u64, out: &mut [u8]) -> io::Result<usize> {
        let work = self.file.read_at(out, at);
        tell_failure(self.rt, "a read", &work);
        work
    }
}

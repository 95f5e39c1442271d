//! Sources over files.

ghost use Rattle.std.specs.Option.{ForSome};
ghost use Rattle.std.specs.Prelude.{◌≡◌, ◌+◌, ◌<◌, ◌^◌, [], IfOk, IfSome, None, length, true, take};
ghost use Rattle.ubi_scan.specs.Placed.{IsSourceOf, StandsAt};
ghost use Rattle.ubi_scan.specs.Source.{file_owned, file_sized, known_by};
ghost use Rattle.ubi_scan.specs.Promised.{keeps_promise};

use crate::placed::{PlacedFile, SystemFile, file_len};
use crate::source::{BlockSource, SourceFault};
use crate::trace::Trace;
use crate::window::Window;
use std::fs;
use std::fs::{Files, OpenFile};
use std::io::Seek;
use std::os::unix::fs::FileExt;

/// A source over a file, of the size that the file had when it was opened. All that is known of a file of the system is what
/// the reads answered: another program may write to it at any time.
///
/// If small reads follow each other closely, 16 KiB are read at once, and the next reads are answered from these. If that
/// fails, only what was asked for is read.
#[derive(Drop)]
pub struct FileSource<F: PlacedFile = SystemFile> {
    file: F,
    len: u64,
    failures: u64,
    /// Where the last failed read began, 0 if none has failed.
    failed_at: u64,
    trace: Trace,
    window: Window,
    // If the bytes of a file are known, the reads answered those.
    pub ghost told: { ForSome (F.bytes file) (λ all. IsSourceOf all len trace.reads) },
    // What was read ahead is from those bytes, too.
    ghost ahead: { ForSome (F.bytes file) (λ all. StandsAt all window.start (take window.filled window.bytes)) },
}

/// Fills `out` with the bytes of a file from the place `at` on, and says whether it could. A read that failed isn't
/// tried again.
fn fill<F: PlacedFile>(file: &F, at: u64, out: &mut [u8]) -> bool
    requires { at + length out.old < 2 ^ 64 }
    ensures { result ≡ true → ForSome (F.bytes file.now) (λ all. StandsAt all at out.new) }
{
    let mut done = 0;
    while done < out.len() {
        match file.read_from(at + done as u64, &mut out[done..]) {
            Ok(0) | Err(_) => return false,
            Ok(count) => done += count,
        }
    }
    true
}

/// Fills `out` with the bytes of a file from the place `at` on, out of what was read ahead if that has them, and says
/// whether it could.
fn read_by<F: PlacedFile>(window: &mut Window, file: &F, at: u64, out: &mut [u8]) -> bool
    requires place { at + length out.old < 2 ^ 64 }
    requires told { ForSome (F.bytes file.now) (λ all. StandsAt all window.old.start (take window.old.filled window.old.bytes)) }
    ensures told { ForSome (F.bytes file.now) (λ all. StandsAt all window.new.start (take window.new.filled window.new.bytes)) }
    ensures read { result ≡ true → ForSome (F.bytes file.now) (λ all. StandsAt all at out.new) }
{
    let is_read = window.give(file, at, out) || fill(file, at, out);
    window.passed(at, at + out.len() as u64);
    is_read
}

impl<F: PlacedFile> FileSource<F> {
    /// A source over a file of `len` bytes.
    pub fn of(file: F, len: u64) -> FileSource<F>
        requires { ForSome (F.bytes file) (λ all. length all ≡ len) }
        ensures file { result.file ≡ file }
        ensures len { result.len ≡ len }
        ensures failures { result.failures ≡ 0 }
        ensures trace { result.trace.reads ≡ [] }
    {
        FileSource {
            file,
            len,
            failures: 0,
            failed_at: 0,
            trace: Trace::new(),
            window: Window::new(),
        }
    }
}

impl<F: PlacedFile> FileSource<F> {
    /// The place at which the last failed read began. `None` if none has failed.
    pub fn failed_place(&self) -> Option<u64>
        ensures none { result ≡ None → self.now.failures ≡ 0 }
        ensures place { IfSome result (λ at. at ≡ self.now.failed_at) }
    {
        if self.failures == 0 {
            None
        } else {
            Some(self.failed_at)
        }
    }
}

impl<F: FileExt + OpenFile + Seek + Drop> FileSource<SystemFile<F>> {
    /// A source over the file at a path.
    ///
    /// # Errors
    ///
    /// The file can't be opened, it is a folder, or its size can't be found.
    pub fn open<R: Files<File = F>>(
        rt: &R,
        path: &str,
    ) -> Result<FileSource<SystemFile<F>>, SourceFault>
        ensures failures { IfOk result (λ s. s.failures ≡ 0) }
        ensures trace { IfOk result (λ s. s.trace.reads ≡ []) }
    {
        let Ok(mut file) = fs::open(rt, path) else {
            return Err(SourceFault);
        };
        match file.metadata() {
            Ok(metadata) if !metadata.is_dir() => {}
            _ => return Err(SourceFault),
        }
        match file_len(&mut file) {
            Ok(len) => Ok(FileSource::of(SystemFile::new(file), len)),
            Err(_) => Err(SourceFault),
        }
    }
}

impl<F: PlacedFile + Drop> BlockSource for FileSource<F> {
    ghost known = { λ s. record { size = s.len; failures = s.failures; held = F.bytes s.file } };

    ghost reads = { λ s. s.trace.reads };

    ghost failed_at = { λ s. s.failed_at };

    ghost agrees = { λ s. known_by s.len s.trace.reads };

    fn len(&self) -> u64 {
        self.len
    }

    fn read(&mut self, at: u64, out: &mut [u8]) -> Result<(), SourceFault> {
        prove!(at <= self.len());
        if read_by(&mut self.window, &self.file, at, out) {
            self.trace.note(at, out);
            return Ok(());
        }
        self.failures = self.failures.saturating_add(1);
        self.failed_at = at;
        Err(SourceFault)
    }

    ghost sized = { λ s. file_sized (record { size = s.len; failures = s.failures; held = F.bytes s.file }) s.trace.reads };

    ghost promised = { λ s. keeps_promise (F.bytes s.file) s.len s.trace.reads s.told };

    ghost owned = { λ s _. file_owned s.len s.trace.reads };
}

//! The files of the system.

ghost use Rattle.std.specs.Prelude.{◌≡◌, None, true};

use crate::disk::{Disk, OutputFile, WholeFile};
use crate::file_row::SizedFile;
use crate::folder::make_folder;
use crate::host_file::{HostFile, tell_path};
use crate::image_source::{
    is_flash, may_be_one, placed_at, placed_beside, refuse_printed, tell_unplaced,
};
use crate::outcome::ToolError;
use crate::read::{expected_len, open_whole};
use crate::replaced::replace;
use crate::standard::{STREAM, open_output, read_path, written_path};
use std::alloc::Global;
use std::fmt::Display;
use std::fs::{File, Files};
use std::io;
use std::io::Write;
use std::os::unix::fs::FileExt;

/// The files of the system. Other programs may write to them, so nothing is known of what they hold. Where one can't be opened, read or
/// written, standard error says why. The word `-` is standard input where a file is read, and standard output where one is written; a file
/// of that name has the path `./-`.
#[derive(Clone, Copy)]
pub struct Host<'a, R> {
    rt: &'a R,
}

impl<'a, R> Host<'a, R> {
    /// The files that `rt` reaches.
    pub fn new(rt: &'a R) -> Host<'a, R>
        ensures { result.rt.now ≡ rt.now }
    {
        Host { rt }
    }
}

/// Opens the file at a path anew, or standard output.
///
/// # Errors
///
/// It can't be opened, or it is the file of standard output by its own path.
fn create<R: Files>(rt: &R, path: &str) -> io::Result<R::File> {
    if path == STREAM {
        return open_output(rt);
    }
    refuse_printed(rt, path)?;
    File::create(rt, path)
}

/// Gives the file at a path other bytes, all at once.
///
/// # Errors
///
/// It is standard output, it can't be made, or a write failed.
fn replace_all<R: Files>(rt: &R, alloc: Global, path: &str, bytes: &[u8]) -> io::Result<()> {
    if path == STREAM {
        return Err(io::Error::other("standard output may be the image, and can't be replaced"));
    }
    replace(rt, alloc, path, bytes)
}

/// Whether what is written for the second word may be written to what is read, or was written, for the first.
fn may_be_written<R: Files>(rt: &R, word: &str, other: &str) -> bool
    ensures { word.now ≡ other.now → result ≡ true }
{
    if word == other {
        return true;
    }
    let out = written_path(other);
    may_be_one(rt, read_path(word), out) || may_be_one(rt, written_path(word), out)
}

/// The result of work on a path; standard error says why it failed, if it did.
fn told<R: Eprint, T>(rt: &R, path: &str, work: io::Result<T>) -> io::Result<T>
    ensures { result ≡ work }
{
    if let Err(error) = &work {
        tell_path(rt, path, error);
    }
    work
}

impl<'a, R: Files + Eprint> Disk for Host<'a, R>
where
    R::File: FileExt,
{
    ghost use Rattle.std.specs.Prelude.{None, false, refl};
    ghost use Rattle.ubi_files.specs.Disk.{IsKept, untold};

    type Placed = HostFile<'a, R::File, R>;

    type Reader = HostFile<'a, R::File, R>;

    type Output = HostFile<'a, R::File, R>;

    ghost files = { λ _. untold };

    ghost same_telling = { λ a b. refl };

    ghost opens = { λ _ _. false };

    fn placed_at(&self, path: &str) -> Option<SizedFile<HostFile<'a, R::File, R>>> {
        placed_at(self.rt, read_path(path))
    }

    fn placed_beside(&self, path: &str, out: &str) -> Option<SizedFile<HostFile<'a, R::File, R>>> {
        if path == out {
            return None;
        }
        placed_beside(self.rt, read_path(path), written_path(out))
    }

    fn tell_unplaced(&self, path: &str, out: &str) {
        tell_unplaced(self.rt, read_path(path), written_path(out));
    }

    fn may_be_one(&self, path: &str, other: &str) -> bool {
        may_be_written(self.rt, path, other)
    }

    fn is_flash(&self, path: &str) -> bool {
        is_flash(self.rt, read_path(path))
    }

    fn whole(&self, path: &str) -> Result<WholeFile<HostFile<'a, R::File, R>>, ToolError> {
        let file = open_whole(self.rt, read_path(path))?;
        let expected = expected_len(&file);
        let reader = HostFile::new(file, self.rt);
        Ok(WholeFile { reader, expected })
    }

    fn create<'p>(
        &mut self,
        path: &'p str,
    ) -> io::Result<OutputFile<'p, HostFile<'a, R::File, R>>> {
        let file = told(self.rt, path, create(self.rt, path))?;
        Ok(OutputFile::new(path, HostFile::new(file, self.rt)))
    }

    fn create_new<'p>(
        &mut self,
        path: &'p str,
    ) -> io::Result<OutputFile<'p, HostFile<'a, R::File, R>>> {
        let file = told(self.rt, path, File::create_new(self.rt, path))?;
        Ok(OutputFile::new(path, HostFile::new(file, self.rt)))
    }

    fn replace(&mut self, alloc: Global, path: &str, bytes: &[u8]) -> io::Result<()> {
        told(self.rt, path, replace_all(self.rt, alloc, path, bytes))
    }

    fn make_folder(&self, path: &str) -> io::Result<()> {
        make_folder(self.rt, path)
    }

    fn keep(&mut self, _file: OutputFile<'_, HostFile<'a, R::File, R>>)
        ensures { IsKept untold untold _file.entry.path.now None }
    {}
}

impl<R: Eprint> Eprint for Host<'_, R> {
    fn eprint<D: Display + Drop>(&self, value: D) -> io::Result<()> {
        self.rt.eprint(value)
    }

    fn eprintln<D: Display + Drop>(&self, value: D) -> io::Result<()> {
        self.rt.eprintln(value)
    }
}

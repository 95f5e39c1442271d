//! An output file that is opened late.

ghost use Rattle.std.specs.Io.KnownBytes.{WriteAppends};
ghost use Rattle.std.specs.Io.{WritesAtMost};
ghost use Rattle.std.specs.Option.{ForSome};
ghost use Rattle.std.specs.Prelude.{◌≡◌, ℕ, Bool, IsSome, List, None, OnErr, OnOk, Option, false, []};
ghost use Rattle.ubi_files.specs.Disk.{Files, OthersStay, fresh, untold};
ghost use Rattle.ubi_files.specs.Late.{contents_of};

use crate::disk::{Disk, OutputFile};
use std::fmt::Display;
use std::io;
use std::io::{ErrorKind, Write};
use std::marker::{Brand, PhantomData};

/// Which file is written, and on which disk. It exists only in proofs.
pub trait Target {
    // Its path.
    ghost path: { List ℕ };

    // The files of the disk before it is opened.
    ghost files: { Files };

    // The reference to the disk.
    ghost disk: { ℕ };

    // Whether it may be opened.
    ghost may_open: { Bool };
}

impl Target for Brand {
    ghost path = { [] };

    ghost files = { untold };

    ghost disk = { 0 };

    ghost may_open = { false };
}

/// A writer to a file that is opened anew at the first write. So an existing file stays as it is if the work is refused.
///
/// Its contents are those of the file: nothing, until that is open.
#[derive(Drop)]
pub struct LateFile<'a, 'p, D: Disk, K: Target> {
    disk: &'a mut D,
    path: &'p str,
    /// Whether it may be opened at all: it may not if it could be a file that was read.
    may_open: bool,
    file: Option<OutputFile<'p, D::Output>>,
    of: PhantomData<K>,
    ghost same: { disk.ghost_name ≡ K.disk },
    ghost named: { path.now ≡ K.path },
    ghost before: { file ≡ None → D.files disk.now ≡ K.files },
    ghost since: { OthersStay K.files (D.files disk.now) K.path },
    ghost opened: { ForSome file (λ f. f.path.now ≡ K.path) },
    ghost allowed: { may_open ≡ K.may_open },
    ghost shut: { may_open ≡ false → file ≡ None },
}

impl<'a, 'p, D: Disk, K: Target> LateFile<'a, 'p, D, K> {
    /// A file that isn't opened yet, and never will be if `may_open` is false.
    pub fn new(disk: &'a mut D, path: &'p str, may_open: bool) -> LateFile<'a, 'p, D, K>
        requires same { disk.ghost_name ≡ K.disk }
        requires named { path.now ≡ K.path }
        requires files { D.files disk.old ≡ K.files }
        requires allowed { may_open ≡ K.may_open }
        ensures { result.file ≡ None }
    {
        LateFile {
            disk,
            path,
            may_open,
            file: None,
            of: PhantomData,
        }
    }

    /// Opens the file if no write did, so that it exists even if nothing was written.
    ///
    /// # Errors
    ///
    /// The file can't be opened, or may not be.
    pub fn finish(&mut self) -> io::Result<()>
        ensures contents { contents_of (fresh K.files) (λ f. D.Output.contents f.writer) self.new.file ≡ contents_of (fresh K.files) (λ f. D.Output.contents f.writer) self.old.file }
        ensures opened { OnOk result (IsSome self.new.file) }
        ensures stays { IsSome self.old.file → self.new.file ≡ self.old.file }
        ensures unopened { OnErr result (self.new.file ≡ None) }
    {
        if !self.may_open {
            return Err(io::Error::from(ErrorKind::AlreadyExists));
        }
        if self.file.is_none() {
            self.file = Some(self.disk.create(self.path)?);
        }
        Ok(())
    }

    /// The disk, and the file, if it was opened.
    pub fn into_parts(self) -> (&'a mut D, Option<OutputFile<'p, D::Output>>)
        ensures same { result.0.ghost_name ≡ K.disk }
        ensures before { result.1 ≡ None → D.files result.0.now ≡ K.files }
        ensures since { OthersStay K.files (D.files result.0.now) K.path }
        ensures file { result.1 ≡ self.entry.file }
        ensures named { ForSome result.1 (λ f. f.path.now ≡ K.path) }
        ensures shut { K.may_open ≡ false → result.1 ≡ None }
    {
        (self.disk, self.file)
    }
}

impl<D: Disk, K: Target> Write for LateFile<'_, '_, D, K> {
    ghost contents = { λ late. contents_of (fresh K.files) (λ f. D.Output.contents f.writer) late.file };

    fn write(&mut self, buf: &[u8]) -> io::Result<usize> {
        self.finish()?;
        match &mut self.file {
            Some(file) => file.writer.write(buf),
            None => Ok(0),
        }
    }

    fn flush(&mut self) -> io::Result<()> {
        match &mut self.file {
            Some(file) => file.writer.flush(),
            None => Ok(()),
        }
    }
}

impl<D: Disk + Eprint, K: Target> Eprint for LateFile<'_, '_, D, K> {
    fn eprint<V: Display + Drop>(&self, value: V) -> io::Result<()> {
        self.disk.eprint(value)
    }

    fn eprintln<V: Display + Drop>(&self, value: V) -> io::Result<()> {
        self.disk.eprintln(value)
    }
}

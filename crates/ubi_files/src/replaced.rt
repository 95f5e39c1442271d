//! Ordinary files of the system that get other bytes, all at once.

use crate::image_source::refuse_printed;
use std::alloc::Global;
use std::fs::{File, Files, Metadata, OpenFile};
use std::io::{ErrorKind, Write};
use std::{fs, io};

/// How many names are tried for the file that takes the place of another.
const TRIES: u32 = 100;

/// A new file beside another, with its path.
#[derive(Drop)]
struct Beside<F> {
    file: F,
    path: String,
}

/// Makes a new file beside the one at a path.
///
/// # Errors
///
/// None can be made there, or memory ran out.
fn make_beside<R: Files>(rt: &R, alloc: Global, path: &str) -> io::Result<Beside<R::File>> {
    for k in 0..TRIES {
        let beside = format!(in alloc; "{path}.new{k}")?;
        match File::create_new(rt, beside.as_str()) {
            Ok(file) => return Ok(Beside { file, path: beside }),
            Err(error) if error.kind() == ErrorKind::AlreadyExists => {}
            Err(error) => return Err(error),
        }
    }
    Err(io::Error::from(ErrorKind::AlreadyExists))
}

/// Writes the bytes of a new file, and gives it the permissions of another.
///
/// # Errors
///
/// A write failed, or the system can't say that the bytes have reached the disk.
fn fill<F: Write + OpenFile>(file: &mut F, old: &Metadata, bytes: &[u8]) -> io::Result<()> {
    file.write_all(bytes)?;
    file.flush()?;
    file.set_permissions(old.permissions())?;
    file.sync_all()
}

/// Gives the ordinary file at a path other bytes: a new file beside it takes its place once it holds them all. A link is followed.
///
/// # Errors
///
/// There is no ordinary file at the path, it is that of standard output, none can be made beside it, a write failed, or memory ran out. The
/// path holds what it held.
pub fn replace<R: Files>(rt: &R, alloc: Global, path: &str, bytes: &[u8]) -> io::Result<()> {
    refuse_printed(rt, path)?;
    let real = rt.canonicalize(alloc, path)?;
    let Some(real) = real.to_str() else {
        return Err(io::Error::from(ErrorKind::InvalidInput));
    };
    let old = fs::metadata(rt, real)?;
    if !old.is_file() {
        return Err(io::Error::from(ErrorKind::InvalidInput));
    }
    let mut beside = make_beside(rt, alloc, real)?;
    let work = match fill(&mut beside.file, &old, bytes) {
        Ok(()) => rt.rename(beside.path.as_str(), real),
        Err(error) => Err(error),
    };
    if work.is_err() {
        let _ = rt.remove_file(beside.path.as_str());
    }
    work
}

//! Files of the system that are read at places, and whether two paths may name one file.

ghost use Rattle.std.specs.Prelude.{◌≡◌, ◌≢◌, IfSome, true};

use crate::file_row::SizedFile;
use crate::host_file::{HostFile, tell_path};
use crate::standard::OUTPUT;
use std::fs::{FileType, Files, Metadata};
use std::io::ErrorKind;
use std::os::unix::fs::{FileExt, FileTypeExt, MetadataExt};
use std::{fs, io};
use ubi_scan::file_len;

/// The folder of the process's own descriptors.
const OWN: &str = "/proc/self/fd";

/// Whether two paths name one file, by what the system says of them: the device and the number of the file there, or
/// which block device it is itself.
fn are_one(file: &Metadata, other: &Metadata) -> bool {
    let is_one_file = file.dev() == other.dev() && file.ino() == other.ino();
    let is_one_device = file.rdev() == other.rdev() && file.file_type().is_block_device();
    is_one_file || is_one_device
}

/// Whether an image and an output may be one file. A flash memory has several devices, so any other device may be the
/// same.
fn may_be_same(image: &Metadata, output: &Metadata) -> bool {
    let other = output.file_type();
    let is_other = other.is_char_device() || other.is_block_device();
    are_one(image, output) || (image.file_type().is_char_device() && is_other)
}

/// The folder of a path.
fn folder_of(path: &str) -> &str {
    match path.rfind('/') {
        Some(end) => &path[..end + 1],
        None => ".",
    }
}

/// Whether a path that has no file yet may have one that is read, once that is opened: as a descriptor of the process has, below `/proc`.
fn may_come<R: Files>(rt: &R, path: &str) -> bool {
    match (fs::metadata(rt, OWN), fs::metadata(rt, folder_of(path))) {
        (Ok(own), Ok(folder)) => own.dev() == folder.dev(),
        _ => false,
    }
}

/// Whether there is nothing at a path, and nothing that is read comes there.
fn is_new<R: Files>(rt: &R, path: &str, error: &io::Error) -> bool {
    error.kind() == ErrorKind::NotFound && !may_come(rt, path)
}

/// Whether an image that is read at places stays as it is while the file at a path is written. False if that can't
/// be found out.
fn stays<R: Files>(rt: &R, image: &Metadata, out: &str) -> bool {
    match fs::metadata(rt, out) {
        Ok(output) => !may_be_same(image, &output),
        Err(error) => is_new(rt, out, &error),
    }
}

/// Whether what is written to the second path may be written to the file at the first: by the same path, or by a link. A
/// path without a file is another one; one of which nothing can be found out may be the same.
pub fn may_be_one<R: Files>(rt: &R, path: &str, other: &str) -> bool
    ensures { path.now ≡ other.now → result ≡ true }
{
    if path == other {
        return true;
    }
    match fs::metadata(rt, other) {
        Ok(output) => match fs::metadata(rt, path) {
            Ok(file) => are_one(&file, &output),
            Err(_) => true,
        },
        Err(error) => !is_new(rt, other, &error),
    }
}

/// Makes sure that standard output isn't the ordinary file at a path: what is written there would lie over what is printed, or be lost
/// with it.
///
/// # Errors
///
/// It is that file.
pub fn refuse_printed<R: Files>(rt: &R, path: &str) -> io::Result<()> {
    if is_printed_to(rt, path) {
        return Err(io::Error::other("it is the file of standard output"));
    }
    Ok(())
}

/// Whether standard output is the ordinary file at a path.
fn is_printed_to<R: Files>(rt: &R, path: &str) -> bool {
    match (fs::metadata(rt, OUTPUT), fs::metadata(rt, path)) {
        (Ok(printed), Ok(file)) => file.is_file() && are_one(&printed, &file),
        _ => false,
    }
}

/// Whether there is a character device at a path, as flash memory is one.
pub fn is_flash<R: Files>(rt: &R, path: &str) -> bool {
    match fs::metadata(rt, path) {
        Ok(metadata) => metadata.file_type().is_char_device(),
        Err(_) => false,
    }
}

/// Whether a file may have places: a device, or an ordinary file. A pipe or a terminal has none.
fn may_have_places(kind: FileType) -> bool {
    kind.is_file() || kind.is_block_device() || kind.is_char_device()
}

/// Opens a file that is read at places, and finds its size. `None` if that fails, or if it is a device without a size,
/// such as `/dev/zero`: it has no end.
fn open_sized<'a, R: Files + Eprint>(
    rt: &'a R,
    path: &str,
    kind: FileType,
) -> Option<SizedFile<HostFile<'a, R::File, R>>>
where
    R::File: FileExt,
{
    let mut file = fs::open(rt, path).ok()?;
    let len = file_len(&mut file).ok()?;
    (kind.is_file() || len > 0).then_some(SizedFile::new(HostFile::new(file, rt), len))
}

/// A file to be read at places; or `None` if it can't be read so.
pub fn placed_at<'a, R: Files + Eprint>(
    rt: &'a R,
    path: &str,
) -> Option<SizedFile<HostFile<'a, R::File, R>>>
where
    R::File: FileExt,
{
    let kind = fs::metadata(rt, path).ok()?.file_type();
    if may_have_places(kind) {
        open_sized(rt, path, kind)
    } else {
        None
    }
}

/// A file to be read at places while the output is written; or `None` if it can't be read so, or may be the output, by the
/// same path or by a link: what isn't read when that is opened would be lost.
pub fn placed_beside<'a, R: Files + Eprint>(
    rt: &'a R,
    path: &str,
    out: &str,
) -> Option<SizedFile<HostFile<'a, R::File, R>>>
where
    R::File: FileExt,
    ensures { IfSome result (λ _. path.now ≢ out.now) }
{
    let metadata = fs::metadata(rt, path).ok()?;
    let kind = metadata.file_type();
    if !may_have_places(kind) || path == out {
        return None;
    }
    let file = open_sized(rt, path, kind)?;
    // Judged once it is open: a link to a descriptor of the process leads to it only now.
    stays(rt, &metadata, out).then_some(file)
}

/// Describes a file; one that may have places is opened to find out whether that can be done.
///
/// # Errors
///
/// There is none, or it can't be opened.
fn try_open<R: Files>(rt: &R, path: &str) -> io::Result<Metadata> {
    let metadata = fs::metadata(rt, path)?;
    if may_have_places(metadata.file_type()) {
        fs::open(rt, path)?;
    }
    Ok(metadata)
}

/// Why a file that can be opened isn't read at places while the file at `out` is written.
fn why_unplaced<R: Files>(rt: &R, path: &str, metadata: &Metadata, out: &str) -> &'static str {
    let kind = metadata.file_type();
    if kind.is_dir() {
        "it is a folder"
    } else if !may_have_places(kind) {
        "it can't be read at places, as a pipe can't"
    } else if path == out || !stays(rt, metadata, out) {
        "it may be the output"
    } else {
        "it is a device without a size"
    }
}

/// Says on standard error why the file at a path isn't read at places while the file at `out` is written.
pub fn tell_unplaced<R: Files + Eprint>(rt: &R, path: &str, out: &str) {
    let why = match try_open(rt, path) {
        Ok(metadata) => io::Error::other(why_unplaced(rt, path, &metadata, out)),
        Err(error) => error,
    };
    tell_path(rt, path, &why);
}

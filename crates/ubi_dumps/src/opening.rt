//! How the output of a command is opened, which may be the image.

ghost use Rattle.std.specs.Prelude.{◌≡◌, ◌≢◌, IfSome, false, length, true};
ghost use Rattle.ubi_dumps.specs.Asked.{ReadsAll};

use crate::asked::Paths;
use ubi_files::{Disk, Dump};

/// How an output is opened.
#[derive(Clone, Copy, Debug, PartialEq, Eq)]
pub enum Opening {
    /// At the first write, or once the work is done.
    Late,
    /// It may be the image: it gets all of its bytes at once, when the work is done.
    AtOnce,
    /// Not at all: it may be a file that was read.
    Never,
}

/// Whether all bytes of the file at a path are read as a dump.
fn reads_all<D: Disk>(disk: &D, dump: &Dump<'_>, path: &str) -> bool
    ensures { result ≡ true → ReadsAll (D.files disk.now) dump.now path.now }
{
    let Dump { part, oob, .. } = *dump;
    if part.start != 0 || oob != 0 {
        return false;
    }
    match part.length {
        None => true,
        Some(length) => match disk.placed_at(path) {
            Some(file) => file.len() <= length,
            None => false,
        },
    }
}

/// How the output of a command over an image is opened. If it may be the image, it gets its bytes all at once: if the command
/// `may_replace` what it reads, and reads all of it. Otherwise it isn't opened, and standard error says why.
pub fn opening_of<D: Disk + Eprint>(
    disk: &D,
    dump: &Dump<'_>,
    paths: &Paths<'_>,
    may_replace: bool,
) -> Opening
    ensures late { result ≡ Opening.Late → paths.now.image.now ≢ paths.now.out.now }
    ensures replaces { result ≡ Opening.AtOnce → may_replace ≡ true }
    ensures all { result ≡ Opening.AtOnce → ReadsAll (D.files disk.now) dump.now paths.now.image.now }
{
    let Paths { image, out } = *paths;
    if !disk.may_be_one(image, out) {
        return Opening::Late;
    }
    if !may_replace {
        let _ = disk.eprintln(format_args!("{out}: it may be {image}, which is read"));
        return Opening::Never;
    }
    if reads_all(disk, dump, image) {
        return Opening::AtOnce;
    }
    let _ = disk.eprintln(format_args!("{out}: it may be {image}, of which only a part is read"));
    Opening::Never
}

//! How the bytes of a file are seen: which part of it, and whether that can be seen so.

ghost use Rattle.std.specs.Prelude.{◌≡◌, ◌<◌, Some};
ghost use Rattle.ubi_files.specs.Views.{misfit};
ghost use Rattle.ubi_files.specs.Lines.{misfit_text};

use std::fmt;

/// The part of a file that is an image.
#[derive(Clone, Copy)]
pub struct FilePart {
    /// The place of its first byte.
    pub start: u64,
    /// Its length in bytes; if this is left out, it ends with the file.
    pub length: Option<u64>,
}

/// The part that is the whole file.
pub const WHOLE_FILE: FilePart = FilePart {
    start: 0,
    length: None,
};

/// Why a file can't be read as the words say.
#[derive(Clone, Copy)]
pub enum Misfit {
    /// The part begins or ends beyond the end of the file, which has this many bytes.
    Part(u64),
    /// This many bytes of the part are left over after the last page that has its out-of-band bytes.
    Pages(u64),
}

impl fmt::Display for Misfit {
    ghost output = { λ misfit. Some (misfit_text misfit) };

    fn fmt<W: fmt::Write>(&self, f: &mut fmt::Formatter<W>) -> fmt::Result {
        match self {
            Misfit::Part(bytes) => write!(f, "F7 Part bytes={bytes}"),
            Misfit::Pages(rest) => write!(f, "F8 Pages rest={rest}"),
        }
    }
}

/// Why a file of `len` bytes can't be seen as its part with pages of `page` bytes, each followed by `oob` out-of-band bytes. `None`
/// if it can.
pub fn misfit_of(part: FilePart, page: u32, oob: u32, len: u64) -> Option<Misfit>
    requires { 0 < page }
    ensures { result ≡ misfit part page oob len }
{
    if len < part.start || len - part.start < part.length.unwrap_or(0) {
        return Some(Misfit::Part(len));
    }
    let rest = part.length.unwrap_or(len - part.start) % (u64::from(page) + u64::from(oob));
    if oob == 0 || rest == 0 {
        None
    } else {
        Some(Misfit::Pages(rest))
    }
}

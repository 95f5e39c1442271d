//! A dump, as it is read.

ghost use Rattle.std.specs.Prelude.{◌≡◌};
ghost use Rattle.ubi_files.specs.Dump.{greatest_dump};

use crate::numbers::{GREATEST, Numbers};
use crate::view::FilePart;

/// A dump, with what the words say of how it is read.
#[derive(Clone, Copy)]
pub struct Dump<'a> {
    /// The numbers of its geometry.
    pub numbers: Numbers,
    /// The part of the file that is the dump.
    pub part: FilePart,
    /// How many out-of-band bytes follow each page.
    pub oob: u32,
    /// The list of its bad eraseblocks, which read 0xFF; if it is left out, none is bad.
    pub bad: Option<&'a str>,
    /// Whether the eraseblocks of the file before the part count too, if it begins with one. They read 0xFF.
    pub counts_before: bool,
}

impl<'a> Dump<'a> {
    /// A part of a file of unknown geometry: no more of it is read than the greatest dump that there is has.
    pub fn greatest(part: FilePart) -> Dump<'a>
        ensures { result ≡ greatest_dump part }
    {
        Dump {
            numbers: GREATEST,
            part,
            oob: 0,
            bad: None,
            counts_before: false,
        }
    }
}

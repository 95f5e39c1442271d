//! Which dump commands are asked for, and the paths of what they read and write.

use ubi_files::{Dump, FilePart};

/// The paths of a command that reads one image, and writes a file or the files of a folder.
#[derive(Clone, Copy)]
pub struct Paths<'a> {
    /// The path of the image.
    pub image: &'a str,
    /// The path of the file or the folder that is written.
    pub out: &'a str,
}

/// A dump without a geometry in the words: it is read as its own headers show.
#[derive(Clone, Copy)]
pub struct Sought<'a> {
    /// The part of its file in which its headers are looked for.
    pub part: FilePart,
    /// The number of eraseblocks of the device; if it is left out, the most that there can be.
    pub pebs: Option<u32>,
    /// The list of its bad eraseblocks, which read 0xFF; if it is left out, none is bad.
    pub bad: Option<&'a str>,
}

/// How a dump is read.
#[derive(Clone, Copy)]
pub enum Asked<'a> {
    /// As the words say.
    Given(Dump<'a>),
    /// As its own headers show.
    Sought(Sought<'a>),
}

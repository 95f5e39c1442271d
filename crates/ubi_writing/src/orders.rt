//! What commands that write are asked for.

use crate::volume_key::VolumeKey;
use ubi_dumps::Paths;

/// A volume to take out of an image.
#[derive(Clone, Copy)]
pub struct Extract<'a> {
    /// The paths of the image and of the file that is written.
    pub paths: Paths<'a>,
    /// The volume.
    pub key: VolumeKey<'a>,
}

/// An image to make from a text, or from a config and the files that it names.
#[derive(Clone, Copy)]
pub struct NewImage<'a> {
    /// The path of the text or the config.
    pub from: &'a str,
    /// The path of the file that is written.
    pub out: &'a str,
    /// How many spare eraseblocks follow.
    pub spares: u32,
    /// The image sequence number.
    pub image_seq: u32,
}

/// What a plan does with its steps.
#[derive(Clone, Copy)]
pub struct Plan<'a> {
    /// The paths of the image and of the file that is written.
    pub paths: Paths<'a>,
    /// After how many steps the image is written; if it is left out, after all.
    pub stop: Option<u32>,
    /// Whether no Blank eraseblock is taken.
    pub keeps_blank: bool,
    /// The path of the file that the programmed pages are written to, if they are.
    pub pages: Option<&'a str>,
}

/// The change of a logical eraseblock.
#[derive(Clone, Copy)]
pub struct Change<'a> {
    /// The files and the steps.
    pub plan: Plan<'a>,
    /// The number of the volume.
    pub id: u32,
    /// The number of the logical eraseblock.
    pub lnum: u32,
    /// The path of the file that holds the new bytes.
    pub from: &'a str,
}

/// The rename of a volume.
#[derive(Clone, Copy)]
pub struct Rename<'a> {
    /// The files and the steps.
    pub plan: Plan<'a>,
    /// The number of the volume.
    pub id: u32,
    /// The new name, in the form in which names are printed.
    pub name: &'a str,
}

/// Edits of whole volumes, in one commit: words that begin with the name that the volume has in the image, in the form in which names are
/// printed, and the sections of a config. They are done in this order: names, sizes, removals, contents, sections.
#[derive(Clone, Copy)]
pub struct Update<'a> {
    /// The files and the steps.
    pub plan: Plan<'a>,
    /// Volumes that get other names: words `NAME=NEW`, where NEW is in the same form.
    pub names: &'a [&'a str],
    /// Volumes that get other sizes: words `NAME=SIZE`, where SIZE is the number of bytes that the volume has to hold.
    pub sizes: &'a [&'a str],
    /// The names of volumes that are removed.
    pub removals: &'a [&'a str],
    /// Volumes that get other contents: words `NAME=FILE`, where FILE is the path of the file that holds them.
    pub contents: &'a [&'a str],
    /// The path of a config whose volumes are written: each replaces the volume that has its name after the other edits, or is new.
    pub config: Option<&'a str>,
}

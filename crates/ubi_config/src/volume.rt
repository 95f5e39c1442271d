//! A volume for which a config is written.

ghost use Rattle.std.specs.Prelude.{◌≡◌};
ghost use Rattle.ubi_config.specs.Written.{has_words, is_growing, left_out_words};

use crate::text::Text;
use ubi_media::{VolKind, VolumeRecord};

/// A volume whose contents lie in a file.
#[derive(Debug, Drop, PartialEq)]
pub struct ConfigVolume {
    /// Its number.
    pub id: u32,
    /// Its record.
    pub entry: VolumeRecord,
    /// The path of the file; `None` if its contents can't be read.
    pub image: Option<Text>,
}

/// Why a volume is left out of a config. If several reasons apply, the first in this order.
#[derive(Clone, Copy, Debug, PartialEq, Eq)]
pub enum LeftOut {
    /// An update of it began and didn't end.
    Updating,
    /// Its contents can't be read.
    Damaged,
    /// Its name can't stand in quotes: it has both kinds of them, a zero byte or the end of a line, ends with a blank, or is
    /// too long.
    Name,
    /// The path of its file can't stand in quotes.
    Path,
    /// It has other flags than 01, or than 02 in a static volume.
    Flags,
    /// It grows to the size of the device, and so does another.
    Growing,
}

impl LeftOut {
    /// The words for the reason.
    pub fn words(self) -> &'static str
        ensures { result.now ≡ left_out_words self }
    {
        match self {
            LeftOut::Updating => "its update didn't end",
            LeftOut::Damaged => "it is damaged",
            LeftOut::Name => "its name can't stand in quotes",
            LeftOut::Path => "the path of its file can't stand in quotes",
            LeftOut::Flags => "no config can give its flags",
            LeftOut::Growing => "more than one volume has autoresize",
        }
    }
}

impl ConfigVolume {
    /// Whether it grows to the size of the device.
    pub(crate) fn is_growing(&self) -> bool
        ensures { result ≡ is_growing self.now }
    {
        self.entry.flags == 1
    }

    /// Whether a config can give it its flags.
    pub(crate) fn has_words(&self) -> bool
        ensures { result ≡ has_words self.now.entry.kind self.now.entry.flags }
    {
        let flags = self.entry.flags;
        flags <= 1 || (flags == 2 && self.entry.kind == VolKind::Static)
    }
}

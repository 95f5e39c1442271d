//! The keys of a section.

ghost use Rattle.std.specs.Prelude.{◌≡◌};
ghost use Rattle.std.specs.Str.{str_eq_ignore_ascii_case};
ghost use Rattle.ubi_config.specs.Above.{key_number};
ghost use Rattle.ubi_config.specs.Values.{key_name, key_of};

/// A key of a section.
#[derive(Clone, Copy, Debug, PartialEq, Eq)]
pub enum Key {
    /// What the section is: it has to be `ubi`, a volume.
    Mode,
    /// The path of the file that holds the volume's contents.
    Image,
    /// The number of the volume.
    Id,
    /// How many bytes are reserved for the volume.
    Size,
    /// Whether the volume is static or dynamic.
    Kind,
    /// The name of the volume.
    Name,
    /// Whether the volume grows to the size of the device, or its CRCs aren't checked.
    Flags,
    /// The alignment of the volume.
    Alignment,
}

/// The keys.
const KEYS: [Key; 8] = [
    Key::Mode,
    Key::Image,
    Key::Id,
    Key::Size,
    Key::Kind,
    Key::Name,
    Key::Flags,
    Key::Alignment,
];

impl Key {
    /// The name of the key, as it stands in a config.
    pub fn name(self) -> &'static str
        ensures { result.now ≡ key_name self }
    {
        match self {
            Key::Mode => "mode",
            Key::Image => "image",
            Key::Id => "vol_id",
            Key::Size => "vol_size",
            Key::Kind => "vol_type",
            Key::Name => "vol_name",
            Key::Flags => "vol_flags",
            Key::Alignment => "vol_alignment",
        }
    }

    /// The place of the key among the keys.
    pub(crate) fn number(self) -> u8
        ensures { result ≡ key_number self }
    {
        match self {
            Key::Mode => 0,
            Key::Image => 1,
            Key::Id => 2,
            Key::Size => 3,
            Key::Kind => 4,
            Key::Name => 5,
            Key::Flags => 6,
            Key::Alignment => 7,
        }
    }
}

/// Whether two words differ at most in the case of their letters.
pub(crate) fn is_same_word(word: &[u8], other: &[u8]) -> bool
    ensures { result ≡ str_eq_ignore_ascii_case word.now other.now }
{
    word.eq_ignore_ascii_case(other)
}

/// The key that a word names, its letters in either case.
#[tactic(auto, unfolding(crate::specs::Values::key_of))]
pub(crate) fn key_of(word: &[u8]) -> Option<Key>
    ensures { result ≡ key_of word.now }
{
    KEYS.iter()
        .copied()
        .find(|key| is_same_word(word, key.name().as_bytes()))
}

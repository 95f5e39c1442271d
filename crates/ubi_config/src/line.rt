//! A line of a config by itself.

ghost use Rattle.std.specs.List.{list_any};
ghost use Rattle.std.specs.Prelude.{◌≡◌, ◌==◌, ◌<◌, IfOk, MatchResult, Ok, length, option_map, position};
ghost use Rattle.ubi_config.specs.Above.{gives_id, gives_name, is_autoresize, is_heading, is_setting, is_titled, key_in, sets};
ghost use Rattle.ubi_config.specs.inner.Reading.{IsRefused};
ghost use Rattle.ubi_config.specs.Lines.{flag_of, heading_line, is_one_line, is_special, is_title, kind_named, line_of, line_said, setting, setting_at, setting_line, title_of};

use crate::errors::{ConfigCause, LineError};
use crate::key::{Key, is_same_word, key_of};
use crate::text::Text;
use crate::value::{is_remark, value_of};
use crate::words::{ends_with_byte, size_of, trimmed};
use std::alloc::{AllocError, Global};
use ubi_media::{VolKind, VolName};
use ubi_words::number_of;

/// What a line says.
#[derive(Drop)]
pub(crate) enum Line {
    /// A section of this name begins. It comes with the line's number.
    Heading(u32, Text),
    /// The section is a volume.
    Mode,
    /// The path of the file that holds its contents.
    Image(Text),
    /// Its number.
    Id(u32),
    /// How many bytes are reserved for it.
    Size(u64),
    /// Its kind.
    Kind(VolKind),
    /// Its name.
    Name(VolName),
    /// It grows to the size of the device.
    Autoresize,
    /// Its CRCs aren't checked when it's opened.
    SkipCheck,
    /// Its alignment.
    Alignment(u32),
}

impl Line {
    /// The key that the line sets. `None` if it begins a section.
    pub(crate) fn key(&self) -> Option<Key>
        ensures { result ≡ key_in self.now }
    {
        match self {
            Line::Heading(_, _) => None,
            Line::Mode => Some(Key::Mode),
            Line::Image(_) => Some(Key::Image),
            Line::Id(_) => Some(Key::Id),
            Line::Size(_) => Some(Key::Size),
            Line::Kind(_) => Some(Key::Kind),
            Line::Name(_) => Some(Key::Name),
            Line::Autoresize | Line::SkipCheck => Some(Key::Flags),
            Line::Alignment(_) => Some(Key::Alignment),
        }
    }

    /// Whether the line sets a key.
    pub(crate) fn is_setting(&self) -> bool
        ensures { result ≡ is_setting self.now }
    {
        self.key().is_some()
    }

    /// Whether the line begins a section.
    pub(crate) fn is_heading(&self) -> bool
        ensures { result ≡ is_heading self.now }
    {
        !self.is_setting()
    }

    /// Whether the line sets this key.
    pub(crate) fn sets(&self, key: Key) -> bool
        ensures { result ≡ sets key self.now }
    {
        match self.key() {
            Some(other) => other.number() == key.number(),
            None => false,
        }
    }

    /// Whether the line begins the section of a name.
    pub(crate) fn is_titled(&self, name: &[u8]) -> bool
        ensures { result ≡ is_titled name.now self.now }
    {
        match self {
            Line::Heading(_, other) => is_same_word(other.as_bytes(), name),
            _ => false,
        }
    }

    /// Whether the line gives this number of a volume.
    pub(crate) fn gives_id(&self, id: u32) -> bool
        ensures { result ≡ gives_id id self.now }
    {
        match self {
            Line::Id(other) => *other == id,
            _ => false,
        }
    }

    /// Whether the line gives this name of a volume.
    pub(crate) fn gives_name(&self, name: &[u8]) -> bool
        ensures { result ≡ gives_name name.now self.now }
    {
        match self {
            Line::Name(other) => other.as_bytes() == name,
            _ => false,
        }
    }

    /// Whether the line lets its volume grow.
    pub(crate) fn is_autoresize(&self) -> bool
        ensures { result ≡ is_autoresize self.now }
    {
        match self {
            Line::Autoresize => true,
            _ => false,
        }
    }
}

/// The length of the longest line that ubinize doesn't cut in two, in bytes.
const LONGEST_LINE: usize = 1022;

/// The length of the longest name of a section in bytes.
const LONGEST_TITLE: usize = 128;

/// The kind of a volume that a value names.
#[tactic(auto, unfolding(crate::specs::Lines::kind_named))]
fn kind_of(value: &[u8]) -> Option<VolKind>
    ensures { result ≡ kind_named value.now }
{
    if value == b"dynamic".as_slice() {
        return Some(VolKind::Dynamic);
    }
    if value == b"static".as_slice() {
        return Some(VolKind::Static);
    }
    None
}

/// What a value of `vol_flags` says about its volume.
#[tactic(auto, unfolding(crate::specs::Lines::flag_of))]
fn flag_of(value: &[u8]) -> Option<Line>
    ensures { result ≡ flag_of value.now }
{
    if value == b"autoresize".as_slice() {
        return Some(Line::Autoresize);
    }
    if value == b"skip-check".as_slice() {
        return Some(Line::SkipCheck);
    }
    None
}

/// What a key with a value says. `None` if the key doesn't take the value.
#[tactic(auto, unfolding(crate::specs::Lines::setting))]
fn setting(alloc: Global, key: Key, value: &[u8]) -> Result<Option<Line>, AllocError>
    ensures { IfOk result (λ said. said ≡ setting key value.now) }
{
    let said = match key {
        Key::Mode if value == b"ubi".as_slice() => Some(Line::Mode),
        Key::Mode => None,
        Key::Image => Some(Line::Image(Text::new(alloc, value)?)),
        Key::Id => number_of(value).map(Line::Id),
        Key::Size => size_of(value).map(Line::Size),
        Key::Kind => kind_of(value).map(Line::Kind),
        Key::Name => VolName::new(value).map(Line::Name),
        Key::Flags => flag_of(value),
        Key::Alignment => number_of(value).map(Line::Alignment),
    };
    Ok(said)
}

/// What a line whose `=` stands at a place says.
#[tactic(auto, unfolding(crate::specs::Lines::setting_at))]
fn setting_at(alloc: Global, text: &[u8], place: usize) -> Result<Line, LineError>
    requires { place < length text.now }
    ensures { let said = setting_at text.now place in MatchResult result (λ l. said ≡ Ok l) (IsRefused said) }
{
    let key = key_of(trimmed(&text[..place])).ok_or(ConfigCause::Key)?;
    let value = value_of(trimmed(&text[place + 1..])).ok_or(ConfigCause::Value)?;
    Ok(setting(alloc, key, value)?.ok_or(ConfigCause::Unfit)?)
}

/// Where the first `=` stands.
fn equals_sign(text: &[u8]) -> Option<usize>
    ensures { result ≡ position (λ b. b == 61) text.now }
{
    text.iter().position(|byte| *byte == b'=')
}

/// What a line that isn't a heading says.
#[tactic(auto, unfolding(crate::specs::Lines::setting_line))]
fn setting_line(alloc: Global, text: &[u8]) -> Result<Line, LineError>
    ensures { let said = setting_line text.now in MatchResult result (λ l. said ≡ Ok l) (IsRefused said) }
{
    match equals_sign(text) {
        Some(place) => setting_at(alloc, text, place),
        None => Err(LineError::Cause(ConfigCause::Form)),
    }
}

/// Whether a byte means more to ubinize in a section's name: `]` and `:`.
fn is_special(byte: u8) -> bool
    ensures { result ≡ is_special byte }
{
    byte == b']' || byte == b':'
}

/// Whether one of the bytes means more to ubinize in a section's name.
fn has_special(name: &[u8]) -> bool
    ensures { result ≡ list_any is_special name.now }
{
    name.iter().any(|byte| is_special(*byte))
}

/// Whether bytes may be a section's name: there are some, but not too many, and none of them is special.
fn is_title(name: &[u8]) -> bool
    ensures { result ≡ is_title name.now }
{
    !name.is_empty() && name.len() <= LONGEST_TITLE && !has_special(name)
}

/// The name of the section that begins with the line. `None` if it isn't `[NAME]`.
#[tactic(auto, unfolding(crate::specs::Lines::title_of))]
fn title_of(text: &[u8]) -> Option<&[u8]>
    ensures { option_map (λ n. n.now) result ≡ title_of text.now }
{
    if text.len() < 2 || !ends_with_byte(b']', text) {
        return None;
    }
    let name = trimmed(&text[1..text.len() - 1]);
    if is_title(name) { Some(name) } else { None }
}

/// What a line that begins with `[` says.
#[tactic(auto, unfolding(crate::specs::Lines::heading_line))]
fn heading_line(alloc: Global, number: u32, text: &[u8]) -> Result<Line, LineError>
    ensures { let said = heading_line number text.now in MatchResult result (λ l. said ≡ Ok l) (IsRefused said) }
{
    match title_of(text) {
        Some(name) => Ok(Line::Heading(number, Text::new(alloc, name)?)),
        None => Err(LineError::Cause(ConfigCause::Form)),
    }
}

/// What a line that is trimmed and isn't skipped says.
#[tactic(auto, unfolding(crate::specs::Lines::line_said))]
fn line_said(alloc: Global, number: u32, text: &[u8]) -> Result<Line, LineError>
    ensures { let said = line_said number text.now in MatchResult result (λ l. said ≡ Ok l) (IsRefused said) }
{
    if !text.is_empty() && text[0] == b'[' {
        heading_line(alloc, number, text)
    } else {
        setting_line(alloc, text)
    }
}

/// Whether one of the bytes is zero.
fn has_zero(text: &[u8]) -> bool
    ensures { result ≡ list_any (λ b. b == 0) text.now }
{
    text.contains(&0)
}

/// Whether a line is one line to every reader: it isn't too long, has no zero byte, and doesn't end with a backslash.
#[tactic(auto, unfolding(crate::specs::Lines::is_one_line))]
fn is_one_line(text: &[u8]) -> bool
    ensures { result ≡ is_one_line text.now }
{
    text.len() <= LONGEST_LINE && !has_zero(text) && !ends_with_byte(b'\\', trimmed(text))
}

/// What the line with a number says by itself. `None` if it's skipped.
#[tactic(auto, unfolding(crate::specs::Lines::line_of))]
pub(crate) fn line_of(alloc: Global, number: u32, text: &[u8]) -> Result<Option<Line>, LineError>
    ensures { let said = line_of number text.now in MatchResult result (λ l. said ≡ Ok l) (IsRefused said) }
{
    if !is_one_line(text) {
        return Err(LineError::Cause(ConfigCause::Line));
    }
    let text = trimmed(text);
    if is_remark(text) {
        return Ok(None);
    }
    let line = line_said(alloc, number, text)?;
    Ok(Some(line))
}

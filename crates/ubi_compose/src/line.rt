//! A line of the composer's text by itself, and its words.

ghost use Rattle.std.specs.List.{list_all, list_any};
ghost use Rattle.std.specs.Prelude.{◌≡◌, ◌==◌, IfOk, MatchResult, Ok, length, map, take};
ghost use Rattle.ubi_compose.specs.inner.Drafts.{IsLineError};
ghost use Rattle.ubi_compose.specs.Lines.{first_word, line_form, is_form, is_spelled, leb_line, line_of, number_word, said, text_line, line_of_volume, volume_of, word_count, words};
ghost use Rattle.ubi_compose.specs.Words.{escaped_byte, flags_of, hex_of, is_between, kind_named};

use crate::errors::{LineError, SpecCause};
use crate::shown::shown_name;
use hex::FromHexError;
use std::alloc::{AllocError, Global};
use ubi_media::{VolKind, VolumeRecord};
use ubi_volume::Bytes;
use ubi_words::number_of;

/// The five forms of a line.
#[derive(Clone, Copy)]
pub(crate) enum Form {
    Volume,
    Leb,
    Text,
    Damaged,
    Updating,
}

/// How many words the form with the most words has.
const MOST_WORDS: usize = 7;

/// The forms.
const FORMS: [Form; 5] = [
    Form::Volume,
    Form::Leb,
    Form::Text,
    Form::Damaged,
    Form::Updating,
];

impl Form {
    /// The first word of a line of this form.
    fn first_word(self) -> &'static [u8]
        ensures { result.now ≡ first_word self }
    {
        match self {
            Form::Volume => b"volume",
            Form::Leb => b"leb",
            Form::Text => b"bytes",
            Form::Damaged => b"damaged",
            Form::Updating => b"updating",
        }
    }

    /// How many words a line of this form has, at most [`MOST_WORDS`].
    fn word_count(self) -> usize
        ensures { result ≡ word_count self }
    {
        match self {
            Form::Volume => 7,
            Form::Leb => 4,
            Form::Text => 3,
            Form::Damaged | Form::Updating => 2,
        }
    }
}

/// What a line says about a volume; it begins with the volume's number.
#[derive(Drop)]
pub(crate) enum Line {
    /// Its record.
    Volume(u32, VolumeRecord),
    /// The first bytes of a logical eraseblock.
    Leb(u32, u32, Bytes),
    /// More bytes of its contents.
    Text(u32, Bytes),
    /// It isn't whole.
    Damaged(u32),
    /// An update of it began and didn't end.
    Updating(u32),
}

impl Line {
    /// The number of its volume.
    pub(crate) fn volume(&self) -> u32
        ensures { result ≡ volume_of self.now }
    {
        match self {
            Line::Volume(id, _)
            | Line::Leb(id, _, _)
            | Line::Text(id, _)
            | Line::Damaged(id)
            | Line::Updating(id) => *id,
        }
    }
}

/// The number of a word.
fn number(word: &[u8]) -> Result<u32, SpecCause>
    ensures { result ≡ number_word word.now }
{
    number_of(word).ok_or(SpecCause::Number)
}

/// What a line with a record says.
#[tactic(auto, unfolding(crate::specs::Lines::line_of_volume))]
fn volume_line(
    id: &[u8],
    kind: &[u8],
    reserved: &[u8],
    alignment: &[u8],
    flags: &[u8],
    name: &[u8],
) -> Result<Line, SpecCause>
    ensures { result ≡ line_of_volume id.now kind.now reserved.now alignment.now flags.now name.now }
{
    let kind = kind_of(kind).ok_or(SpecCause::Word)?;
    let id = number(id)?;
    let reserved = number(reserved)?;
    let alignment = number(alignment)?;
    let flags = flags_of(flags).ok_or(SpecCause::Hex)?;
    let name = shown_name(name).ok_or(SpecCause::Name)?;
    Ok(Line::Volume(
        id,
        VolumeRecord {
            reserved,
            alignment,
            kind,
            marker: false,
            name,
            flags,
        },
    ))
}

/// What a line with the bytes of a logical eraseblock says.
#[tactic(auto, unfolding(crate::specs::Lines::leb_line))]
fn leb_line(alloc: Global, id: &[u8], lnum: &[u8], bytes: &[u8]) -> Result<Line, LineError>
    ensures { let said = leb_line id.now lnum.now bytes.now in MatchResult result (λ l. said ≡ Ok l) (IsLineError said) }
{
    let id = number(id)?;
    let lnum = number(lnum)?;
    let bytes = hex_of(alloc, bytes)?.ok_or(SpecCause::Hex)?;
    Ok(Line::Leb(id, lnum, bytes))
}

/// What a line with more bytes of a static volume says.
#[tactic(auto, unfolding(crate::specs::Lines::text_line))]
fn text_line(alloc: Global, id: &[u8], bytes: &[u8]) -> Result<Line, LineError>
    ensures { let said = text_line id.now bytes.now in MatchResult result (λ l. said ≡ Ok l) (IsLineError said) }
{
    let id = number(id)?;
    let bytes = hex_of(alloc, bytes)?.ok_or(SpecCause::Hex)?;
    Ok(Line::Text(id, bytes))
}

/// What a line of a form says. The number of words is the form's.
#[tactic(auto, unfolding(crate::specs::Lines::damaged_line, crate::specs::Lines::updating_line))]
fn said(alloc: Global, words: &[&[u8]], form: Form) -> Result<Line, LineError>
    requires { length words.now ≡ word_count form }
    ensures { let said = said (map (λ w. w.now) words.now) form in MatchResult result (λ l. said ≡ Ok l) (IsLineError said) }
{
    match form {
        Form::Volume => Ok(volume_line(
            words[1], words[2], words[3], words[4], words[5], words[6],
        )?),
        Form::Leb => leb_line(alloc, words[1], words[2], words[3]),
        Form::Text => text_line(alloc, words[1], words[2]),
        Form::Damaged => Ok(Line::Damaged(number(words[1])?)),
        Form::Updating => Ok(Line::Updating(number(words[1])?)),
    }
}

/// The words of a line, or only the first ones if there are more than any form has: there may be very many.
fn words_of(alloc: Global, text: &[u8]) -> Result<Vec<&[u8]>, AllocError>
    ensures { IfOk result (λ found. map (λ w. w.now) found.items ≡ take 8 (words text.now)) }
{
    let mut words = Vec::with_capacity(alloc, MOST_WORDS + 1)?;
    for word in text.split(|byte| *byte == b' ').take(MOST_WORDS + 1) {
        words.push(word)?;
    }
    Ok(words)
}

/// Whether two spaces of a line stand side by side, or one at its end.
fn has_empty_word(text: &[u8]) -> bool
    ensures { result ≡ list_any (λ w. length w == 0) (words text.now) }
{
    text.split(|byte| *byte == b' ').any(|word| word.is_empty())
}

/// Whether a line has no byte outside 0x20 to 0x7E.
fn are_printed(text: &[u8]) -> bool
    ensures { result ≡ list_all (is_between 0x20 0x7E) text.now }
{
    text.iter().all(|byte| *byte >= 0x20 && *byte <= 0x7E)
}

/// Whether a line has no byte outside 0x20 to 0x7E, and no empty word.
fn is_spelled(text: &[u8]) -> bool
    ensures { result ≡ is_spelled text.now }
{
    are_printed(text) && !has_empty_word(text)
}

/// Whether the first word and the number of words are those of a form.
fn is_form(words: &[&[u8]], form: Form) -> bool
    ensures { result ≡ is_form (map (λ w. w.now) words.now) form }
{
    words.len() == form.word_count() && words[0] == form.first_word()
}

/// The form whose first word and number of words these are.
#[tactic(auto, unfolding(crate::specs::Lines::line_form))]
fn form_of(words: &[&[u8]]) -> Option<Form>
    ensures { result ≡ line_form (map (λ w. w.now) words.now) }
{
    FORMS.iter().copied().find(|form| is_form(words, *form))
}

/// What a line that isn't skipped says by itself.
#[tactic(auto, unfolding(crate::specs::Lines::line_of))]
pub(crate) fn line_of(alloc: Global, text: &[u8]) -> Result<Line, LineError>
    ensures { MatchResult result (λ l. line_of text.now ≡ Ok l) (IsLineError (line_of text.now)) }
{
    if !is_spelled(text) {
        return Err(LineError::Cause(SpecCause::Word));
    }
    let words = words_of(alloc, text)?;
    match form_of(words.as_slice()) {
        Some(form) => said(alloc, words.as_slice(), form),
        None => Err(LineError::Cause(SpecCause::Word)),
    }
}

/// The bytes that a word gives as pairs of hexadecimal digits of either case. `None` if it doesn't, or has none.
#[tactic(auto, unfolding(crate::specs::Words::hex_of))]
pub fn hex_of(alloc: Global, word: &[u8]) -> Result<Option<Bytes>, AllocError>
    ensures { IfOk result (λ found. found ≡ hex_of word.now) }
{
    if word.is_empty() {
        return Ok(None);
    }
    match hex::decode(alloc, word) {
        Ok(bytes) => Ok(Some(Bytes::new(bytes))),
        Err(FromHexError::OutOfMemory) => Err(AllocError),
        Err(_) => Ok(None),
    }
}

/// The byte that two hexadecimal digits stand for.
pub fn byte_of(high: u8, low: u8) -> Option<u8>
    ensures { result ≡ escaped_byte high low }
{
    let mut byte = [0u8; 1];
    match hex::decode_to_slice(&[high, low], &mut byte) {
        Ok(()) => Some(byte[0]),
        Err(_) => None,
    }
}

/// The byte that a word of exactly two hexadecimal digits stands for.
pub fn flags_of(word: &[u8]) -> Option<u8>
    ensures { result ≡ flags_of word.now }
{
    if word.len() != 2 {
        return None;
    }
    byte_of(word[0], word[1])
}

/// The kind that a word names.
#[tactic(auto, unfolding(crate::specs::Words::kind_named))]
pub fn kind_of(word: &[u8]) -> Option<VolKind>
    ensures { result ≡ kind_named word.now }
{
    if word == b"dynamic".as_slice() {
        return Some(VolKind::Dynamic);
    }
    if word == b"static".as_slice() {
        return Some(VolKind::Static);
    }
    None
}

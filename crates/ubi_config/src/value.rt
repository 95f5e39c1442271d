//! The value of a line.

ghost use Rattle.std.specs.List.{before_first};
ghost use Rattle.std.specs.Prelude.{◌≡◌, ◌==◌, ◌<◌, length, option_map, position};
ghost use Rattle.ubi_config.specs.Values.{is_mark, is_quotable, is_quote, is_remark, plain_value, quoted_value, value_before, value_of};

use crate::words::{is_blank, trimmed};

/// Whether a byte begins a remark.
fn is_mark(byte: u8) -> bool
    ensures { result ≡ is_mark byte }
{
    byte == b'#' || byte == b';'
}

/// Whether a text is empty, or a remark.
pub(crate) fn is_remark(text: &[u8]) -> bool
    ensures { result ≡ is_remark text.now }
{
    text.is_empty() || is_mark(text[0])
}

/// Where a remark begins.
fn mark_place(text: &[u8]) -> Option<usize>
    ensures { result ≡ position is_mark text.now }
{
    text.iter().position(|byte| is_mark(*byte))
}

/// What stands before a remark.
#[tactic(auto, using(crate::proofs::FirstPlace::first_or_end))]
fn before_remark(text: &[u8]) -> &[u8]
    ensures { result.now ≡ before_first is_mark text.now }
{
    &text[..mark_place(text).unwrap_or(text.len())]
}

/// Where a quote stands first.
fn place_of(quote: u8, text: &[u8]) -> Option<usize>
    ensures { result ≡ position (λ b. b == quote) text.now }
{
    text.iter().position(|byte| *byte == quote)
}

/// A value without quotes: it ends where a remark begins. `None` if it's empty.
#[tactic(auto, unfolding(crate::specs::Values::plain_value))]
fn plain_value(text: &[u8]) -> Option<&[u8]>
    ensures { option_map (λ v. v.now) result ≡ plain_value text.now }
{
    let value = trimmed(before_remark(text));
    if value.is_empty() { None } else { Some(value) }
}

/// Whether bytes may stand in quotes: there are some, and the last isn't a blank.
pub(crate) fn is_quotable(bytes: &[u8]) -> bool
    ensures { result ≡ is_quotable bytes.now }
{
    !bytes.is_empty() && !is_blank(bytes[bytes.len() - 1])
}

/// A value that a quote at a place ends. `None` if it may not stand in quotes, or if more than a remark stands
/// after the quote.
fn value_before(text: &[u8], place: usize) -> Option<&[u8]>
    requires { place < length text.now }
    ensures { option_map (λ v. v.now) result ≡ value_before text.now place }
{
    let value = &text[..place];
    if is_quotable(value) && is_remark(trimmed(&text[place + 1..])) {
        Some(value)
    } else {
        None
    }
}

/// A value in quotes, from after the first of them on.
#[tactic(auto, unfolding(crate::specs::Values::quoted_value))]
fn quoted_value(quote: u8, text: &[u8]) -> Option<&[u8]>
    ensures { option_map (λ v. v.now) result ≡ quoted_value quote text.now }
{
    match place_of(quote, text) {
        Some(place) => value_before(text, place),
        None => None,
    }
}

/// Whether a byte is a quote.
fn is_quote(byte: u8) -> bool
    ensures { result ≡ is_quote byte }
{
    byte == b'"' || byte == b'\''
}

/// The value after `=`, without quotes and remark. `None` if it's empty, or its quotes aren't right.
#[tactic(auto, unfolding(crate::specs::Values::value_of))]
pub(crate) fn value_of(text: &[u8]) -> Option<&[u8]>
    ensures { option_map (λ v. v.now) result ≡ value_of text.now }
{
    if !text.is_empty() && is_quote(text[0]) {
        quoted_value(text[0], &text[1..])
    } else {
        plain_value(text)
    }
}

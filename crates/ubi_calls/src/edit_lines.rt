//! The edits of whole volumes that the lines of a text ask for.

ghost use Rattle.std.specs.Prelude.{◌≡◌, ◌≢◌, ◌++◌, ◌<◌, ◌≤◌, ◌^◌, IfErr, IfOk, IfSome, List, MatchOption, OnOk, [], ◌∷◌, ℕ};
ghost use Rattle.ubi_calls.specs.EditLines.{AreAsksOf, AsksFor, has_value, length_in, taken_by};
ghost use Rattle.ubi_calls.specs.inner.EditLines.{IsNoEdits};
ghost use Rattle.ubi_writing.specs.declared.asks.Ask.{Ask};
ghost use Rattle.ubi_calls.specs.declared.edit_lines.NoEdits.{NoEdits};

use std::alloc::{AllocError, Global};
use std::str;
use ubi_words::{cut, decimal_within};
use ubi_writing::{Ask, parts_of};

/// What stands in a line behind its first word, if it begins with that.
fn word_after<'a>(line: &'a str, first: &str) -> Option<&'a str>
    ensures { MatchOption result ((word : List ℕ) → line.now ≢ first.now ++ word) (λ word. line.now ≡ first.now ++ word.now) }
{
    line.strip_prefix(first)
}

/// Whether a word has a value, which stands behind its first `=`.
fn has_value(word: &str) -> bool
    ensures { result ≡ has_value word.now }
{
    word.as_bytes().contains(&b'=')
}

/// The number of bytes that the value of a word gives in decimal digits, at most `largest`.
fn length_in(largest: u64, word: &str) -> Option<u64>
    ensures { result ≡ length_in largest word.now }
{
    let digits = parts_of(word).1.as_bytes();
    if digits.is_empty() {
        return None;
    }
    decimal_within(largest, digits)
}

/// The edit that a line asks for. Of contents with this size the first bytes are taken, up to a place.
fn ask_in<'a>(size: u64, at: u64, line: &'a [u8]) -> Option<Ask<'a>>
    requires { at ≤ size }
    ensures edit { MatchOption result ((a : Ask) → AsksFor size at line.now a → ⊥) (AsksFor size at line.now) }
    ensures within { IfSome result (λ a. taken_by at a ≤ size) }
{
    let Ok(line) = str::from_utf8(line) else {
        return None;
    };
    if let Some(word) = word_after(line, "rename ") {
        return if has_value(word) {
            Some(Ask::Rename(word))
        } else {
            None
        };
    }
    if let Some(word) = word_after(line, "resize ") {
        return if has_value(word) {
            Some(Ask::Resize(word))
        } else {
            None
        };
    }
    if let Some(word) = word_after(line, "remove ") {
        return Some(Ask::Remove(word));
    }
    let word = word_after(line, "write ")?;
    let len = length_in(size - at, word)?;
    Some(Ask::Contents(word, at, len))
}

/// Up to which place contents are taken after an edit.
fn taken_by(at: u64, ask: &Ask<'_>) -> u64
    requires { taken_by at ask.now < 2 ^ 64 }
    ensures { result ≡ taken_by at ask.now }
{
    match ask {
        Ask::Contents(_, _, len) => at + len,
        Ask::Rename(_) | Ask::Resize(_) | Ask::Remove(_) => at,
    }
}

/// Adds an edit.
fn put_ask<'a>(asks: &mut Vec<Ask<'a>>, ask: Ask<'a>) -> Result<(), AllocError>
    ensures { OnOk result (asks.new.items ≡ asks.old.items ++ (ask.entry ∷ [])) }
{
    asks.push(ask)?;
    Ok(())
}

/// Why a text asks for no edits.
#[derive(Clone, Copy)]
pub enum NoEdits {
    /// This line is wrong, counted from 1.
    Line(u64),
    /// Memory ran out.
    Memory,
}

impl From<AllocError> for NoEdits {
    ghost from_gives = { λ _ e. e ≡ NoEdits.Memory };

    fn from(_: AllocError) -> NoEdits {
        NoEdits::Memory
    }
}

/// The edits that the lines of a text ask for, in order. Those that write a volume take contents of this size, one after the other.
///
/// # Errors
///
/// The first line that asks for no edit, or the one after the last if contents are left; or memory ran out.
pub fn asks_in<'a>(alloc: Global, text: &'a [u8], size: u64) -> Result<Vec<Ask<'a>>, NoEdits>
    ensures asks { IfOk result (λ asks. AreAsksOf text.now size asks.items) }
    ensures refused { IfErr result (IsNoEdits text.now size) }
{
    let mut asks = Vec::new(alloc);
    let mut at = 0;
    let mut rest = text;
    while !rest.is_empty() {
        let (line, after) = cut(rest, b'\n');
        let Some(ask) = ask_in(size, at, line) else {
            return Err(NoEdits::Line(asks.len() as u64 + 1));
        };
        at = taken_by(at, &ask);
        put_ask(&mut asks, ask)?;
        rest = after.unwrap_or(&[]);
    }
    if at < size {
        return Err(NoEdits::Line(asks.len() as u64 + 1));
    }
    Ok(asks)
}

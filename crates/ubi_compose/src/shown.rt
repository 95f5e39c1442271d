//! The shown form of a name.

ghost use Rattle.std.specs.List.{list_all};
ghost use Rattle.std.specs.Prelude.{◌≡◌, ◌++◌, ◌&&◌, true, length, nat_le, option_and_then};
ghost use Rattle.ubi_compose.specs.Words.{escaped, is_escape, is_plain, shown_name, some_name};

use crate::line::byte_of;
use arrayvec::ArrayVec;
use ubi_media::{LONGEST_NAME, VolName};
use ubi_words::cut;

/// Whether each byte is shown as it is.
fn are_plain(bytes: &[u8]) -> bool
    ensures { result ≡ list_all is_plain bytes.now }
{
    bytes
        .iter()
        .all(|byte| *byte >= 0x21 && *byte <= 0x7E && *byte != b'\\')
}

/// Adds the bytes that are shown from a backslash up to the next; `part` is what follows it. False if it isn't a
/// shown form, or if there are now more bytes than a name has.
fn put_escape(name: &mut ArrayVec<u8, LONGEST_NAME>, part: &[u8]) -> bool
    ensures fits { result ≡ (is_escape part.now && nat_le (length (name.old.items ++ escaped part.now)) 127) }
    ensures added { result ≡ true → name.new.items ≡ name.old.items ++ escaped part.now }
{
    if part.len() < 3 || part[0] != b'x' || !are_plain(&part[3..]) {
        return false;
    }
    match byte_of(part[1], part[2]) {
        Some(byte) => {
            name.try_push(byte).is_ok() && name.try_extend_from_slice(&part[3..]).is_ok()
        }
        None => false,
    }
}

/// The bytes that a word shows. `None` if it isn't a shown form, or shows more bytes than a name has.
#[tactic(auto, unfolding(crate::specs::Words::shown_name, crate::specs::Words::shown_bytes))]
fn shown_bytes(word: &[u8]) -> Option<ArrayVec<u8, LONGEST_NAME>>
    ensures { shown_name word.now ≡ option_and_then (λ bytes. some_name bytes.items) result }
{
    let (first, mut rest) = cut(word, b'\\');
    let mut name = ArrayVec::new();
    if !are_plain(first) || name.try_extend_from_slice(first).is_err() {
        return None;
    }
    while let Some(text) = rest {
        let (part, after) = cut(text, b'\\');
        if !put_escape(&mut name, part) {
            return None;
        }
        rest = after;
    }
    Some(name)
}

/// The name that a word shows. `None` if the word isn't the shown form of 1 to 127 bytes without zero. It
/// allocates no memory.
///
/// Bytes 0x21 to 0x7E except the backslash are shown as they are, and any byte as `\x` and two hexadecimal digits
/// of either case.
pub fn shown_name(word: &[u8]) -> Option<VolName>
    ensures { result ≡ shown_name word.now }
{
    VolName::new(shown_bytes(word)?.as_slice())
}

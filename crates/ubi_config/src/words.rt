//! The words of a config: blanks, numbers, and sizes with a unit.

ghost use Rattle.std.specs.List.{position_or_len};
ghost use Rattle.std.specs.Prelude.{◌≡◌, ◌≤◌, length, position};
ghost use Rattle.ubi_config.specs.Words.{ends_with_byte, is_space, is_no_digit, is_no_gap, is_visible, size_in, size_of, trimmed, trimmed_end, trimmed_start, unit_named, unit_of};

use ubi_words::number_within;

/// How many bytes a volume may have at most.
const MOST_BYTES: u64 = 0x7FFF_FFFF_FFFF_FFFF;

/// Whether a byte is a blank: a space, or a byte from 0x09 to 0x0D.
pub(crate) fn is_blank(byte: u8) -> bool
    ensures { result ≡ is_space byte }
{
    byte == b' ' || (byte >= 0x09 && byte <= 0x0D)
}

/// Where the first byte stands that isn't a blank.
fn visible_place(bytes: &[u8]) -> Option<usize>
    ensures { result ≡ position is_visible bytes.now }
{
    bytes.iter().position(|byte| !is_blank(*byte))
}

/// How many blanks stand before the first byte that isn't one.
#[tactic(auto, using(crate::proofs::FirstPlace::first_or_end))]
fn blanks_before(bytes: &[u8]) -> usize
    ensures value { result ≡ position_or_len is_visible bytes.now }
    ensures within { result ≤ length bytes.now }
{
    visible_place(bytes).unwrap_or(bytes.len())
}

/// Bytes without the blanks before them.
fn trimmed_start(bytes: &[u8]) -> &[u8]
    ensures { result.now ≡ trimmed_start bytes.now }
{
    &bytes[blanks_before(bytes)..]
}

/// Bytes without the blanks after them.
fn trimmed_end(bytes: &[u8]) -> &[u8]
    ensures { result.now ≡ trimmed_end bytes.now }
{
    let mut end = bytes.len();
    while end > 0 && is_blank(bytes[end - 1]) {
        end -= 1;
    }
    &bytes[..end]
}

/// Bytes without the blanks at both ends.
#[tactic(auto, unfolding(crate::specs::Words::trimmed))]
pub(crate) fn trimmed(bytes: &[u8]) -> &[u8]
    ensures { result.now ≡ trimmed bytes.now }
{
    trimmed_end(trimmed_start(bytes))
}

/// Whether bytes end with a byte.
pub(crate) fn ends_with_byte(byte: u8, bytes: &[u8]) -> bool
    ensures { result ≡ ends_with_byte byte bytes.now }
{
    !bytes.is_empty() && bytes[bytes.len() - 1] == byte
}

/// Where the first byte stands that is neither a space nor a tab.
fn unit_place(rest: &[u8]) -> Option<usize>
    ensures { result ≡ position is_no_gap rest.now }
{
    rest.iter().position(|byte| *byte != b' ' && *byte != b'\t')
}

/// How many spaces and tabs stand before a unit.
#[tactic(auto, using(crate::proofs::FirstPlace::first_or_end))]
fn gap_before(rest: &[u8]) -> usize
    ensures value { result ≡ position_or_len is_no_gap rest.now }
    ensures within { result ≤ length rest.now }
{
    unit_place(rest).unwrap_or(rest.len())
}

/// How many bytes a unit is: `KiB`, `MiB` or `GiB`. `None` if it is none of these.
#[tactic(auto, unfolding(crate::specs::Words::unit_named))]
pub fn unit_named(name: &[u8]) -> Option<u64>
    ensures { result ≡ unit_named name.now }
{
    if name == b"KiB".as_slice() {
        return Some(1024);
    }
    if name == b"MiB".as_slice() {
        return Some(1_048_576);
    }
    if name == b"GiB".as_slice() {
        return Some(1_073_741_824);
    }
    None
}

/// How many bytes the unit after a number is: one, if there is no unit.
#[tactic(auto, unfolding(crate::specs::Words::unit_of))]
fn unit_of(rest: &[u8]) -> Option<u64>
    ensures { result ≡ unit_of rest.now }
{
    if rest.is_empty() {
        return Some(1);
    }
    unit_named(&rest[gap_before(rest)..])
}

/// A number of units in bytes. `None` if that is 0, or more than a volume may have.
fn size_in(unit: u64, number: u64) -> Option<u64>
    ensures { result ≡ size_in unit number }
{
    let bytes = u128::from(number) * u128::from(unit);
    if bytes == 0 || bytes > u128::from(MOST_BYTES) {
        return None;
    }
    Some(bytes as u64)
}

/// Where the first byte stands that isn't a decimal digit.
fn digits_place(word: &[u8]) -> Option<usize>
    ensures { result ≡ position is_no_digit word.now }
{
    word.iter().position(|byte| !byte.is_ascii_digit())
}

/// How many decimal digits stand before the first byte that isn't one.
#[tactic(auto, using(crate::proofs::FirstPlace::first_or_end))]
pub fn digits_before(word: &[u8]) -> usize
    ensures value { result ≡ position_or_len is_no_digit word.now }
    ensures within { result ≤ length word.now }
{
    digits_place(word).unwrap_or(word.len())
}

/// How many bytes a number and its unit stand for.
#[tactic(auto, unfolding(crate::specs::Words::size_of))]
pub(crate) fn size_of(word: &[u8]) -> Option<u64>
    ensures { result ≡ size_of word.now }
{
    let digits = digits_before(word);
    let number = number_within(MOST_BYTES, &word[..digits])?;
    let unit = unit_of(&word[digits..])?;
    size_in(unit, number)
}

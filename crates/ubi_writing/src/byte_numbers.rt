//! Numbers of bytes, as words of the command line: decimal digits, which a unit may follow, or hexadecimal ones after `0x`.

ghost use Rattle.std.specs.Prelude.{◌≡◌, ◌*◌, ◌≤◌, IfSome, Some};
ghost use Rattle.ubi_writing.specs.ByteNumbers.{at_most, bytes_in_units, bytes_within, decimal_number, hexadecimal_number, is_hexadecimal, unit_after};

use ubi_config::{digits_before, unit_named};
use ubi_files::without_plus;
use ubi_words::decimal_within;

/// The number that hexadecimal digits stand for. `None` if there are none, if one of the bytes isn't a digit, or if the number is above
/// `largest`.
fn hexadecimal_within(largest: u64, digits: &[u8]) -> Option<u64>
    ensures { result ≡ at_most largest (hexadecimal_number digits.now) }
{
    if digits.is_empty() {
        return None;
    }
    let mut value: u64 = 0;
    for byte in digits {
        let digit = char::from(*byte).to_digit(16)?;
        let more = u128::from(value) * 16 + u128::from(digit);
        if more > u128::from(largest) {
            return None;
        }
        value = more as u64;
    }
    Some(value)
}

/// The number that decimal digits stand for. `None` if there are none, if one of the bytes isn't a digit, or if the number is above
/// `largest`.
fn decimal_number(largest: u64, digits: &[u8]) -> Option<u64>
    ensures { result ≡ at_most largest (decimal_number digits.now) }
{
    if digits.is_empty() {
        return None;
    }
    decimal_within(largest, digits)
}

/// How many bytes the unit after a number is: one, if there is no unit.
fn unit_after(rest: &[u8]) -> Option<u64>
    ensures value { result ≡ unit_after rest.now }
    ensures some { IfSome result (λ unit. 1 ≤ unit) }
{
    if rest.is_empty() {
        return Some(1);
    }
    unit_named(rest)
}

/// A number of units in bytes. `None` if that is above `largest`.
fn units_within(largest: u64, number: u64, unit: u64) -> Option<u64>
    ensures { result ≡ at_most largest (Some (number * unit)) }
{
    let bytes = u128::from(number) * u128::from(unit);
    if bytes > u128::from(largest) {
        return None;
    }
    Some(bytes as u64)
}

/// The number of bytes that decimal digits and the unit right behind them stand for. `None` if the word is no such number, or if that is above
/// `largest`.
fn in_units(largest: u64, word: &[u8]) -> Option<u64>
    ensures { result ≡ at_most largest (bytes_in_units word.now) }
{
    let digits = digits_before(word);
    let number = decimal_number(largest, &word[..digits])?;
    let unit = unit_after(&word[digits..])?;
    units_within(largest, number, unit)
}

/// Whether a word begins with `0x`.
fn is_hexadecimal(word: &[u8]) -> bool
    ensures { result ≡ is_hexadecimal word.now }
{
    word.len() > 1 && word[0] == b'0' && word[1] == b'x'
}

/// The number of bytes that a word stands for. `None` if it stands for none, or for one above `largest`.
pub fn bytes_within(largest: u64, word: &[u8]) -> Option<u64>
    ensures { result ≡ bytes_within largest word.now }
{
    if is_hexadecimal(word) {
        hexadecimal_within(largest, &word[2..])
    } else {
        in_units(largest, without_plus(word))
    }
}

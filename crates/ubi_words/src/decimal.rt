//! Numbers in decimal digits.

ghost use Rattle.std.specs.Prelude.{◌≡◌, ◌≤◌, IfSome};
ghost use Rattle.ubi_words.specs.Words.{decimal_within, most_number, number_within};

/// The number that decimal digits stand for. `None` if one of the bytes isn't a digit, or if the number is above `largest`.
pub fn decimal_within(largest: u64, digits: &[u8]) -> Option<u64>
    ensures value { result ≡ decimal_within largest digits.now }
    ensures within { IfSome result (λ n. n ≤ largest) }
{
    let mut value: u64 = 0;
    for byte in digits {
        if !byte.is_ascii_digit() {
            return None;
        }
        let more = u128::from(value) * 10 + u128::from(*byte - b'0');
        if more > u128::from(largest) {
            return None;
        }
        value = more as u64;
    }
    Some(value)
}

/// The number that decimal digits stand for. `None` if one of the bytes isn't a digit, or if the number is above 4294967295.
pub fn decimal_of(digits: &[u8]) -> Option<u32>
    ensures { result ≡ decimal_within most_number digits.now }
{
    let number = decimal_within(u64::from(u32::MAX), digits)?;
    Some(number as u32)
}

/// The number that a word stands for in decimal digits, without leading zeros. `None` if it isn't one, or is above
/// `largest`.
#[tactic(auto, unfolding(crate::specs::Words::number_within, crate::specs::Words::is_number))]
pub fn number_within(largest: u64, word: &[u8]) -> Option<u64>
    ensures value { result ≡ number_within largest word.now }
    ensures within { IfSome result (λ n. n ≤ largest) }
{
    if word.is_empty() || (word.len() > 1 && word[0] == b'0') {
        return None;
    }
    decimal_within(largest, word)
}

/// The number that a word stands for in decimal digits, without leading zeros. `None` if it isn't one, or is
/// above 4294967295.
pub fn number_of(word: &[u8]) -> Option<u32>
    ensures { result ≡ number_within most_number word.now }
{
    let number = number_within(u64::from(u32::MAX), word)?;
    Some(number as u32)
}

//! The CRC of long messages, a piece at a time. As a polynomial, a message is first divided by a multiple of the
//! generator that has six terms, x^(64 * 252) + x^(64 * 236) + x^(64 * 202) + x^(64 * 59) + x^(64 * 28) + 1. The
//! remainder has the same CRC and is 252 words of eight bytes, however long the message is. The division needs no
//! table: a word is added to five words of the quotient so far, the nearest of which is sixteen places back, so
//! several can be computed at once. No word looks further back than 252 places, so a piece hands on only the last 252
//! words of the quotient to the next.

ghost use Rattle.std.specs.Prelude.{◌≡◌, ◌<◌, ◌≤◌, ℕ, length, slice_index};
ghost use Rattle.std.specs.List.{concat, SameBelow};
ghost use Rattle.ubi_media.specs.Check.{check_from};
ghost use Rattle.ubi_media.specs.inner.Division.{left_of, Carries, IsPieceRemainder, IsQuotient};

use crate::check::with_short;

/// The size of a piece in bytes.
pub const PIECE: usize = 8 * WORDS;

/// The number of words of a piece.
const WORDS: usize = 1536;

/// The number of words of a remainder: the divisor has the degree 64 * 252.
const REMAINDER: usize = 252;

/// How many words of the last piece become words of the quotient.
const QUOTIENT: usize = WORDS - REMAINDER;

/// How many words of the quotient are held at a time: the 252 before a piece, and one for each word of the piece.
const HELD: usize = REMAINDER + WORDS;

/// The state after more bytes, a piece at a time. The state stands where only the first word looks for it.
pub fn with_pieces(state: u32, pieces: &[[u8; PIECE]]) -> u32
    ensures { result ≡ check_from state (concat pieces.now) }
{
    let Some((last, before)) = pieces.split_last() else {
        return state;
    };
    let mut quotient = [0; HELD];
    quotient[0] = u64::from(state);
    for piece in before {
        carry(piece, &mut quotient);
    }
    with_last(last, &mut quotient)
}

/// Divides a piece, and carries the last words of the quotient to where the next piece looks for them.
fn carry(piece: &[u8; PIECE], quotient: &mut [u64; HELD])
    ensures { (state : ℕ) → Carries quotient.old state → Carries quotient.new (check_from state piece.now) }
{
    let (words, _) = piece.as_chunks::<8>();
    divide(words, WORDS, quotient);
    quotient.copy_within(WORDS.., 0);
}

/// The state after the last piece, which leaves a remainder.
fn with_last(piece: &[u8; PIECE], quotient: &mut [u64; HELD]) -> u32
    ensures { (state : ℕ) → Carries quotient.old state → result ≡ check_from state piece.now }
{
    let (words, _) = piece.as_chunks::<8>();
    clear_end(quotient);
    divide(words, QUOTIENT, quotient);
    let remainder = remainder_of(words, quotient);
    with_short(0, remainder.as_flattened())
}

/// Clears the words of the quotient after those that the last piece has.
fn clear_end(quotient: &mut [u64; HELD])
    ensures same { SameBelow quotient.old quotient.new 1536 }
    ensures clear { (k : ℕ) → 1536 ≤ k → slice_index quotient.new k ≡ 0 }
{
    for k in WORDS..HELD {
        quotient[k] = 0;
    }
}

/// Divides the first words of a piece: the quotient goes on by as many words.
fn divide(words: &[[u8; 8]], count: usize, quotient: &mut [u64; HELD])
    requires words { length words.now ≡ 1536 }
    requires count { count ≤ 1536 }
    ensures { IsQuotient words.now count quotient.old quotient.new }
{
    for k in 0..count {
        quotient[REMAINDER + k] = left_of(words, quotient, k);
    }
}

/// What remains of the last piece: what is left of its last words.
fn remainder_of(words: &[[u8; 8]], quotient: &[u64; HELD]) -> [[u8; 8]; REMAINDER]
    requires { length words.now ≡ 1536 }
    ensures { IsPieceRemainder words.now quotient.now result }
{
    let mut remainder = [[0; 8]; REMAINDER];
    for k in 0..REMAINDER {
        remainder[k] = left_of(words, quotient, QUOTIENT + k).to_le_bytes();
    }
    remainder
}

/// What is left of a word, once the divisor was taken off as often as the quotient says up to that place. The terms of
/// the divisor, except the highest, say where.
fn left_of(words: &[[u8; 8]], quotient: &[u64; HELD], k: usize) -> u64
    requires words { length words.now ≡ 1536 }
    requires place { k < 1536 }
    ensures { result ≡ left_of words.now quotient.now k }
{
    u64::from_le_bytes(words[k])
        ^ quotient[k + 236]
        ^ quotient[k + 202]
        ^ quotient[k + 59]
        ^ quotient[k + 28]
        ^ quotient[k]
}

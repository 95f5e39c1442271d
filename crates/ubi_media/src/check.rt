//! The CRC at the end of every header and record: 32 bits with the reflected polynomial 0xEDB88320, started at
//! 0xFFFFFFFF, without the final complement (`UBI_CRC32_INIT` of `ubi-media.h`).

ghost use Rattle.std.specs.Prelude.{◌≡◌, ◌+◌, ◌<◌, ◌≤◌, [], ◌∷◌, length, slice_index, slice_index_or, take};
ghost use Rattle.ubi_media.specs.declared.tables.TheConstants.{TABLES};
ghost use Rattle.std.specs.List.{concat};
ghost use Rattle.byteorder.specs.Endian.{big_bytes};
ghost use Rattle.ubi_media.specs.Check.{crc_of, check_from};
ghost use Rattle.ubi_media.specs.Fields.{is_sealed, overwrite};

use crate::bytes::put_u32;
use crate::division::{PIECE, with_pieces};
use crate::tables::TABLES;
use byteorder::{BigEndian, ByteOrder};

/// The state before the first byte of a message.
const START: u32 = 0xFFFF_FFFF;

/// The CRC of a message.
pub fn crc(message: &[u8]) -> u32
    ensures { result ≡ crc_of message.now }
{
    crc_more(START, message)
}

/// The CRC of a message that goes on: `state` is the CRC of what comes before, or 0xFFFFFFFF if nothing does.
pub fn crc_more(state: u32, message: &[u8]) -> u32
    ensures { result ≡ check_from state message.now }
{
    if message.len() < PIECE {
        return with_short(state, message);
    }
    let (pieces, rest) = message.as_chunks::<PIECE>();
    with_short(with_pieces(state, pieces), rest)
}

/// The state after more bytes, by tables alone: sixteen at a time, and then what is left.
pub fn with_short(state: u32, bytes: &[u8]) -> u32
    ensures { result ≡ check_from state bytes.now }
{
    let (sixteens, rest) = bytes.as_chunks::<16>();
    with_rest(with_sixteens(state, sixteens), rest)
}

/// The state after more bytes, sixteen at a time.
fn with_sixteens(state: u32, sixteens: &[[u8; 16]]) -> u32
    ensures { result ≡ check_from state (concat sixteens.now) }
{
    let mut register = state;
    for sixteen in sixteens {
        register = with_sixteen(register, sixteen);
    }
    register
}

/// The state after more bytes, eight at a time and then one at a time.
fn with_rest(state: u32, bytes: &[u8]) -> u32
    ensures { result ≡ check_from state bytes.now }
{
    let (eights, rest) = bytes.as_chunks::<8>();
    with_bytes(with_eights(state, eights), rest)
}

/// The state after more bytes, eight at a time.
fn with_eights(state: u32, eights: &[[u8; 8]]) -> u32
    ensures { result ≡ check_from state (concat eights.now) }
{
    let mut register = state;
    for eight in eights {
        register = with_eight(register, eight);
    }
    register
}

/// The state after more bytes, one at a time.
fn with_bytes(state: u32, bytes: &[u8]) -> u32
    ensures { result ≡ check_from state bytes.now }
{
    let mut register = state;
    for byte in bytes {
        register = with_byte(register, *byte);
    }
    register
}

/// The state after sixteen more bytes: the sum of what each adds, found in the table for how many bytes come after it.
/// The four bytes of the state come in with the first four.
fn with_sixteen(state: u32, sixteen: &[u8; 16]) -> u32
    ensures { result ≡ check_from state sixteen.now }
{
    let [a, b, c, d] = state.to_le_bytes();
    // What doesn't wait for the state comes first.
    found(0, sixteen[15])
        ^ found(1, sixteen[14])
        ^ found(2, sixteen[13])
        ^ found(3, sixteen[12])
        ^ found(4, sixteen[11])
        ^ found(5, sixteen[10])
        ^ found(6, sixteen[9])
        ^ found(7, sixteen[8])
        ^ found(8, sixteen[7])
        ^ found(9, sixteen[6])
        ^ found(10, sixteen[5])
        ^ found(11, sixteen[4])
        ^ found(12, d ^ sixteen[3])
        ^ found(13, c ^ sixteen[2])
        ^ found(14, b ^ sixteen[1])
        ^ found(15, a ^ sixteen[0])
}

/// The state after eight more bytes: the sum of what each adds, found in the table for how many bytes come after it.
/// The four bytes of the state come in with the first four.
fn with_eight(state: u32, eight: &[u8; 8]) -> u32
    ensures { result ≡ check_from state eight.now }
{
    let [a, b, c, d] = state.to_le_bytes();
    // What doesn't wait for the state comes first.
    found(0, eight[7])
        ^ found(1, eight[6])
        ^ found(2, eight[5])
        ^ found(3, eight[4])
        ^ found(4, d ^ eight[3])
        ^ found(5, c ^ eight[2])
        ^ found(6, b ^ eight[1])
        ^ found(7, a ^ eight[0])
}

/// What a byte adds to the state if `behind` bytes come after it.
fn found(behind: usize, byte: u8) -> u32
    requires { behind < 16 }
    ensures { result ≡ slice_index (slice_index_or TABLES behind []) byte }
{
    TABLES[behind][byte as usize]
}

/// The state after one more byte.
fn with_byte(state: u32, byte: u8) -> u32
    ensures { result ≡ check_from state (byte ∷ []) }
{
    (state >> 8) ^ TABLES[0][((state ^ u32::from(byte)) & 0xFF) as usize]
}

/// Whether the four bytes at a place are the CRC of all bytes before them.
pub fn is_sealed(bytes: &[u8], at: usize) -> bool
    requires { at + 4 ≤ length bytes.now }
    ensures { result ≡ is_sealed at bytes.now }
{
    BigEndian::read_u32(&bytes[at..at + 4]) == crc(&bytes[..at])
}

/// Writes the CRC of the bytes before a place into the four bytes from there on.
pub fn seal(bytes: &mut [u8], at: usize)
    requires { at + 4 ≤ length bytes.old }
    ensures { bytes.new ≡ overwrite at (big_bytes 4 (crc_of (take at bytes.old))) bytes.old }
{
    let check = crc(&bytes[..at]);
    put_u32(bytes, at, check);
}

//! The CRC against vectors from outside.

use ubi_media::{crc, crc_more};

/// Messages, and their CRCs. The usual CRC-32 of each is the complement, as cbf43926 of the nine digits.
static VECTORS: [(&[u8], u32); 7] = [
    (b"", 0xFFFF_FFFF),
    (b"123456789", 0x340B_C6D9),
    (&[0xFF; 1], 0x00FF_FFFF),
    (&[0xFF; 4], 0),
    (&[0xFF; 5], 0x2D02_EF8D),
    (&[0xBE, 0xF9, 0x8E, 0x24, 0xFE], 0x2D02_EF8D),
    (&[0; 168], 0xF116_C36B),
];

#[test]
fn checks_messages_and_goes_on_from_a_state(rt: HostRuntime) {
    for (message, check) in &VECTORS {
        assert!(rt; crc(message) == *check, "of {message:?}");
    }
    assert!(rt; crc_more(crc(b"12345"), b"6789") == 0x340B_C6D9);
    assert!(rt; crc_more(0x1234_5678, b"") == 0x1234_5678);
}

/// A place of the message and a length: around one piece, two, three and four, and what the tables take by sixteen,
/// eight and one.
static PARTS: [(usize, usize); 24] = [
    (0, 0),
    (3, 1),
    (0, 12_287),
    (0, 12_288),
    (1, 12_288),
    (0, 12_289),
    (5, 12_303),
    (0, 12_304),
    (0, 12_313),
    (0, 24_575),
    (0, 24_576),
    (7, 24_576),
    (0, 24_577),
    (0, 24_591),
    (0, 24_592),
    (2, 24_601),
    (0, 36_863),
    (0, 36_864),
    (9, 36_864),
    (0, 36_865),
    (0, 36_880),
    (6, 36_889),
    (0, 49_151),
    (3, 49_152),
];

/// Bytes in no order.
fn fill(bytes: &mut [u8]) {
    let mut state: u32 = 1;
    for byte in bytes.iter_mut() {
        state = state.wrapping_mul(1_664_525).wrapping_add(1_013_904_223);
        *byte = state.to_be_bytes()[0];
    }
}

/// The CRC bit by bit: each comes in at the lowest place of the state, and a 1 that goes out there adds the polynomial.
fn bitwise(state: u32, message: &[u8]) -> u32 {
    let mut register = state;
    for byte in message {
        register ^= u32::from(*byte);
        for _ in 0..8 {
            let out = register & 1;
            register >>= 1;
            if out == 1 {
                register ^= 0xEDB8_8320;
            }
        }
    }
    register
}

/// Whether the CRC of a part is the one bit by bit, from the start and from another state.
fn is_bitwise(bytes: &[u8], at: usize, len: usize) -> bool {
    let mut is = true;
    for state in [0xFFFF_FFFF, 0x8765_4321] {
        is = is
            && match bytes.get(at..at.saturating_add(len)) {
                Some(part) => crc_more(state, part) == bitwise(state, part),
                None => false,
            };
    }
    is
}

#[test]
fn checks_pieces_as_bits(rt: HostRuntime) {
    let mut bytes = [0; 49_200];
    fill(&mut bytes);
    for (at, len) in PARTS {
        assert!(rt; is_bitwise(&bytes, at, len), "{len} bytes at {at}");
    }
}

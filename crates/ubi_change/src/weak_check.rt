//! Whether the CRC of a copy that is cut short shows the cut.

ghost use Rattle.std.specs.Prelude.{◌≡◌, ◌==◌, ◌%◌, ◌^◌, ◌<◌, ◌&&◌, length, not};
ghost use Rattle.ubi_change.specs.Weak.{weak_pages};
ghost use Rattle.ubi_media.specs.Check.{check_from};
ghost use Rattle.ubi_media.specs.Fields.{AreBytes, blank, is_blank};

use ubi_media::{Geometry, crc, crc_more, is_blank};

/// The CRC of no byte.
const START: u32 = 0xFFFF_FFFF;

/// Bytes as an erase leaves them. Each page is a multiple of this many.
const BLANK: [u8; 64] = [0xFF; 64];

/// The CRC of bytes that go on with `count` bytes 0xFF: `state` is the CRC of what comes before.
fn check_with_blank(state: u32, count: usize) -> u32
    requires { count % 64 ≡ 0 }
    ensures { result ≡ check_from state (blank count) }
{
    let mut register = state;
    for _ in 0..count / 64 {
        register = crc_more(register, &BLANK);
    }
    register
}

/// Whether bytes have the same CRC with 0xFF in place of `rest`, and aren't 0xFF there. Their front has the CRC
/// `front`, and front and `rest` together have `whole`.
fn is_weak(front: u32, rest: &[u8], whole: u32) -> bool
    requires { length rest.now % 64 ≡ 0 }
    ensures { result ≡ (not (is_blank rest.now) && (check_from front (blank (length rest.now)) == whole)) }
{
    !is_blank(rest) && check_with_blank(front, rest.len()) == whole
}

/// The least number of pages, below all, that with 0xFF after them aren't the new bytes but have the same CRC. `None` if
/// there is none.
///
/// Its time grows with the square of the number of pages. For each number from which on the bytes aren't blank, it takes
/// the CRC of as many bytes 0xFF as are left. For a logical eraseblock with 64 pages these are 32 times its bytes; with
/// 2^18 pages of 64 bytes, which no device has, 2^41 bytes.
pub fn weak_place(geometry: &Geometry, new: &[u8]) -> Option<u32>
    requires paged { length new.now % geometry.now.page ≡ 0 }
    requires short { length new.now < 2 ^ 32 }
    ensures value { result ≡ weak_pages geometry.now new.now }
    ensures bytes { AreBytes new.now }
{
    let page = geometry.page() as usize;
    let whole = crc(new);
    let mut front = START;
    for k in 0..(new.len() / page) as u32 {
        let start = k as usize * page;
        if is_weak(front, &new[start..], whole) {
            return Some(k);
        }
        front = crc_more(front, &new[start..start + page]);
    }
    None
}

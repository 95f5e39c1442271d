//! Bytes as an erase leaves them, and numbers written into bytes.

ghost use Rattle.std.specs.Prelude.{◌≡◌, ◌+◌, ◌≤◌, length};
ghost use Rattle.byteorder.specs.Endian.{big_bytes};
ghost use Rattle.ubi_media.specs.Fields.{is_blank, overwrite};

use byteorder::{BigEndian, ByteOrder};

/// Whether every byte is 0xFF.
pub fn is_blank(bytes: &[u8]) -> bool
    ensures { result ≡ is_blank bytes.now }
{
    let Some((first, rest)) = bytes.split_first() else {
        return true;
    };
    // Each byte is the one before it, which one comparison of memory tells.
    *first == 0xFF && rest == &bytes[..rest.len()]
}

/// Writes bytes at a place.
pub fn put(bytes: &mut [u8], at: usize, part: &[u8])
    requires { at + length part.now ≤ length bytes.old }
    ensures { bytes.new ≡ overwrite at part.now bytes.old }
{
    bytes[at..at + part.len()].copy_from_slice(part);
}

/// Writes a number of two bytes at a place, the highest byte first.
pub fn put_u16(bytes: &mut [u8], at: usize, n: u16)
    requires { at + 2 ≤ length bytes.old }
    ensures { bytes.new ≡ overwrite at (big_bytes 2 n) bytes.old }
{
    BigEndian::write_u16(&mut bytes[at..at + 2], n);
}

/// Writes a number of four bytes at a place, the highest byte first.
pub fn put_u32(bytes: &mut [u8], at: usize, n: u32)
    requires { at + 4 ≤ length bytes.old }
    ensures { bytes.new ≡ overwrite at (big_bytes 4 n) bytes.old }
{
    BigEndian::write_u32(&mut bytes[at..at + 4], n);
}

/// Writes a number of eight bytes at a place, the highest byte first.
pub fn put_u64(bytes: &mut [u8], at: usize, n: u64)
    requires { at + 8 ≤ length bytes.old }
    ensures { bytes.new ≡ overwrite at (big_bytes 8 n) bytes.old }
{
    BigEndian::write_u64(&mut bytes[at..at + 8], n);
}

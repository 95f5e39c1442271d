//! Texts without the blank pages at their end.

ghost use Rattle.std.specs.Prelude.{◌≡◌, ◌++◌, ◌-◌, ◌%◌, ◌^◌, ◌<◌, ◌≤◌, drop, length, take};
ghost use Rattle.ubi_change.specs.CommitPlan.{trimmed, whole_text};
ghost use Rattle.ubi_change.specs.Weak.{pages_needed};
ghost use Rattle.ubi_media.specs.Fields.{blank};
ghost use Rattle.ubi_media.specs.Geometry.{leb_size};

use ubi_media::{Geometry, is_blank};

/// The least number of pages that are the whole bytes, with 0xFF after them.
pub fn pages_needed(geometry: &Geometry, new: &[u8]) -> u32
    requires paged { length new.now % geometry.now.page ≡ 0 }
    requires short { length new.now < 2 ^ 31 }
    ensures { result ≡ pages_needed geometry.now new.now }
{
    let page = geometry.page() as usize;
    let mut needed = new.len() / page;
    while needed > 0 && is_blank(&new[(needed - 1) * page..needed * page]) {
        needed -= 1;
    }
    needed as u32
}

/// Makes all bytes 0xFF except the first `len`.
fn blank_behind(part: &mut [u8], len: usize)
    requires { len ≤ length part.old }
    ensures { part.new ≡ take len part.old ++ blank (length part.old - len) }
{
    part[len..].fill(0xFF);
}

/// Fills the last page of a text with 0xFF: `len` bytes of a logical eraseblock whose eraseblock is in the buffer. Returns the whole
/// pages.
pub fn whole_text<'a>(geometry: &Geometry, len: u32, buffer: &'a mut [u8]) -> &'a [u8]
    requires room { length buffer.old ≡ geometry.now.peb_size }
    requires fits { len ≤ leb_size geometry.now }
    ensures text { result.now ≡ whole_text geometry.now (take len (drop geometry.now.data_offset buffer.old)) }
    ensures paged { length result.now % geometry.now.page ≡ 0 }
    ensures short { length result.now < 2 ^ 31 }
{
    let (data, page) = (geometry.data_offset() as usize, geometry.page() as usize);
    let all = (len as usize).div_ceil(page) * page;
    let text = &mut buffer[data..data + all];
    blank_behind(text, len as usize);
    text
}

/// A text without the blank pages at its end, with 0xFF to whole pages: `len` bytes of a logical eraseblock whose eraseblock is in the
/// buffer.
pub fn trimmed_text<'a>(geometry: &Geometry, len: u32, buffer: &'a mut [u8]) -> &'a [u8]
    requires room { length buffer.old ≡ geometry.now.peb_size }
    requires fits { len ≤ leb_size geometry.now }
    ensures text { result.now ≡ trimmed geometry.now (take len (drop geometry.now.data_offset buffer.old)) }
    ensures paged { length result.now % geometry.now.page ≡ 0 }
    ensures short { length result.now ≤ leb_size geometry.now }
{
    let whole = whole_text(geometry, len, buffer);
    let needed = pages_needed(geometry, whole) as usize * geometry.page() as usize;
    &whole[..needed]
}

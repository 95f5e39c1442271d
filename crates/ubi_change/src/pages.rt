//! The bytes of the pages that a plan programs.

ghost use Rattle.std.specs.Prelude.{◌≡◌, ◌%◌, ◌^◌, ◌<◌, ◌≤◌, [], IfOk, OnOk, if◌then◌else◌, length, nat_lt};
ghost use Rattle.ubi_change.specs.Plan.{vid_page};
ghost use Rattle.ubi_change.specs.RenamePlan.{table_pages};
ghost use Rattle.ubi_media.specs.Ec.{ec_bytes};
ghost use Rattle.ubi_media.specs.Fields.{filled};
ghost use Rattle.ubi_media.specs.Geometry.{leb_size};
ghost use Rattle.ubi_volume.specs.Meant.{pieces};

use std::alloc::{AllocError, Global};
use ubi_media::{EcHeader, Geometry, VidHeader, write_ec, write_vid};
use ubi_table::Table;
use ubi_volume::Bytes;

/// Fills bytes up with 0xFF to a length.
fn fill_up(bytes: &mut Vec<u8>, size: usize) -> Result<(), AllocError>
    requires { length bytes.old.items ≤ size }
    ensures { OnOk result (bytes.new.items ≡ filled size bytes.old.items) }
{
    bytes.resize(size, 0xFF)
}

/// The page that holds an erase-counter header, with 0xFF after it.
pub fn ec_page(alloc: Global, geometry: &Geometry, header: &EcHeader) -> Result<Bytes, AllocError>
    ensures { IfOk result (λ bytes. bytes ≡ filled geometry.now.page (ec_bytes geometry.now header.now)) }
{
    let mut bytes = Vec::from_slice(alloc, &write_ec(geometry, header))?;
    prove!(geometry.page() >= 64);
    fill_up(&mut bytes, geometry.page() as usize)?;
    Ok(Bytes::new(bytes))
}

/// What stands before a volume-identifier header in its page: the erase-counter header, if that is page 0.
fn front_of<'a>(geometry: &Geometry, ec: &'a [u8]) -> &'a [u8]
    requires { length ec.now ≡ 64 }
    ensures value { result.now ≡ (if nat_lt geometry.now.vid_offset geometry.now.page then ec.now else []) }
    ensures fits { length result.now ≤ geometry.now.vid_offset % geometry.now.page }
{
    if geometry.vid_offset() < geometry.page() {
        ec
    } else {
        &[]
    }
}

/// The page that holds a volume-identifier header, with 0xFF before and after it. If it is page 0, it begins with
/// the bytes of the erase-counter header.
pub fn vid_page(
    alloc: Global,
    geometry: &Geometry,
    ec: &[u8],
    header: &VidHeader,
) -> Result<Bytes, AllocError>
    requires { length ec.now ≡ 64 }
    ensures { IfOk result (λ bytes. bytes ≡ vid_page geometry.now ec.now header.now) }
{
    let mut bytes = Vec::from_slice(alloc, front_of(geometry, ec))?;
    fill_up(
        &mut bytes,
        (geometry.vid_offset() % geometry.page()) as usize,
    )?;
    bytes.extend_from_slice(&write_vid(header))?;
    fill_up(&mut bytes, geometry.page() as usize)?;
    Ok(Bytes::new(bytes))
}

/// How many pages bytes take; the last may be filled up.
fn page_count(geometry: &Geometry, bytes: &[u8]) -> usize
    ensures { result ≡ pieces geometry.now.page (length bytes.now) }
{
    bytes.len().div_ceil(geometry.page() as usize)
}

/// The pages of a volume table: its bytes, and 0xFF after them.
pub fn table_pages(alloc: Global, geometry: &Geometry, table: &Table) -> Result<Vec<u8>, AllocError>
    requires { table.now.sizes ≡ geometry.now }
    ensures pages { IfOk result (λ bytes. bytes.items ≡ table_pages geometry.now table.now) }
    ensures paged { IfOk result (λ bytes. length bytes.items % geometry.now.page ≡ 0) }
    ensures short { IfOk result (λ bytes. length bytes.items < 2 ^ 31) }
    ensures fits { IfOk result (λ bytes. length bytes.items ≤ leb_size geometry.now) }
{
    let mut bytes = table.encode(alloc)?;
    let count = page_count(geometry, bytes.as_slice());
    fill_up(&mut bytes, count * geometry.page() as usize)?;
    Ok(bytes)
}

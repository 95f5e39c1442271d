//! The normal image of a meaning, and of what an image means.

ghost use Rattle.std.specs.FinMap as finite;
ghost use Rattle.std.specs.List.{AllByRecursion};
ghost use Rattle.std.specs.Prelude.{◌≡◌, ◌≢◌, ◌++◌, ◌*◌, ◌<◌, ◌≤◌, ◌^◌, IfErr, IfOk, OnOk, flat_map, length, map, replicate};
ghost use Rattle.ubi_compose.specs.Composed.{HasRoom, IsComposeError, composed, spare};
ghost use Rattle.ubi_compose.specs.Normal.{IsNormalised, laid_bytes, layout_block, new_ec, normal_blocks};
ghost use Rattle.ubi_laid.specs.Laid.{dynamic_block, laid_blocks, static_blocks, volume_blocks};
ghost use Rattle.ubi_media.specs.Fields.{blank, filled};
ghost use Rattle.ubi_media.specs.Geometry.{leb_size};
ghost use Rattle.ubi_scan.specs.Image.{Image, image_of};
ghost use Rattle.ubi_volume.specs.Accepts.{Accepts, IsAttachError};
ghost use Rattle.ubi_volume.specs.Meant.{IsVolume, pieces, share};

use crate::errors::ComposeError;
use crate::header::copy_header;
use crate::records::table_text;
use std::alloc::{AllocError, Global};
use ubi_laid::{damaged_header, static_header};
use ubi_media::{AttachError, EcHeader, Geometry, VidHeader, VolKind, write_ec, write_vid};
use ubi_volume::{Content, Lebs, Meaning, Volume, attach};

/// How many eraseblocks the normal image of a meaning has.
fn block_count(meaning: &Meaning) -> usize
    ensures { result ≡ length (normal_blocks meaning.now) }
{
    let geometry = meaning.geometry();
    let mut count = 2;
    for numbered in meaning.volumes() {
        count += volume_count(&geometry, numbered);
    }
    count
}

/// Adds the two copies of the volume table.
fn put_table(alloc: Global, image: &mut Vec<u8>, meaning: &Meaning) -> Result<(), AllocError>
    ensures { OnOk result (image.new.items ≡ (image.old.items ++ laid_bytes meaning.now.sizes (new_ec meaning.now.image_seq) (layout_block meaning.now 0)) ++ laid_bytes meaning.now.sizes (new_ec meaning.now.image_seq) (layout_block meaning.now 1)) }
{
    let geometry = meaning.geometry();
    let image_seq = meaning.image_seq();
    let text = table_text(alloc, meaning)?;
    let (zero, one) = (copy_header(0), copy_header(1));
    put_block(image, &geometry, image_seq, &zero, text.as_slice())?;
    put_block(image, &geometry, image_seq, &one, text.as_slice())
}

/// Adds the eraseblocks of the volumes.
fn put_volumes(image: &mut Vec<u8>, meaning: &Meaning) -> Result<(), AllocError>
    ensures { OnOk result (image.new.items ≡ image.old.items ++ flat_map (laid_bytes meaning.now.sizes (new_ec meaning.now.image_seq)) (laid_blocks meaning.now.sizes (finite.entries meaning.now.volumes))) }
{
    let geometry = meaning.geometry();
    let image_seq = meaning.image_seq();
    let volumes = meaning.volumes();
    for numbered in volumes {
        put_volume(image, &geometry, image_seq, numbered)?;
    }
    Ok(())
}

/// Adds an eraseblock that is ready to be programmed: an erase-counter header, and 0xFF after it.
fn put_spare(image: &mut Vec<u8>, geometry: &Geometry, image_seq: u32) -> Result<(), AllocError>
    ensures { OnOk result (image.new.items ≡ image.old.items ++ spare geometry.now image_seq) }
{
    image.extend_from_slice(&write_ec(geometry, &new_ec(image_seq)))?;
    put_blank(image, geometry.peb_size() - HEADER_SIZE)
}

/// Adds `count` spare eraseblocks.
fn put_spares(
    image: &mut Vec<u8>,
    geometry: &Geometry,
    image_seq: u32,
    count: u32,
) -> Result<(), AllocError>
    ensures { OnOk result (image.new.items ≡ image.old.items ++ flat_map (λ b. b) (replicate count (spare geometry.now image_seq))) }
{
    for _ in 0..count {
        put_spare(image, geometry, image_seq)?;
    }
    Ok(())
}

/// The normal image of a meaning, followed by `spares` spare eraseblocks: each has an erase-counter header with counter
/// 0 and the image sequence number, and is 0xFF elsewhere. It is accepted, with this meaning.
///
/// # Errors
///
/// `TooMany` if the device has too few eraseblocks; never without spares. `Memory` if memory ran out.
pub fn compose(alloc: Global, meaning: &Meaning, spares: u32) -> Result<Vec<u8>, ComposeError>
    ensures room { IfOk result (λ _. HasRoom meaning.now spares) }
    ensures bytes { IfOk result (λ out. out.items ≡ composed meaning.now spares) }
    ensures accepted { IfOk result (λ out. Accepts (image_of meaning.now.sizes out.items) meaning.now) }
    ensures refused { IfErr result (IsComposeError meaning.now spares) }
    ensures fits { spares ≡ 0 → result ≢ Err ComposeError.TooMany }
{
    let geometry = meaning.geometry();
    let count = block_count(meaning) + spares as usize;
    if count > geometry.pebs() as usize {
        return Err(ComposeError::TooMany);
    }
    let mut image = Vec::with_capacity(alloc, count * geometry.peb_size() as usize)?;
    put_table(alloc, &mut image, meaning)?;
    put_volumes(&mut image, meaning)?;
    put_spares(&mut image, &geometry, meaning.image_seq(), spares)?;
    Ok(image)
}

/// The normal image of what an image means.
///
/// # Errors
///
/// Those of [`attach`], and `Memory` if memory ran out for the normal image.
pub fn normalise(alloc: Global, geometry: &Geometry, image: &[u8]) -> Result<Vec<u8>, AttachError>
    ensures normal { IfOk result (λ out. IsNormalised (image_of geometry.now image.now) out.items) }
    ensures again { IfOk result (λ out. IsNormalised (image_of geometry.now out.items) out.items) }
    ensures refused { IfErr result (IsAttachError (image_of geometry.now image.now)) }
{
    let attached = attach(alloc, geometry, image)?;
    match compose(alloc, attached.meaning(), 0) {
        Ok(normal) => Ok(normal),
        Err(ComposeError::Memory) => Err(AttachError::Memory),
        Err(ComposeError::TooMany) => unreachable!(),
    }
}

/// How many pieces of `size` bytes a static volume's contents have; the last may be shorter.
fn pieces(text: &[u8], size: u32) -> u32
    requires some { 1 ≤ size }
    requires few { length text.now ≤ 2 ^ 31 * size }
    ensures { result ≡ pieces size (length text.now) }
{
    text.len().div_ceil(size as usize) as u32
}

/// The share of a static volume's contents that stands in a logical eraseblock.
fn share_of(text: &[u8], size: u32, lnum: u32) -> &[u8]
    requires inside { lnum < pieces size (length text.now) }
    requires some { 1 ≤ size }
    ensures { result.now ≡ share size text.now lnum }
{
    let rest = &text[lnum as usize * size as usize..];
    &rest[..rest.len().min(size as usize)]
}

/// Adds the eraseblocks of a static volume's contents.
fn put_static(
    image: &mut Vec<u8>,
    geometry: &Geometry,
    image_seq: u32,
    data_pad: u32,
    size: u32,
    vol_id: u32,
    text: &[u8],
) -> Result<(), AllocError>
    requires some { 1 ≤ size }
    requires fits { size ≤ leb_size geometry.now }
    requires few { length text.now ≤ 2 ^ 31 * size }
    ensures { OnOk result (image.new.items ≡ image.old.items ++ flat_map (laid_bytes geometry.now (new_ec image_seq)) (static_blocks data_pad size vol_id text.now)) }
{
    let used_ebs = pieces(text, size);
    for lnum in 0..used_ebs {
        let part = share_of(text, size, lnum);
        let header = static_header(data_pad, vol_id, used_ebs, lnum, part);
        put_block(image, geometry, image_seq, &header, part)?;
    }
    Ok(())
}

/// Adds the eraseblocks that are kept of a dynamic volume.
fn put_dynamic(
    image: &mut Vec<u8>,
    geometry: &Geometry,
    image_seq: u32,
    data_pad: u32,
    vol_id: u32,
    lebs: &Lebs,
) -> Result<(), AllocError>
    requires { AllByRecursion (λ e. length e.1 ≤ leb_size geometry.now) (finite.entries lebs.now) }
    ensures { OnOk result (image.new.items ≡ image.old.items ++ flat_map (laid_bytes geometry.now (new_ec image_seq)) (map (dynamic_block data_pad vol_id) (finite.entries lebs.now))) }
{
    for (lnum, text) in lebs.iter() {
        let header = VidHeader::plain(VolKind::Dynamic, 0, data_pad, vol_id, *lnum);
        put_block(image, geometry, image_seq, &header, text.as_slice())?;
    }
    Ok(())
}

/// How many eraseblocks a volume has.
pub fn volume_count(geometry: &Geometry, numbered: &(u32, Volume)) -> usize
    requires { IsVolume geometry.now numbered.now.0 numbered.now.1 }
    ensures { result ≡ length (volume_blocks geometry.now numbered.now.0 numbered.now.1.entry numbered.now.1.content) }
{
    let volume = &numbered.1;
    match &volume.content {
        Content::Updating => 0,
        Content::Damaged => 1,
        Content::Static(text) => pieces(text.as_slice(), volume.entry.usable(geometry)) as usize,
        Content::Dynamic(lebs) => lebs.len(),
    }
}

/// Adds the eraseblocks of a volume.
pub fn put_volume(
    image: &mut Vec<u8>,
    geometry: &Geometry,
    image_seq: u32,
    numbered: &(u32, Volume),
) -> Result<(), AllocError>
    requires { IsVolume geometry.now numbered.now.0 numbered.now.1 }
    ensures { OnOk result (image.new.items ≡ image.old.items ++ flat_map (laid_bytes geometry.now (new_ec image_seq)) (volume_blocks geometry.now numbered.now.0 numbered.now.1.entry numbered.now.1.content)) }
{
    let (id, volume) = numbered;
    let data_pad = volume.entry.data_pad(geometry);
    match &volume.content {
        Content::Updating => Ok(()),
        Content::Damaged => {
            let header = damaged_header(data_pad, *id);
            put_block(image, geometry, image_seq, &header, &[])
        }
        Content::Static(text) => {
            let size = volume.entry.usable(geometry);
            put_static(
                image,
                geometry,
                image_seq,
                data_pad,
                size,
                *id,
                text.as_slice(),
            )
        }
        Content::Dynamic(lebs) => put_dynamic(image, geometry, image_seq, data_pad, *id, lebs),
    }
}

/// The size of a header in bytes.
pub const HEADER_SIZE: u32 = 64;

/// The erase-counter header of an eraseblock that was never erased, with the image sequence number.
pub fn new_ec(image_seq: u32) -> EcHeader
    ensures { result ≡ new_ec image_seq }
{
    EcHeader {
        counter: 0,
        image_seq,
    }
}

/// Adds `count` bytes 0xFF.
pub fn put_blank(image: &mut Vec<u8>, count: u32) -> Result<(), AllocError>
    ensures { OnOk result (image.new.items ≡ image.old.items ++ blank count) }
{
    image.resize(image.len() + count as usize, 0xFF)
}

/// Adds an eraseblock with an image sequence number: its two headers and the first bytes of its data, each at its place, and 0xFF elsewhere.
pub fn put_block(
    image: &mut Vec<u8>,
    geometry: &Geometry,
    image_seq: u32,
    header: &VidHeader,
    text: &[u8],
) -> Result<(), AllocError>
    requires { length text.now ≤ leb_size geometry.now }
    ensures { OnOk result (image.new.items ≡ image.old.items ++ laid_bytes geometry.now (new_ec image_seq) (record { header = header.now; text = text.now })) }
{
    image.extend_from_slice(&write_ec(geometry, &new_ec(image_seq)))?;
    put_blank(image, geometry.vid_offset() - HEADER_SIZE)?;
    image.extend_from_slice(&write_vid(header))?;
    put_blank(
        image,
        geometry.data_offset() - geometry.vid_offset() - HEADER_SIZE,
    )?;
    image.extend_from_slice(text)?;
    put_blank(image, geometry.leb_size() - text.len() as u32)
}

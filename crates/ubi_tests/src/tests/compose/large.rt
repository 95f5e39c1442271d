//! Eraseblocks of the size that chips have: 128 KiB in pages of 2 KiB.

use super::images::composed;
use std::alloc::Global;
use std::test::Fail;
use ubi_compose::{Recipe, build_to, normalise_to};
use ubi_laid::Part;
use ubi_media::Geometry;
use ubi_probe::chips::{PAGES, SUBPAGES};
use ubi_probe::pebs::IMAGE;
use ubi_probe::records::ROOT;
use ubi_probe::{Failure, ProbeWriter};
use ubi_same::same;
use ubi_scan::MemorySource;

/// A volume of 20 logical eraseblocks, of which 1 begins with two bytes.
const TEXT: &[u8] = b"volume 0 dynamic 20 1 00 root\nleb 0 1 6162\n";

/// Whether an image is normalised to some bytes, which mean the same as it, and others don't.
fn is_normalised(
    alloc: Global,
    geometry: &Geometry,
    (image, normal, other): (&[u8], &[u8], &[u8]),
) -> Result<bool, Fail> {
    let mut source = MemorySource::new(image);
    let mut writer = ProbeWriter::new(alloc, 1 << 20, 1 << 20, Failure::Nothing)?;
    let answer = normalise_to(alloc, geometry, &mut source, &mut writer);
    Ok(
        answer == Ok(normal.len() as u64)
            && writer.taken() == normal
            && same(alloc, geometry, image, normal) == Ok(true)
            && same(alloc, geometry, image, other) == Ok(false),
    )
}

/// Whether an image is built, with a spare eraseblock, of a source with one logical eraseblock that is 0xFF throughout and
/// two bytes more.
fn is_built(alloc: Global, geometry: &Geometry, want: &[u8]) -> Result<bool, Fail> {
    let mut bytes = Vec::from_elem(alloc, 0xFF, geometry.leb_size() as usize)?;
    bytes.extend_from_slice(b"ab")?;
    let entry = ROOT.volume().ok_or("no name")?;
    let part = Part {
        id: 0,
        entry,
        start: 0,
        len: bytes.len() as u64,
    };
    let parts = Vec::from_array(alloc, [part])?;
    let Ok(recipe) = Recipe::new(alloc, geometry, IMAGE, parts) else {
        return Err("no recipe".into());
    };
    let mut source = MemorySource::new(bytes.as_slice());
    let mut writer = ProbeWriter::new(alloc, 1 << 20, 1 << 20, Failure::Nothing)?;
    let answer = build_to(alloc, &recipe, 1, &mut source, &mut writer);
    Ok(answer == Ok(want.len() as u64) && writer.taken() == want)
}

#[test]
fn composes_builds_normalises_and_compares(rt: HostRuntime) -> Result<(), Fail> {
    let alloc = rt.alloc();
    for chip in [PAGES, SUBPAGES] {
        let geometry = chip.geometry()?;
        let image = composed(alloc, &geometry, TEXT, IMAGE, 1)?;
        let (want, unnamed) = (
            chip.image(alloc, &geometry, &[ROOT])?,
            composed(alloc, &geometry, TEXT, 0, 1)?,
        );
        assert!(rt; image == want && is_built(alloc, &geometry, want.as_slice())?);
        let normal = want.as_slice().get(..393_216).unwrap_or(&[]);
        let images = (image.as_slice(), normal, unnamed.as_slice());
        assert!(rt; is_normalised(alloc, &geometry, images)?);
    }
    Ok(())
}

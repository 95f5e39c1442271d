//! How much volumes of a source read: what isn't counted, and reads that fail.

use super::images::BASE;
use std::alloc::Global;
use std::test::Fail;
use ubi_probe::ProbeSource;
use ubi_probe::pebs::{
    Data, FIRST, FIRST_BOOT, FIRST_MARKED, NAMED, NO_DATA, Peb, SECOND, SECOND_BOOT, SECOND_MARKED,
    TEXT_0, TEXT_1, Vid, small, small_image,
};
use ubi_scan::{BlockSource, StreamError};
use ubi_volume::{Amount, amount_of, attach_places};

/// A logical eraseblock that is 0xFF throughout, and one beyond those that are reserved: neither is counted.
const WITH_BLANK: [Peb; 4] = [
    FIRST,
    SECOND,
    Peb(NAMED, Vid::Leb(0, 0, 0), NO_DATA),
    Peb(NAMED, Vid::Leb(0, 20, 0), Data::Fill(b'D', 384)),
];

/// How much volume 0 of a source reads, or why that isn't known.
fn amount<S: BlockSource>(
    alloc: Global,
    source: &mut S,
) -> Result<Result<Amount, StreamError>, Fail> {
    let geometry = small()?;
    let places = attach_places(alloc, &geometry, source)?;
    let Some(entry) = places.table().get(0) else {
        return Err("no volume".into());
    };
    let mut buffer = Vec::from_elem(alloc, 0u8, geometry.peb_size() as usize)?;
    Ok(amount_of(&geometry, source, &places, 0, entry, buffer.as_mut_slice()))
}

/// Some eraseblocks, which of the reads fails, and how much volume 0 reads. Six reads attach the five eraseblocks of
/// the base.
static AMOUNTS: [(&[Peb], u64, Result<Amount, StreamError>); 7] = [
    (&BASE, 0, Ok(Amount::Lebs(3))),
    (&WITH_BLANK, 0, Ok(Amount::Lebs(0))),
    (&[FIRST_MARKED, SECOND_MARKED], 0, Ok(Amount::Updating)),
    (&[FIRST_BOOT, SECOND_BOOT], 0, Ok(Amount::Bytes(0))),
    (
        &[FIRST_BOOT, SECOND_BOOT, TEXT_0, TEXT_1],
        0,
        Ok(Amount::Bytes(385)),
    ),
    (&[FIRST_BOOT, SECOND_BOOT, TEXT_0], 0, Ok(Amount::Damaged)),
    // The second logical eraseblock.
    (&BASE, 8, Err(StreamError::Read(3, 0))),
];

#[test]
fn tells_how_much_volumes_read(rt: HostRuntime) -> Result<(), Fail> {
    for (index, (pebs, at, want)) in AMOUNTS.iter().enumerate() {
        let bytes = small_image(rt.alloc(), pebs)?;
        let mut source = ProbeSource::new(rt.alloc(), &small()?, bytes.as_slice(), *at)?;
        assert!(rt; amount(rt.alloc(), &mut source)? == *want, "case {index}");
    }
    Ok(())
}

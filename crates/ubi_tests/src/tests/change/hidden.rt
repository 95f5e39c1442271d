//! What headers in listed eraseblocks name.

use super::images::{LARGE, LARGE_SHARED, SMALL, Sizes};
use std::alloc::Global;
use std::process::Abort;
use std::test::Fail;
use ubi_change::{Hidden, find_hidden};
use ubi_probe::pebs::{ERASED, FIRST, FREE, NAMED, NO_DATA, Peb, TORN, Vid, image_of};
use ubi_scan::MemorySource;

/// A header with the greatest logical eraseblock, and one with a sequence number beyond 32 bits.
const LAST: Peb = Peb(NAMED, Vid::Leb(1, 0x7FFF_FFFF, 5), NO_DATA);

const LATE: Peb = Peb(NAMED, Vid::Leb(0, 6, 0x1_0000_0007), NO_DATA);

const TABLE: Peb = Peb(NAMED, Vid::Table(1, u64::MAX), NO_DATA);

static PEBS: [Peb; 7] = [FIRST, LAST, LATE, TORN, ERASED, FREE, TABLE];

/// Which of these are listed, the greatest sequence number, and the ends of the volumes 0 and 1.
static CASES: [(&[bool], u64, (u64, u64)); 5] = [
    (&[], 0, (0, 0)),
    (&[false, true], 5, (0, 0x8000_0000)),
    (&[true, false, true, true], 0x1_0000_0007, (7, 0)),
    (
        &[true, true, true, true, true, true],
        0x1_0000_0007,
        (7, 0x8000_0000),
    ),
    (&[true; 64], u64::MAX, (7, 0x8000_0000)),
];

/// The end of a volume, 0 if there is none.
fn end_of(hidden: &Hidden, volume: usize) -> u64 {
    match hidden.ends().get(volume) {
        Some(end) => *end,
        None => 0,
    }
}

/// Asserts what is found in eraseblocks of these sizes.
fn assert_found(rt: &impl Abort, alloc: Global, sizes: &Sizes) -> Result<(), Fail> {
    let geometry = sizes.geometry()?;
    let image = image_of(alloc, &geometry, &PEBS)?;
    for (marks, above, ends) in &CASES {
        let mut source = MemorySource::new(image.as_slice());
        let Ok(hidden) = find_hidden(alloc, &geometry, &mut source, marks) else {
            return Err("a read failed".into());
        };
        assert_eq!(rt; hidden.above(), *above);
        assert_eq!(rt; hidden.ends().len(), geometry.slots() as usize);
        assert_eq!(rt; (end_of(&hidden, 0), end_of(&hidden, 1)), *ends);
    }
    Ok(())
}

#[test]
fn finds_what_headers_in_listed_eraseblocks_name(rt: HostRuntime) -> Result<(), Fail> {
    for sizes in [SMALL, LARGE, LARGE_SHARED] {
        assert_found(&rt, rt.alloc(), &sizes)?;
    }
    Ok(())
}

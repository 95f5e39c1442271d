//! The record of a section's volume.

use std::test::Fail;
use ubi_config::{ConfigCause, parse_config};
use ubi_media::RecFault;
use ubi_probe::pebs::small;

/// The lines of a section, the bytes of its image file, and how many eraseblocks of 384 bytes the volume reserves, or
/// why it has no record.
static RECORDS: [(&[u8], Option<u64>, Result<u32, ConfigCause>); 15] = [
    (b"vol_size=384", None, Ok(1)),
    (b"vol_size=385", Some(1), Ok(2)),
    (b"image=a", Some(1), Ok(1)),
    // The alignment leaves 256 bytes of each eraseblock.
    (b"image=a\nvol_alignment=256", Some(768), Ok(3)),
    (b"image=a", Some(0), Err(ConfigCause::Empty)),
    (
        b"image=a\nvol_size=1\nvol_alignment=65",
        Some(0),
        Err(ConfigCause::Empty),
    ),
    // A static volume may be empty, and reserves an eraseblock then, or those of its size.
    (b"image=a\nvol_type=static", Some(0), Ok(1)),
    (b"image=a\nvol_type=static\nvol_size=769", Some(0), Ok(3)),
    (
        b"image=a\nvol_type=static\nvol_alignment=65",
        Some(0),
        Err(ConfigCause::Record(RecFault::AlignmentPage)),
    ),
    (b"image=a\nvol_size=768", Some(768), Ok(2)),
    (
        b"image=a\nvol_size=768\nvol_alignment=0",
        Some(769),
        Err(ConfigCause::LongImage),
    ),
    (
        b"image=a\nvol_alignment=0",
        Some(1),
        Err(ConfigCause::Record(RecFault::Alignment)),
    ),
    (
        b"vol_size=8192GiB\nvol_alignment=65",
        None,
        Err(ConfigCause::Record(RecFault::AlignmentPage)),
    ),
    // 2^31 - 1 eraseblocks, and one byte more.
    (b"vol_size=824633720448", None, Ok(2_147_483_647)),
    (b"vol_size=824633720449", None, Err(ConfigCause::TooLarge)),
];

#[test]
fn gives_records(rt: HostRuntime) -> Result<(), Fail> {
    let geometry = small()?;
    for (index, (lines, image_len, want)) in RECORDS.iter().enumerate() {
        let mut text = Vec::from_slice(rt.alloc(), b"[v]\nmode=ubi\nvol_id=1\nvol_name=v\n")?;
        text.extend_from_slice(lines)?;
        let Ok(sections) = parse_config(rt.alloc(), text.as_slice()) else {
            return Err("not read".into());
        };
        assert_eq!(rt; sections.len(), 1);
        let reserved = match sections[0].record(&geometry, *image_len) {
            Ok(record) => Ok(record.reserved),
            Err(cause) => Err(cause),
        };
        assert!(rt; reserved == *want, "case {index}");
    }
    Ok(())
}

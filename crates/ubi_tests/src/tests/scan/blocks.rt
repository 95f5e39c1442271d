//! Images cut into eraseblocks.

use std::test::Fail;
use ubi_media::{EcHeader, EcRead, Refusal, VidRead};
use ubi_probe::headers::{CHECK_OF_37, COPY};
use ubi_probe::pebs::{Data, ERASED, Ec, Peb, TORN, Vid, small, small_image};
use ubi_scan::Blocks;

/// How many bytes there are, and for what cause they are no image, if they aren't.
static LENGTHS: [(usize, Option<Refusal>); 7] = [
    (0, Some(Refusal::Length)),
    (511, Some(Refusal::Length)),
    (512, None),
    (513, Some(Refusal::Length)),
    (32 * 512, None),
    (32 * 512 + 1, Some(Refusal::TooMany)),
    (33 * 512, Some(Refusal::TooMany)),
];

#[test]
fn refuses_what_is_no_image(rt: HostRuntime) -> Result<(), Fail> {
    let bytes = [0xFF; 33 * 512];
    for (len, cause) in &LENGTHS {
        let bytes = bytes.get(..*len).ok_or("too short")?;
        let refused = Blocks::new(&small()?, bytes).err();
        assert!(rt; refused == *cause, "of {len} bytes");
    }
    Ok(())
}

/// An eraseblock that holds a copy, with counter 3 in the image 4.
const COPIED_3: Peb = Peb(
    Ec::Of(3, 4),
    Vid::Copy(0, 64, CHECK_OF_37, 7),
    Data::Fill(b'7', 384),
);

/// What the headers of an eraseblock are.
static HEADERS: [(u32, EcRead, VidRead); 3] = [
    (0, EcRead::Blank, VidRead::Blank),
    (
        1,
        EcRead::Valid(EcHeader {
            counter: 3,
            image_seq: 4,
        }),
        VidRead::Valid(COPY),
    ),
    (2, EcRead::Corrupt, VidRead::Corrupt),
];

#[test]
fn lends_the_parts_of_eraseblocks_and_reads_their_headers(rt: HostRuntime) -> Result<(), Fail> {
    let bytes = small_image(rt.alloc(), &[ERASED, COPIED_3, TORN])?;
    let blocks = Blocks::new(&small()?, bytes.as_slice())?;
    assert!(rt; blocks.count() == 3);
    assert!(rt; blocks.geometry() == small()?);
    assert!(rt; blocks.bytes() == bytes.as_slice());
    assert!(rt; Some(blocks.block(1)) == bytes.as_slice().get(512..1024));
    assert!(rt; blocks.leb(1) == [0x37; 384].as_slice());
    for (p, ec, vid) in &HEADERS {
        assert!(rt; *p < blocks.count());
        assert!(rt;
            blocks.ec(*p) == *ec && blocks.vid(*p) == *vid,
            "eraseblock {p}"
        );
    }
    Ok(())
}

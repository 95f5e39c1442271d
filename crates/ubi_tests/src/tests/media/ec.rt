//! Bytes and readings of erase-counter headers.

use std::test::Fail;
use ubi_media::{
    EcFault, EcHeader, EcOffsets, EcRead, EcStart, Geometry, read_ec, read_start, write_ec,
};
use ubi_probe::header_bytes::NAMED_EC;
use ubi_probe::pebs::small;

#[test]
fn writes_and_reads_headers_up_to_the_largest_counter(rt: HostRuntime) -> Result<(), Fail> {
    let geometry = small()?;
    let header = EcHeader {
        counter: 0,
        image_seq: 0x1234_5678,
    };
    assert!(rt; write_ec(&geometry, &header) == NAMED_EC);
    assert!(rt; read_ec(&geometry, &NAMED_EC) == EcRead::Valid(header));
    let other = Geometry::new(512, 64, 64, 192, 32)?;
    assert!(rt; read_ec(&other, &NAMED_EC) == EcRead::Fault(EcFault::Offsets));
    let offsets = EcOffsets {
        vid_offset: 64,
        data_offset: 128,
    };
    assert!(rt; read_start(&NAMED_EC) == EcStart::Header(offsets));
    assert!(rt; read_start(&[0xFF; 64]) == EcStart::Blank);
    for (counter, fault) in [(0x7FFF_FFFF, None), (0x8000_0000, Some(EcFault::Counter))] {
        let header = EcHeader {
            counter,
            image_seq: 0,
        };
        let read = match fault {
            Some(fault) => EcRead::Fault(fault),
            None => EcRead::Valid(header),
        };
        assert!(rt; read_ec(&geometry, &write_ec(&geometry, &header)) == read);
    }
    Ok(())
}

#[test]
fn reads_what_is_no_header(rt: HostRuntime) -> Result<(), Fail> {
    let geometry = small()?;
    assert!(rt; read_ec(&geometry, &[0xFF; 64]) == EcRead::Blank);
    assert!(rt; read_ec(&geometry, &[0; 64]) == EcRead::Corrupt);
    for at in 0..64 {
        let mut torn = NAMED_EC;
        torn[at] ^= 0x10;
        assert!(rt; read_ec(&geometry, &torn) == EcRead::Corrupt, "at {at}");
        let mut nearly_blank = [0xFF; 64];
        nearly_blank[at] = 0xFE;
        assert!(rt;
            read_ec(&geometry, &nearly_blank) == EcRead::Corrupt,
            "at {at}"
        );
    }
    Ok(())
}

//! A scan that is refused memory.

use std::test::Fail;
use ubi_media::{AttachError, EcHeader, Geometry, GeometryError, VidHeader, write_ec, write_vid};
use ubi_probe::headers::PLAIN;
use ubi_scan::{Blocks, Scan, scan};

/// So many members make each map and the list of states grow several times.
const MEMBERS: usize = 40;

/// A device that has room for them.
fn device() -> Result<Geometry, GeometryError> {
    Geometry::new(512, 64, 64, 128, 64)
}

/// An image of members of volume 0, two of each logical eraseblock, the second newer. It takes no memory.
fn members() -> Result<[u8; MEMBERS * 512], GeometryError> {
    let mut bytes = [0xFF; MEMBERS * 512];
    let counter = EcHeader {
        counter: 1,
        image_seq: 2,
    };
    let ec = write_ec(&device()?, &counter);
    for p in 0..MEMBERS {
        let vid = write_vid(&VidHeader {
            lnum: p as u32 / 2,
            sqnum: p as u64 + 3,
            ..PLAIN
        });
        let start = p * 512;
        bytes[start..start + 64].copy_from_slice(&ec);
        bytes[start + 64..start + 128].copy_from_slice(&vid);
    }
    Ok(bytes)
}

/// Whether of each logical eraseblock the second member wins, and there are no others.
fn has_members(found: &Scan) -> bool {
    let mut has = found.next_winner(0, MEMBERS as u32 / 2).is_none();
    for lnum in 0..MEMBERS as u32 / 2 {
        has = has && found.winner(0, lnum) == Some(2 * lnum + 1);
    }
    has
}

/// The script check/second/refuse.sh refuses each growth of memory in turn, and looks for the line that is printed
/// here.
#[test]
fn finds_all_or_runs_out_of_memory(rt: HostRuntime) -> Result<(), Fail> {
    let bytes = members()?;
    let blocks = Blocks::new(&device()?, &bytes)?;
    match scan(rt.alloc(), &blocks) {
        Ok(found) => {
            assert!(rt; has_members(&found));
            let numbers = (found.top_sqnum(), found.image_seq(), found.mean_ec());
            assert!(rt; numbers == (42, 2, 1));
        }
        Err(error) => {
            assert!(rt; error == AttachError::Memory);
            println!(rt; "out of memory")?;
        }
    }
    Ok(())
}

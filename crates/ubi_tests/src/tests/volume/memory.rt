//! Attaching and reading where memory is refused.

use super::images::{BASE, BASE_TEXT, attach_bytes, text_of};
use std::alloc::{AllocError, Global};
use std::test::Fail;
use ubi_media::{AttachError, Geometry};
use ubi_probe::pebs::{image_of, small};
use ubi_probe::texts::bytes_of;
use ubi_volume::ReadError;

/// What volume 0 of an image reads.
fn text_read(alloc: Global, image: &[u8]) -> Result<Result<Vec<u8>, AllocError>, Fail> {
    let attached = match attach_bytes(alloc, image)? {
        Ok(attached) => attached,
        Err(AttachError::Memory) => return Ok(Err(AllocError)),
        Err(AttachError::Refused(_)) => return Err("refused".into()),
    };
    match text_of(alloc, attached.meaning(), 0) {
        Ok(text) => Ok(Ok(text)),
        Err(ReadError::Memory) => Ok(Err(AllocError)),
        Err(_) => Err("not read".into()),
    }
}

/// Whether volume 0 of an image reads what it should. If not, memory ran out.
fn reads_all(alloc: Global, geometry: &Geometry) -> Result<Result<bool, AllocError>, Fail> {
    let Ok(image) = image_of(alloc, geometry, &BASE) else {
        return Ok(Err(AllocError));
    };
    let Ok(text) = text_read(alloc, image.as_slice())? else {
        return Ok(Err(AllocError));
    };
    match bytes_of(alloc, BASE_TEXT) {
        Ok(want) => Ok(Ok(text == want)),
        Err(AllocError) => Ok(Err(AllocError)),
    }
}

/// The script check/second/refuse.sh refuses each growth of memory in turn, and looks for the line that is printed
/// here.
#[test]
fn reads_all_or_runs_out_of_memory(rt: HostRuntime) -> Result<(), Fail> {
    match reads_all(rt.alloc(), &small()?)? {
        Ok(reads) => assert!(rt; reads),
        Err(AllocError) => println!(rt; "out of memory")?,
    }
    Ok(())
}

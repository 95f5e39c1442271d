//! The file of the text that the words of `compose` name.

ghost use Rattle.std.specs.Io.KnownBytes.{Consumes};
ghost use Rattle.std.specs.Prelude.{◌≡◌, ◌≢◌, ◌+◌, ◌≤◌, IfErr, IfOk, IfSome, None, OnErr, length, vec_len};
ghost use Rattle.ubi_media.specs.Limits.{first_broken};
ghost use Rattle.ubi_files.specs.Disk.{IsTextOf};
ghost use Rattle.ubi_files.specs.Numbers.{sizes_of};
ghost use Rattle.ubi_files.specs.OverFile.{IsUnread};
ghost use Rattle.ubi_writing.specs.Outputs.{text_limit};
ghost use Rattle.ubi_files.specs.Told.{Tells};
ghost use Rattle.ubi_files.specs.Read.{TakesAtMost};

use std::alloc::Global;
use std::io::Read;
use ubi_files::{
    Disk, Numbers, ToolError, Unread, WholeFile, allowed_geometry, read_limited, unread_file,
};
use ubi_media::Geometry;

/// A text, and the geometry that the words give the image.
#[derive(Drop)]
pub struct SpecFile {
    /// The geometry of the device.
    pub geometry: Geometry,
    /// The bytes of the text.
    pub text: Vec<u8>,
}

/// The most bytes that a text may have: four for each byte of the device, so that all of them can be written in
/// hexadecimal with room to spare, and 65,536 more.
fn text_limit(geometry: &Geometry) -> u64
    ensures { result ≡ text_limit geometry.now }
{
    4 * (u64::from(geometry.pebs()) * u64::from(geometry.peb_size())) + 65_536
}

/// All bytes of a file.
///
/// # Errors
///
/// `Read` if a read fails, or if there are more bytes than a text may have. `Memory` if memory ran out.
fn read_text<F: Read>(
    alloc: Global,
    file: &mut WholeFile<F>,
    geometry: &Geometry,
) -> Result<Vec<u8>, ToolError>
    ensures bytes { IfOk result (λ v. IfSome (F.remaining file.old.reader) (λ xs. v.items ≡ xs)) }
    ensures few { IfOk result (λ v. vec_len v ≤ text_limit geometry.now) }
    ensures rest { IfOk result (λ v. Consumes (F.remaining file.old.reader) (F.remaining file.new.reader) v.items) }
    ensures taken { OnErr result (TakesAtMost (text_limit geometry.now + 1) (F.remaining file.old.reader) (F.remaining file.new.reader)) }
    ensures err { IfErr result (λ e. e ≢ ToolError.Write) }
{
    let expected = file.expected;
    let limit = text_limit(geometry);
    let text = read_limited(alloc, &mut file.reader, limit + 1, expected)?;
    if text.len() as u64 > limit {
        return Err(ToolError::Read);
    }
    Ok(text)
}

/// The bytes of the text at a path.
fn read_spec<D: Disk>(
    disk: &D,
    alloc: Global,
    geometry: &Geometry,
    path: &str,
) -> Result<Vec<u8>, ToolError>
    ensures few { IfOk result (λ v. vec_len v ≤ text_limit geometry.now) }
    ensures named { IfOk result (λ v. IsTextOf (D.files disk.now) path.now v.items) }
{
    read_text(alloc, &mut disk.whole(path)?, geometry)
}

/// Reads the text of a path, once its geometry is known to break no limit.
///
/// # Errors
///
/// The line of the first limit that the numbers break; that of a file that can't be read, or is too long; or that
/// memory ran out.
pub fn load_spec<D: Disk>(
    disk: &D,
    alloc: Global,
    numbers: Numbers,
    path: &str,
) -> Result<SpecFile, Unread>
    ensures geometry { IfOk result (λ f. f.geometry ≡ sizes_of numbers) }
    ensures limits { IfOk result (λ _. first_broken (sizes_of numbers) ≡ None) }
    ensures few { IfOk result (λ f. length f.text.items ≤ text_limit (sizes_of numbers)) }
    ensures named { IfOk result (λ f. IsTextOf (D.files disk.now) path.now f.text.items) }
    ensures unread { IfErr result (Tells (IsUnread numbers path.now)) }
{
    let geometry = allowed_geometry(alloc, numbers)?;
    match read_spec(disk, alloc, &geometry, path) {
        Ok(text) => Ok(SpecFile { geometry, text }),
        Err(error) => Err(unread_file(alloc, path, error)),
    }
}

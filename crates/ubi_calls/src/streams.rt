//! The calls that answer with the bytes of a file, which are written to the caller's buffer as they are made.

ghost use Rattle.std.specs.Prelude.{◌≡◌, ◌≤◌, ◌<◌, [], IfErr, IfOk, IfSome, List, Some, drop, length, take, ℕ};
ghost use Rattle.ubi_scan.specs.Image.{image_of};
ghost use Rattle.ubi_calls.specs.Calls.{Fills, Streams, Under};
ghost use Rattle.ubi_calls.specs.Contents.{Normal, ReadsContents};
ghost use Rattle.ubi_calls.specs.inner.Streaming.{IsUnwritten, Writes, wanted};

use crate::answer::{NO_MEMORY, hand, hand_outcome, limit_outcome};
use crate::buffer::{Filling, Room};
use crate::numbers::{DeviceSizes, geometry_of};
use std::alloc::Global;
use std::io;
use std::io::Write;
use std::marker::Brand;
use ubi_compose::normalise_to;
use ubi_files::{DONE, Outcome, ToolError};
use ubi_media::Geometry;
use ubi_scan::MemorySource;
use ubi_volume::attach_places;
use ubi_writing::{VolumeKey, run_extract, run_normalise};

/// Which bytes are asked for.
#[derive(Clone, Copy)]
enum Content {
    /// What the volume with this number reads.
    Volume(u32),
    /// The normal image.
    Normal,
}

/// Writes what a volume of an image reads.
///
/// # Errors
///
/// `Write` if a write failed, and `Memory` if memory ran out.
fn write_volume<W: Write>(
    alloc: Global,
    geometry: &Geometry,
    image: &[u8],
    id: u32,
    writer: &mut W,
) -> Result<Outcome, ToolError>
    ensures ok { IfOk result (Writes (ReadsContents (image_of geometry.now image.now) id) (W.contents writer.old) (W.contents writer.new)) }
    ensures err { IfErr result (IsUnwritten (ReadsContents (image_of geometry.now image.now) id) (W.contents writer.old) (W.contents writer.new)) }
{
    run_extract(alloc, geometry, image, VolumeKey::Id(id), writer)
}

/// Writes the normal image of an image.
///
/// # Errors
///
/// `Write` if a write failed, and `Memory` if memory ran out.
fn write_normal<W: Write>(
    alloc: Global,
    geometry: &Geometry,
    image: &[u8],
    writer: &mut W,
) -> Result<Outcome, ToolError>
    ensures ok { IfOk result (Writes (Normal (image_of geometry.now image.now)) (W.contents writer.old) (W.contents writer.new)) }
    ensures err { IfErr result (IsUnwritten (Normal (image_of geometry.now image.now)) (W.contents writer.old) (W.contents writer.new)) }
{
    let mut source = MemorySource::new(image);
    run_normalise(alloc, geometry, &mut source, writer)
}

/// How many bytes a volume of an image reads, if it can be read. None of its contents are read.
fn volume_len(alloc: Global, geometry: &Geometry, image: &[u8], id: u32) -> Option<usize>
    ensures { IfSome result (λ n. (bytes : List ℕ) × ReadsContents (image_of geometry.now image.now) id bytes 0 × (n ≡ length bytes)) }
{
    let mut source = MemorySource::new(image);
    let Ok(places) = attach_places(alloc, geometry, &mut source) else {
        return None;
    };
    match places.extent(id) {
        Ok(extent) => Some(extent.bytes as usize),
        Err(_) => None,
    }
}

/// How many bytes the normal image of an image has, if the image is accepted. It is made once more, and written nowhere.
fn normal_len(alloc: Global, geometry: &Geometry, image: &[u8]) -> Option<usize>
    ensures { IfSome result (λ n. (bytes : List ℕ) × Normal (image_of geometry.now image.now) bytes 0 × (n ≡ length bytes)) }
{
    let mut source = MemorySource::new(image);
    match normalise_to(alloc, geometry, &mut source, &mut io::sink()) {
        Ok(count) => Some(count as usize),
        Err(_) => None,
    }
}

impl Content {
    /// Writes the bytes.
    ///
    /// # Errors
    ///
    /// `Write` if a write failed, and `Memory` if memory ran out.
    fn write<W: Write>(
        self,
        alloc: Global,
        geometry: &Geometry,
        image: &[u8],
        writer: &mut W,
    ) -> Result<Outcome, ToolError>
        ensures ok { IfOk result (Writes (wanted self (image_of geometry.now image.now)) (W.contents writer.old) (W.contents writer.new)) }
        ensures err { IfErr result (IsUnwritten (wanted self (image_of geometry.now image.now)) (W.contents writer.old) (W.contents writer.new)) }
    {
        match self {
            Content::Volume(id) => write_volume(alloc, geometry, image, id, writer),
            Content::Normal => write_normal(alloc, geometry, image, writer),
        }
    }

    /// How many bytes there are, if they can be written.
    fn len(self, alloc: Global, geometry: &Geometry, image: &[u8]) -> Option<usize>
        ensures { IfSome result (λ n. (bytes : List ℕ) × wanted self (image_of geometry.now image.now) bytes 0 × (n ≡ length bytes)) }
    {
        match self {
            Content::Volume(id) => volume_len(alloc, geometry, image, id),
            Content::Normal => normal_len(alloc, geometry, image),
        }
    }

    /// Says how many bytes there are, when a full buffer has the first of them; returns the status.
    fn count<K: Room>(
        self,
        alloc: Global,
        geometry: &Geometry,
        image: &[u8],
        out: &[u8],
        len: &mut usize,
    ) -> u32
        requires room { length out.now ≡ length K.before }
        requires first { IsUnwritten (wanted self (image_of geometry.now image.now)) (Some []) (Some out.now) ToolError.Write }
        ensures { Streams (wanted self (image_of geometry.now image.now)) K.before out.now len.new result }
    {
        match self.len(alloc, geometry, image) {
            Some(count) => {
                *len = count;
                u32::from(DONE)
            }
            None => {
                *len = 0;
                NO_MEMORY
            }
        }
    }

    /// Says what a buffer holds, of which `filled` bytes were filled; returns the status.
    fn end<K: Room>(
        self,
        alloc: Global,
        geometry: &Geometry,
        image: &[u8],
        work: Result<Outcome, ToolError>,
        filled: usize,
        out: &mut [u8],
        len: &mut usize,
    ) -> u32
        requires within { filled ≤ length out.old }
        requires room { length out.old ≡ length K.before }
        requires rest { drop filled out.old ≡ drop filled K.before }
        requires ok { IfOk work (Writes (wanted self (image_of geometry.now image.now)) (Some []) (Some (take filled out.old))) }
        requires err { IfErr work (IsUnwritten (wanted self (image_of geometry.now image.now)) (Some []) (Some (take filled out.old))) }
        ensures { Streams (wanted self (image_of geometry.now image.now)) K.before out.new len.new result }
    {
        match work {
            Ok(outcome) => {
                if outcome.status == DONE {
                    *len = filled;
                    return u32::from(DONE);
                }
                hand(outcome.text.as_slice(), outcome.status, out, len)
            }
            Err(ToolError::Write) if filled == out.len() => {
                self.count::<K>(alloc, geometry, image, out, len)
            }
            Err(_) => {
                *len = 0;
                NO_MEMORY
            }
        }
    }

    /// Fills a buffer, and returns it with the status.
    fn fill<'a, K: Room>(
        self,
        alloc: Global,
        geometry: &Geometry,
        image: &[u8],
        out: &'a mut [u8],
        len: &mut usize,
    ) -> (&'a mut [u8], u32)
        requires same { out.ghost_name ≡ K.buffer }
        requires before { out.old ≡ K.before }
        ensures same { result.0.ghost_name ≡ K.buffer }
        ensures told { Streams (wanted self (image_of geometry.now image.now)) K.before result.0.now len.new result.1 }
    {
        let mut writer: Filling<'a, K> = Filling::new(out);
        let work = self.write(alloc, geometry, image, &mut writer);
        let (out, filled) = writer.into_parts();
        let status = self.end::<K>(alloc, geometry, image, work, filled, out, len);
        (out, status)
    }

    /// Fills a buffer; returns the status.
    fn fill_all(
        self,
        alloc: Global,
        geometry: &Geometry,
        image: &[u8],
        out: &mut [u8],
        len: &mut usize,
    ) -> u32
        ensures { Streams (wanted self (image_of geometry.now image.now)) out.old out.new len.new result }
    {
        let (_, status) = self.fill::<Brand>(alloc, geometry, image, out, len);
        status
    }

    /// Fills a buffer under numbers; returns the status.
    fn tell(
        self,
        alloc: Global,
        sizes: &DeviceSizes,
        image: &[u8],
        out: &mut [u8],
        len: &mut usize,
    ) -> u32
        ensures { Streams (Under sizes.now (λ s. wanted self (image_of s image.now))) out.old out.new len.new result }
    {
        match geometry_of(sizes) {
            Ok(geometry) => self.fill_all(alloc, &geometry, image, out, len),
            Err(limit) => hand_outcome(limit_outcome(alloc, limit), out, len),
        }
    }
}

/// The contents of the volume with this number, or the line of the refusal, as `extract` prints it.
pub fn read(
    alloc: Global,
    sizes: &DeviceSizes,
    image: &[u8],
    id: u32,
    out: &mut [u8],
    len: &mut usize,
) -> u32
    ensures { Streams (Under sizes.now (λ s. ReadsContents (image_of s image.now) id)) out.old out.new len.new result }
{
    Content::Volume(id).tell(alloc, sizes, image, out, len)
}

/// The normal image, or the line of the refusal, as `normalise` prints it.
pub fn normalise(
    alloc: Global,
    sizes: &DeviceSizes,
    image: &[u8],
    out: &mut [u8],
    len: &mut usize,
) -> u32
    ensures { Streams (Under sizes.now (λ s. Normal (image_of s image.now))) out.old out.new len.new result }
{
    Content::Normal.tell(alloc, sizes, image, out, len)
}

//! An image that is attached: what it means, and the state of each of its eraseblocks.

ghost use Rattle.std.specs.FinMap as finite;
ghost use Rattle.std.specs.Prelude.{◌≡◌, ◌<◌, Some, length, slice_get, IfErr, IfOk, ℕ, ◌*◌, ◌≤◌, List, Ok, false};
ghost use Rattle.ubi_media.specs.Geometry.{leb_size};
ghost use Rattle.ubi_media.specs.Record.{rec_fault};
ghost use Rattle.ubi_media.specs.declared.vid.VolKind.TheVariants.{Dynamic};
ghost use Rattle.ubi_scan.specs.Image.{image_of};
ghost use Rattle.ubi_scan.specs.Source.{Narrows, WhereHeld, blocks_in};
ghost use Rattle.ubi_scan.specs.Stream.{IsReadFailure, NamesBlock, after};
ghost use Rattle.ubi_volume.specs.Accepts.{IsAttachError, Accepts};
ghost use Rattle.ubi_volume.specs.Attached.{IsAttached};
ghost use Rattle.ubi_volume.specs.Extract.{extent_in, read_text};
ghost use Rattle.ubi_volume.specs.Places.{ArePlacesError, ArePlacesOf};
ghost use Rattle.ubi_volume.specs.Survey.{IsAttachedOf};
ghost use Rattle.ubi_volume.specs.inner.Gathered.{IsContentOf};

use crate::block::is_kept;
use crate::cases::cases_from;
use crate::content::{Bytes, Content, Lebs, Volume};
use crate::extract::write_places;
use crate::meaning::Meaning;
use crate::places::{Extent, PlaceContent, Places};
use crate::surveyed::{Checked, Surveyed, checked_from, states_of};
use std::alloc::{AllocError, Global};
use std::marker::Model;
use ubi_media::{AttachError, Geometry, VolumeRecord};
use ubi_scan::{BlockSource, MemorySource, StreamError};

/// The state that attaching finds for an eraseblock.
#[derive(Clone, Copy, Debug, PartialEq, Eq)]
pub enum BlockState {
    /// The erase-counter header is blank.
    Blank,
    /// The erase-counter header can be read, and the volume-identifier header is blank.
    Free,
    /// The erase-counter header can be read, and the volume-identifier header is corrupt.
    Garbage,
    /// The erase-counter header is corrupt, and the volume-identifier header is corrupt or blank.
    Corrupt,
    /// It belongs to an internal volume that may be dropped.
    Dropped,
    /// It is a member of a volume without a record, or is beyond what its dynamic volume reserves.
    Orphan,
    /// It wins a logical eraseblock of the layout volume.
    Table,
    /// It is any other winner.
    Used,
    /// It is any other member.
    Stale,
}

/// The meaning of an image, and what is known of its eraseblocks.
#[derive(Drop)]
pub struct Attached {
    pub(crate) meaning: Meaning,
    pub(crate) surveyed: Surveyed,
}

impl Model for Attached {
    ghost use Rattle.ubi_volume.specs.Attached.{AttachValue};
    ghost use Rattle.ubi_volume.specs.Coded.{whole_code};

    ghost Value = { AttachValue };

    ghost coded = { whole_code };

    ghost view = { λ a. record { meaning = a.meaning; scan = a.surveyed.scan; states = a.surveyed.states } };
}

impl Attached {
    /// What the image means.
    pub fn meaning(&self) -> &Meaning
        ensures { result.now ≡ self.now.meaning }
    {
        &self.meaning
    }

    /// The state of each eraseblock, in ascending order.
    pub fn states(&self) -> &[BlockState]
        ensures { result.now ≡ self.now.states }
    {
        self.surveyed.states()
    }

    /// The state of an eraseblock.
    pub fn state(&self, p: u32) -> BlockState
        requires { p < length self.now.states }
        ensures { slice_get self.now.states p ≡ Some result }
    {
        self.surveyed.state(p)
    }

    /// The eraseblock that wins a logical eraseblock of a volume, `None` if that has no member.
    pub fn winner(&self, vol: u32, lnum: u32) -> Option<u32>
        ensures { result ≡ finite.get self.now.scan.winners (vol, lnum) }
    {
        self.surveyed.winner(vol, lnum)
    }

    /// The greatest sequence number of a member or a dropped eraseblock, 0 if there is none.
    pub fn top_sqnum(&self) -> u64
        ensures { result ≡ self.now.scan.top_sqnum }
    {
        self.surveyed.top_sqnum()
    }

    /// The image sequence number: the first one that isn't zero, 0 if there is none.
    pub fn image_seq(&self) -> u32
        ensures { result ≡ self.now.scan.image_seq }
    {
        self.surveyed.image_seq()
    }

    /// The number of carriers: the eraseblocks whose erase-counter header can be read and has an image sequence number
    /// that isn't zero.
    pub fn carriers(&self) -> u32
        ensures { result ≡ self.now.scan.carriers }
    {
        self.surveyed.carriers()
    }

    /// The mean of the erase counters that can be read, rounded down, 0 if there are none.
    pub fn mean_ec(&self) -> u32
        ensures { result ≡ self.now.scan.mean_ec }
    {
        self.surveyed.mean_ec()
    }
}

/// Attaches the image of a source: finds what it means, and the state of each of its eraseblocks. It surveys the
/// image and finds its places, and then reads each logical eraseblock by its place.
///
/// # Errors
///
/// As [`crate::attach_places`].
pub fn attach_from<S: BlockSource>(
    alloc: Global,
    geometry: &Geometry,
    source: &mut S,
) -> Result<Attached, StreamError>
    ensures known { S.known source.new ≡ after (S.known source.old) result }
    ensures narrows { Narrows (S.agrees source.old) (S.agrees source.new) }
    ensures attached { IfOk result (IsAttachedOf geometry.now (S.agrees source.new)) }
    ensures refused { IfErr result (ArePlacesError geometry.now (S.known source.old) (S.agrees source.new)) }
    ensures named { IfErr result (NamesBlock geometry.now (S.failed_at source.new)) }
{
    let Checked { scan, table, count } = checked_from(alloc, geometry, source)?;
    let states = states_of(alloc, &scan, &table, count)?;
    let mut buffer = Vec::from_elem(alloc, 0u8, geometry.peb_size() as usize)?;
    let buffer = buffer.as_mut_slice();
    let contents = cases_from(alloc, geometry, source, &scan, &table, buffer)?;
    let places = Places {
        table,
        scan,
        contents,
    };
    let meaning = places.meaning_from(alloc, geometry, source, buffer)?;
    let surveyed = Surveyed {
        scan: places.scan,
        table: places.table,
        states,
    };
    Ok(Attached { meaning, surveyed })
}

/// Attaches an image: finds what it means, and the state of each of its eraseblocks.
///
/// # Errors
///
/// `Refused` with the first cause that applies: `TooMany` or `Length` for its size, then the first fault of its
/// lowest eraseblock that has one, then the fault of its volume table, then `Mismatch`. `Memory` if memory ran out.
pub fn attach(alloc: Global, geometry: &Geometry, image: &[u8]) -> Result<Attached, AttachError>
    ensures attached { IfOk result (IsAttached (image_of geometry.now image.now)) }
    ensures refused { IfErr result (IsAttachError (image_of geometry.now image.now)) }
{
    match attach_from(alloc, geometry, &mut MemorySource::new(image)) {
        Ok(attached) => Ok(attached),
        Err(StreamError::Refused(cause)) => Err(AttachError::Refused(cause)),
        Err(StreamError::Memory) => Err(AttachError::Memory),
        // No read fails, and nothing is written.
        Err(StreamError::Read(..) | StreamError::Write(_)) => unreachable!(),
    }
}

/// What a static volume reads, by its extent.
fn static_text<S: BlockSource>(
    alloc: Global,
    geometry: &Geometry,
    source: &mut S,
    places: &Places,
    id: u32,
    extent: Extent,
    buffer: &mut [u8],
) -> Result<Bytes, StreamError>
    requires places { ArePlacesOf geometry.now (S.known source.old) (S.agrees source.old) places.now }
    requires reads { extent_in places.now id ≡ Ok extent }
    requires size { extent.size ≤ leb_size geometry.now }
    requires room { length buffer.old ≡ geometry.now.peb_size }
    ensures known { S.known source.new ≡ after (S.known source.old) result }
    ensures narrows { Narrows (S.agrees source.old) (S.agrees source.new) }
    ensures read { IfOk result (λ text. WhereHeld (S.agrees source.new) (λ bytes. (all : List ℕ) → read_text geometry.now places.now id bytes all → text ≡ all)) }
    ensures most { IfOk result (λ text. length text ≤ extent.lebs * extent.size) }
    ensures failed { IfErr result (IsReadFailure (blocks_in geometry.now (S.known source.old))) }
    ensures named { IfErr result (NamesBlock geometry.now (S.failed_at source.new)) }
{
    let mut text = Vec::new(alloc);
    match write_places(geometry, source, places, id, extent, buffer, &mut text) {
        Ok(_) => Ok(Bytes::new(text)),
        Err(StreamError::Read(p, _)) => Err(StreamError::Read(p, 0)),
        // A vector takes all bytes, unless it can't grow.
        Err(StreamError::Write(_)) => Err(StreamError::Memory),
        Err(StreamError::Refused(_) | StreamError::Memory) => unreachable!(),
    }
}

/// What a dynamic volume without the update marker reads.
fn dynamic_content<S: BlockSource>(
    alloc: Global,
    geometry: &Geometry,
    source: &mut S,
    places: &Places,
    id: u32,
    entry: &VolumeRecord,
    buffer: &mut [u8],
) -> Result<Content, StreamError>
    requires places { ArePlacesOf geometry.now (S.known source.old) (S.agrees source.old) places.now }
    requires sound { rec_fault geometry.now entry.now ≡ None }
    requires unmarked { entry.now.marker ≡ false }
    requires kind { entry.now.kind ≡ Dynamic }
    requires room { length buffer.old ≡ geometry.now.peb_size }
    ensures known { S.known source.new ≡ after (S.known source.old) result }
    ensures narrows { Narrows (S.agrees source.old) (S.agrees source.new) }
    ensures content { IfOk result (IsContentOf geometry.now (S.agrees source.new) id entry.now) }
    ensures failed { IfErr result (IsReadFailure (blocks_in geometry.now (S.known source.old))) }
    ensures named { IfErr result (NamesBlock geometry.now (S.failed_at source.new)) }
{
    let text = &mut buffer[..entry.usable(geometry) as usize];
    let mut lebs = Lebs::new(alloc);
    for lnum in 0..entry.reserved {
        if is_kept(geometry, source, places.place(id, lnum), text)? {
            lebs.insert(lnum, Bytes::new(Vec::from_slice(alloc, text)?))?;
        }
    }
    Ok(Content::Dynamic(lebs))
}

/// What a volume of the table reads.
fn content_from<S: BlockSource>(
    alloc: Global,
    geometry: &Geometry,
    source: &mut S,
    places: &Places,
    id: u32,
    entry: &VolumeRecord,
    buffer: &mut [u8],
) -> Result<Content, StreamError>
    requires places { ArePlacesOf geometry.now (S.known source.old) (S.agrees source.old) places.now }
    requires recorded { finite.get places.now.records.of id ≡ Some entry.now }
    requires sound { rec_fault geometry.now entry.now ≡ None }
    requires room { length buffer.old ≡ geometry.now.peb_size }
    ensures known { S.known source.new ≡ after (S.known source.old) result }
    ensures narrows { Narrows (S.agrees source.old) (S.agrees source.new) }
    ensures content { IfOk result (IsContentOf geometry.now (S.agrees source.new) id entry.now) }
    ensures failed { IfErr result (IsReadFailure (blocks_in geometry.now (S.known source.old))) }
    ensures named { IfErr result (NamesBlock geometry.now (S.failed_at source.new)) }
{
    match places.content(id) {
        PlaceContent::Updating => Ok(Content::Updating),
        PlaceContent::Damaged => Ok(Content::Damaged),
        PlaceContent::Static { lebs, bytes } => {
            let size = entry.usable(geometry);
            let extent = Extent { lebs, size, bytes };
            let text = static_text(alloc, geometry, source, places, id, extent, buffer)?;
            Ok(Content::Static(text))
        }
        PlaceContent::Dynamic => {
            dynamic_content(alloc, geometry, source, places, id, entry, buffer)
        }
    }
}

impl Places {
    /// What the image of a source means. The places are those that were found in the source. Each logical eraseblock is
    /// read at most once, into a buffer of the size of an eraseblock.
    ///
    /// # Errors
    ///
    /// `Read` if a read failed, with the count 0. `Memory` if memory ran out.
    pub fn meaning_from<S: BlockSource>(
        &self,
        alloc: Global,
        geometry: &Geometry,
        source: &mut S,
        buffer: &mut [u8],
    ) -> Result<Meaning, StreamError>
        requires places { ArePlacesOf geometry.now (S.known source.old) (S.agrees source.old) self.now }
        requires room { length buffer.old ≡ geometry.now.peb_size }
        ensures known { S.known source.new ≡ after (S.known source.old) result }
        ensures narrows { Narrows (S.agrees source.old) (S.agrees source.new) }
        ensures meaning { IfOk result (λ meaning. WhereHeld (S.agrees source.new) (λ bytes. Accepts (image_of geometry.now bytes) meaning)) }
        ensures failed { IfErr result (IsReadFailure (blocks_in geometry.now (S.known source.old))) }
        ensures named { IfErr result (NamesBlock geometry.now (S.failed_at source.new)) }
    {
        let mut volumes = Vec::new(alloc);
        for listed in self.table().entries() {
            let (id, entry) = *listed;
            let content = content_from(alloc, geometry, source, self, id, &entry, buffer)?;
            match volumes.push((id, Volume { entry, content })) {
                Ok(()) => {}
                Err(full) => return Err(AllocError::from(full).into()),
            }
        }
        Ok(Meaning::of(*geometry, self.image_seq(), volumes))
    }
}

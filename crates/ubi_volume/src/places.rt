//! An image that is attached without its contents: where each volume reads from, and how much.

ghost use Rattle.std.specs.FinMap as finite;
ghost use Rattle.std.specs.Prelude.{◌≡◌, ◌==◌, IfErr, IfOk, IsSome, Some, find, option_map, None, ◌≤◌};
ghost use Rattle.ubi_media.specs.Geometry.{leb_size};
ghost use Rattle.ubi_media.specs.Record.{rec_fault};
ghost use Rattle.ubi_scan.specs.Image.{Image};
ghost use Rattle.ubi_scan.specs.Source.{Narrows};
ghost use Rattle.ubi_scan.specs.Stream.{NamesBlock, after};
ghost use Rattle.ubi_volume.specs.Extract.{extent_in, extent_len, extent_of, share_len};
ghost use Rattle.ubi_volume.specs.Places.{ArePlacesError, ArePlacesOf, IsNextPlace, ArePlaces};
ghost use Rattle.ubi_volume.specs.Reading.{volume_len};

use crate::cases::cases_from;
use crate::errors::ReadError;
use crate::surveyed::{Checked, checked_from, is_within};
use std::alloc::Global;
use std::marker::Model;
use ubi_media::{Geometry, VolumeRecord};
use ubi_scan::{BlockSource, Scan, StreamError};
use ubi_table::Table;

/// What a volume reads, without its bytes.
#[derive(Clone, Copy, Debug, PartialEq, Eq)]
pub enum PlaceContent {
    /// An update of the volume began and didn't end: it can't be read.
    Updating,
    /// A static volume that isn't whole: it can't be read.
    Damaged,
    /// The contents of a static volume.
    Static {
        /// How many logical eraseblocks hold them.
        lebs: u32,
        /// Their size in bytes.
        bytes: u64,
    },
    /// The logical eraseblocks of a dynamic volume.
    Dynamic,
}

/// The content with a number.
fn numbered(contents: &[(u32, PlaceContent)], id: u32) -> Option<PlaceContent>
    ensures { result ≡ option_map (λ e. e.1) (find (λ e. e.0 == id) contents.now) }
{
    contents.iter().find(|e| e.0 == id).map(|e| e.1)
}

/// The volume table of an image, the eraseblock of each logical eraseblock, and what each volume reads, without its
/// bytes.
#[derive(Drop)]
pub struct Places {
    pub(crate) table: Table,
    pub(crate) scan: Scan,
    /// What each volume reads, in ascending order.
    pub(crate) contents: Vec<(u32, PlaceContent)>,
}

impl Model for Places {
    ghost use Rattle.std.specs.FinMap as finite;
    ghost use Rattle.ubi_volume.specs.Places.{AreListed, Placed};
    ghost use Rattle.ubi_volume.specs.PlacesCoded.{placed_code};

    ghost Value = { Placed };

    ghost coded = { placed_code };

    ghost invariant = { λ p. AreListed p.table p.contents.items };

    ghost view = { λ p. record { records = p.table; winners = p.scan.winners; contents = finite.from_entries p.contents.items; image_seq = p.scan.image_seq } };
}

impl Places {
    /// The volume table.
    pub fn table(&self) -> &Table
        ensures { result.now ≡ self.now.records }
    {
        &self.table
    }

    /// The image sequence number, 0 if no eraseblock names an image.
    pub fn image_seq(&self) -> u32
        ensures { result ≡ self.now.image_seq }
    {
        self.scan.image_seq()
    }

    /// The winner of a logical eraseblock, if it has one.
    pub fn place(&self, id: u32, lnum: u32) -> Option<u32>
        ensures { result ≡ finite.get self.now.winners (id, lnum) }
    {
        self.scan.winner(id, lnum)
    }

    /// The first logical eraseblock of a volume from `from` on that counts and has a winner, and that winner. All
    /// of a static volume count, and those of a dynamic one below what it reserves. `None` if there is none, or if
    /// the volume isn't in the table.
    pub fn next_place(&self, id: u32, from: u32) -> Option<(u32, u32)>
        ensures { IsNextPlace self.now id from result }
    {
        let entry = self.table.get(id)?;
        let (lnum, p) = self.scan.next_winner(id, from)?;
        if is_within(entry, lnum) {
            Some((lnum, p))
        } else {
            None
        }
    }

    /// What a volume reads, without its bytes.
    pub fn content(&self, id: u32) -> PlaceContent
        requires { IsSome (finite.get self.now.records.of id) }
        ensures { finite.get self.now.contents id ≡ Some result }
    {
        match numbered(&self.contents, id) {
            Some(content) => content,
            None => unreachable!(),
        }
    }
}

/// Attaches the image of a source: finds its volume table, the eraseblock of each logical eraseblock, and what its
/// volumes read. The CRCs of static volumes are checked here. At most one eraseblock of contents is held, and each
/// eraseblock is read at most 7 times.
///
/// # Errors
///
/// `Read` if a read failed, with the count 0. `Refused` with the first cause that applies, as [`crate::attach`]
/// says. `Memory` if memory ran out.
pub fn attach_places<S: BlockSource>(
    alloc: Global,
    geometry: &Geometry,
    source: &mut S,
) -> Result<Places, StreamError>
    ensures known { S.known source.new ≡ after (S.known source.old) result }
    ensures narrows { Narrows (S.agrees source.old) (S.agrees source.new) }
    ensures places { IfOk result (ArePlacesOf geometry.now (S.known source.old) (S.agrees source.new)) }
    ensures refused { IfErr result (ArePlacesError geometry.now (S.known source.old) (S.agrees source.new)) }
    ensures named { IfErr result (NamesBlock geometry.now (S.failed_at source.new)) }
{
    let Checked { scan, table, .. } = checked_from(alloc, geometry, source)?;
    let mut buffer = Vec::from_elem(alloc, 0u8, geometry.peb_size() as usize)?;
    let buffer = buffer.as_mut_slice();
    let contents = cases_from(alloc, geometry, source, &scan, &table, buffer)?;
    Ok(Places {
        table,
        scan,
        contents,
    })
}

/// The bytes that a volume reads, in the order of its logical eraseblocks: each holds as many as fit, and the last what
/// is left.
#[derive(Debug, Clone, Copy)]
pub struct Extent {
    /// How many logical eraseblocks hold them.
    pub lebs: u32,
    /// How many bytes fit into each.
    pub size: u32,
    /// How many bytes there are in all.
    pub bytes: u64,
}

impl Extent {
    /// The extent of what a volume with this record reads, by the case of its contents.
    ///
    /// # Errors
    ///
    /// `Updating` or `Damaged`: it can't be read.
    pub fn of(
        geometry: &Geometry,
        entry: &VolumeRecord,
        content: PlaceContent,
    ) -> Result<Extent, ReadError>
        requires { rec_fault geometry.now entry.now ≡ None }
        ensures value { result ≡ extent_of geometry.now entry.now content }
        ensures room { IfOk result (λ e. e.size ≤ leb_size geometry.now) }
    {
        let size = entry.usable(geometry);
        match content {
            PlaceContent::Updating => Err(ReadError::Updating),
            PlaceContent::Damaged => Err(ReadError::Damaged),
            PlaceContent::Static { lebs, bytes } => Ok(Extent { lebs, size, bytes }),
            PlaceContent::Dynamic => Ok(Extent {
                lebs: entry.reserved,
                size,
                bytes: u64::from(entry.reserved) * u64::from(size),
            }),
        }
    }
}

/// How many of a volume's bytes stand in a logical eraseblock: each holds as many as fit, and the last what is left.
pub fn share_len(size: u32, bytes: u64, lnum: u32) -> u32
    ensures { result ≡ share_len size bytes lnum }
{
    let before = u64::from(lnum) * u64::from(size);
    u64::from(size).min(bytes.saturating_sub(before)) as u32
}

impl Places {
    /// The extent of what a volume reads.
    ///
    /// # Errors
    ///
    /// The first of these that applies: `NoVolume`, `Updating`, `Damaged`.
    pub fn extent(&self, id: u32) -> Result<Extent, ReadError>
        ensures value { result ≡ extent_in self.now id }
        ensures room { IfOk result (λ e. e.size ≤ leb_size self.now.records.sizes) }
        ensures meant { (image : Image) (h : ArePlaces image self.now) → extent_len result ≡ volume_len h.meaning id }
    {
        match self.table().get(id) {
            Some(entry) => Extent::of(&self.table().geometry(), entry, self.content(id)),
            None => Err(ReadError::NoVolume),
        }
    }
}

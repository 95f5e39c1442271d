//! The normal image of volumes whose bytes lie in a source, into a writer.

ghost use Rattle.std.specs.Option.{ForSome};
ghost use Rattle.std.specs.Prelude.{◌≡◌, ◌≢◌, ◌+◌, ◌<◌, ◌≤◌, ◌==◌, Err, IfErr, IfOk, MatchOption, None, OnOk, find, map, option_copied};
ghost use Rattle.ubi_compose.specs.Building.{CanBuild, IsBuildError, IsNumberedPart, IsRefusedBuild, NamesVolume, WhereNotBegun, image_built, known_after};
ghost use Rattle.ubi_compose.specs.Built.{HaveMeaning, IsRecipeError, built, most_blocks};
ghost use Rattle.ubi_compose.specs.Composed.{composed};
ghost use Rattle.ubi_compose.specs.inner.Building.{HasParts, built_pieces, empty_of, part_at, stand_in_item};
ghost use Rattle.ubi_laid.specs.Parts.{Reaches};
ghost use Rattle.ubi_media.specs.Geometry.{IsGeometry};
ghost use Rattle.ubi_media.specs.Record.{rec_fault};
ghost use Rattle.ubi_scan.specs.Image.{image_of};
ghost use Rattle.ubi_scan.specs.Source.{Narrows, WhereHeld};
ghost use Rattle.ubi_volume.specs.Accepts.{Accepts};
ghost use Rattle.ubi_volume.specs.Wrote.{All, Wrote};

use crate::errors::{BuildError, PutError, RecipeError};
use crate::records::recipe_text;
use crate::sourced::{Contents, Device};
use crate::writer::put_image;
use std::alloc::{AllocError, Global};
use std::io::Write;
use std::marker::Model;
use ubi_laid::{Part, Piece, is_long, piece_count, piece_of};
use ubi_media::{Geometry, VolKind};
use ubi_scan::BlockSource;
use ubi_volume::{Bytes, Content, Lebs, Meaning, Volume};

/// How many eraseblocks the normal image has at most: as many as if no piece is 0xFF throughout.
fn most_blocks(recipe: &Recipe) -> u64
    ensures value { result ≡ most_blocks recipe.now }
    ensures few { result ≤ recipe.now.sizes.pebs }
{
    let geometry = recipe.geometry();
    let mut count = 2;
    for part in recipe.parts() {
        count += u64::from(piece_count(&geometry, part));
    }
    count
}

/// A part that has bytes beyond the end of a source of this size, if there is one.
fn part_beyond(recipe: &Recipe, size: u64) -> Option<&Part>
    ensures { MatchOption result (Reaches size recipe.now.of) (λ p. IsNumberedPart recipe.now p.now.id p.now × (size < p.now.start + p.now.len)) }
{
    recipe
        .parts()
        .iter()
        .find(|part| part.start > size || part.len > size - part.start)
}

/// Judges whether an image can be built from a source of this size, with `spares` spare eraseblocks.
///
/// # Errors
///
/// `TooMany`, or else `Beyond`.
fn judge(recipe: &Recipe, spares: u32, size: u64) -> Result<(), BuildError>
    ensures ok { OnOk result (CanBuild recipe.now spares size) }
    ensures refused { IfErr result (IsRefusedBuild recipe.now spares size) }
    ensures fits { spares ≡ 0 → result ≢ Err BuildError.TooMany }
{
    let geometry = recipe.geometry();
    if most_blocks(recipe) + u64::from(spares) > u64::from(geometry.pebs()) {
        return Err(BuildError::TooMany);
    }
    match part_beyond(recipe, size) {
        Some(part) => Err(BuildError::Beyond(part.id)),
        None => Ok(()),
    }
}

/// Writes the normal image of the meaning that the parts of a recipe have over the bytes of a source, followed by `spares`
/// spare eraseblocks, and returns how many bytes that is. It holds one eraseblock at a time, and allocates all memory
/// before it writes. Each byte of a part is read at most once.
///
/// # Errors
///
/// The first of these: `TooMany` if the table, the pieces of all volumes and the spares are more eraseblocks than the
/// device has, where a piece also counts if it is 0xFF throughout; never without spares. `Beyond` if the source doesn't
/// have all bytes of a part, `Memory` if memory ran out: then nothing is written. `Read` if a read failed, and `Write` if
/// a write failed, with how many bytes of the image were written before.
pub fn build_to<S: BlockSource, W: Write>(
    alloc: Global,
    recipe: &Recipe,
    spares: u32,
    source: &mut S,
    writer: &mut W,
) -> Result<u64, BuildError>
    ensures known { S.known source.new ≡ known_after (S.known source.old) result }
    ensures narrows { Narrows (S.agrees source.old) (S.agrees source.new) }
    ensures written { IfOk result (Wrote (S.agrees source.new) (W.contents writer.old) (W.contents writer.new) (image_built recipe.now spares) All 0) }
    ensures whole { IfOk result (λ _. CanBuild recipe.now spares (S.known source.old).size) }
    ensures accepted { IfOk result (λ _. WhereHeld (S.agrees source.new) (λ bytes. Accepts (image_of recipe.now.sizes (composed (built recipe.now bytes) spares)) (built recipe.now bytes))) }
    ensures untouched { IfErr result (WhereNotBegun (writer.new ≡ writer.old)) }
    ensures refused { IfErr result (IsBuildError recipe.now spares (S.known source.old) (S.agrees source.new) (W.contents writer.old) (W.contents writer.new)) }
    ensures fits { spares ≡ 0 → result ≢ Err BuildError.TooMany }
    ensures named { IfErr result (NamesVolume recipe.now (S.failed_at source.new)) }
{
    judge(recipe, spares, source.len())?;
    let device = recipe.device();
    let table = recipe_text(alloc, recipe)?;
    let mut buffer = Vec::from_elem(alloc, 0u8, device.geometry.peb_size() as usize)?;
    let (table, buffer) = (table.as_slice(), buffer.as_mut_slice());
    match put_image(&device, table, recipe, spares, source, buffer, writer) {
        Ok(total) => Ok(total),
        Err(PutError::Read(id, written)) => Err(BuildError::Read(id, written)),
        Err(PutError::Write(written)) => Err(BuildError::Write(written)),
    }
}

/// Volumes to build, which have a meaning together whatever their bytes are.
#[derive(Drop)]
pub struct Recipe {
    geometry: Geometry,
    image_seq: u32,
    /// The volumes, in the order in which they were given.
    parts: Vec<Part>,
}

impl Model for Recipe {
    ghost use Rattle.ubi_compose.specs.Built.{HaveMeaning, Parts};

    ghost Value = { Parts };

    ghost view = { λ r. record { sizes = r.geometry; image_seq = r.image_seq; of = r.parts.items } };

    ghost invariant = { λ r. HaveMeaning (record { sizes = r.geometry; image_seq = r.image_seq; of = r.parts.items }) };
}

/// A content with no bytes.
fn empty_content(alloc: Global, kind: VolKind) -> Content
    ensures { result ≡ empty_of kind }
{
    match kind {
        VolKind::Static => Content::Static(Bytes::new(Vec::new(alloc))),
        VolKind::Dynamic => Content::Dynamic(Lebs::new(alloc)),
    }
}

/// The volume of a part, after its number. It has no bytes in place of the part's; but if it can't have those, it has a content
/// that it can't have either.
fn stand_in(alloc: Global, geometry: &Geometry, part: &Part) -> (u32, Volume)
    ensures { result ≡ stand_in_item geometry.now part.now }
{
    let entry = part.entry;
    let content = if is_long(geometry, part) && !entry.marker {
        Content::Updating
    } else {
        empty_content(alloc, entry.kind)
    };
    (part.id, Volume { entry, content })
}

/// Such volumes of all parts.
fn stand_ins(
    alloc: Global,
    geometry: &Geometry,
    parts: &[Part],
) -> Result<Vec<(u32, Volume)>, AllocError>
    ensures { IfOk result (λ volumes. volumes.items ≡ map (stand_in_item geometry.now) parts.now) }
{
    let mut volumes = Vec::with_capacity(alloc, parts.len())?;
    for part in parts {
        volumes.push(stand_in(alloc, geometry, part))?;
    }
    Ok(volumes)
}

/// The first part whose volume has a number.
fn numbered(parts: &[Part], id: u32) -> Option<&Part>
    ensures { option_copied result ≡ find (λ p. p.id == id) parts.now }
{
    parts.iter().find(|part| part.id == id)
}

impl Recipe {
    /// A recipe for volumes with an image sequence number.
    ///
    /// # Errors
    ///
    /// `Refused` with the first cause for which the volumes have no meaning together, in the order of
    /// [`MeaningCause`](ubi_volume::MeaningCause). Its items are the parts. `ContentRange` comes if a part has more bytes
    /// than its volume's eraseblocks hold, or if its record has the update marker. `Memory` if memory ran out.
    pub fn new(
        alloc: Global,
        geometry: &Geometry,
        image_seq: u32,
        parts: Vec<Part>,
    ) -> Result<Recipe, RecipeError>
        ensures made { IfOk result (λ recipe. recipe ≡ record { sizes = geometry.now; image_seq = image_seq; of = parts.items }) }
        ensures meaning { IfOk result HaveMeaning }
        ensures refused { IfErr result (IsRecipeError geometry.now parts.items) }
    {
        prove!(geometry.peb_size() >= 64);
        let volumes = stand_ins(alloc, geometry, parts.as_slice())?;
        match Meaning::new(geometry, image_seq, volumes) {
            Ok(_) => Ok(Recipe {
                geometry: *geometry,
                image_seq,
                parts,
            }),
            Err(error) => Err(RecipeError::Refused(error.cause)),
        }
    }

    /// The geometry of the device.
    pub fn geometry(&self) -> Geometry
        ensures value { result ≡ self.now.sizes }
        ensures limits { IsGeometry self.now.sizes }
        ensures meaning { HaveMeaning self.now }
    {
        self.geometry
    }

    /// The image sequence number.
    pub fn image_seq(&self) -> u32
        ensures { result ≡ self.now.image_seq }
    {
        self.image_seq
    }

    /// The device that the image is built for.
    pub(crate) fn device(&self) -> Device
        ensures value { result ≡ record { geometry = self.now.sizes; image_seq = self.now.image_seq } }
        ensures limits { IsGeometry self.now.sizes }
        ensures meaning { HaveMeaning self.now }
    {
        Device {
            geometry: self.geometry,
            image_seq: self.image_seq,
        }
    }

    /// The volumes, in the order in which they were given.
    pub fn parts(&self) -> &[Part]
        ensures value { result.now ≡ self.now.of }
        ensures meaning { HaveMeaning self.now }
    {
        self.parts.as_slice()
    }

    /// The volume with a number, `None` if there is none.
    pub(crate) fn part(&self, id: u32) -> Option<&Part>
        ensures value { option_copied result ≡ part_at self.now id }
        ensures sound { ForSome (option_copied result) (λ p. rec_fault self.now.sizes p.entry ≡ None) }
        ensures meaning { HaveMeaning self.now }
    {
        numbered(self.parts.as_slice(), id)
    }
}

impl Contents for Recipe {
    ghost sizes = { λ ps. ps.sizes };

    ghost pieces = { λ ps. built_pieces ps };

    ghost LieIn = { λ ps size. HasParts size ps.of };

    fn next(&self, geometry: &Geometry, id: u32, from: u32) -> Option<Piece> {
        let part = self.part(id)?;
        if from < piece_count(geometry, part) {
            Some(piece_of(geometry, part, from))
        } else {
            None
        }
    }
}

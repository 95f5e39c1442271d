//! Meanings, and how one is made from volumes.

ghost use Rattle.std.specs.FinMap as finite;
ghost use Rattle.std.specs.List.Sorted.{IsNonDecreasingBy};
ghost use Rattle.std.specs.Prelude.{◌≡◌, ◌==◌, ◌↔◌, IfErr, IfOk, IsTrue, find, option_copied, IsPermutation, MatchOption, None, map, position};
ghost use Rattle.ubi_media.specs.Fields.{same_bytes};
ghost use Rattle.ubi_media.specs.Geometry.{IsGeometry};
ghost use Rattle.ubi_media.specs.Record.{rec_fault};
ghost use Rattle.ubi_volume.specs.EqualMeanings.{same_meaning, same_meaning_per};
ghost use Rattle.ubi_volume.specs.Made.{IsFirstMade, NoCause, meaning_of, item_without_blank};
ghost use Rattle.ubi_volume.specs.Meant.{IsMeaning, VolumeMap, Fits};
ghost use Rattle.ubi_volume.specs.MeantCoded.{AreVolumes};
ghost use Rattle.ubi_volume.specs.inner.Making.{IsFirstOf};

use crate::content::{Content, Volume};
use crate::errors::{MeaningCause, MeaningError};
use std::marker::Model;
use ubi_media::{Geometry, VolKind, VolName, rec_fault};

/// The image sequence number of an image, and its volumes: the record of each, and what it reads.
#[derive(Drop)]
pub struct Meaning {
    geometry: Geometry,
    image_seq: u32,
    /// Each volume after its number, in ascending order.
    volumes: Vec<(u32, Volume)>,
}

impl Model for Meaning {
    ghost use Rattle.std.specs.FinMap as finite;
    ghost use Rattle.ubi_volume.specs.Meant.{Meant};
    ghost use Rattle.ubi_volume.specs.MeantCoded.{AreVolumes, meant_code};

    ghost Value = { Meant };

    ghost coded = { meant_code };

    ghost view = { λ m. record { sizes = m.geometry; image_seq = m.image_seq; volumes = finite.from_entries m.volumes.items } };

    ghost invariant = { λ m. AreVolumes m.geometry m.image_seq m.volumes.items };
}

/// The entry with a number.
fn numbered(volumes: &[(u32, Volume)], id: u32) -> Option<&(u32, Volume)>
    ensures { option_copied result ≡ find (λ e. e.0 == id) volumes.now }
{
    volumes.iter().find(|entry| entry.0 == id)
}

impl Meaning {
    /// The meaning of volumes in ascending order.
    pub(crate) fn of(geometry: Geometry, image_seq: u32, volumes: Vec<(u32, Volume)>) -> Meaning
        requires { AreVolumes geometry image_seq volumes.items }
        ensures { result ≡ record { sizes = geometry; image_seq = image_seq; volumes = finite.from_entries volumes.items } }
    {
        Meaning {
            geometry,
            image_seq,
            volumes,
        }
    }

    /// The meaning of an image sequence number and volumes, each with its number. The logical eraseblocks of a dynamic volume
    /// that are 0xFF throughout are dropped. It allocates no memory.
    ///
    /// # Errors
    ///
    /// The first cause for which the volumes have no meaning together, in the order of
    /// [`MeaningCause`](crate::MeaningCause), with the volumes as they were.
    pub fn new(
        geometry: &Geometry,
        image_seq: u32,
        volumes: Vec<(u32, Volume)>,
    ) -> Result<Meaning, MeaningError>
        ensures made { IfOk result (λ m. NoCause geometry.now volumes.items × (m ≡ meaning_of geometry.now image_seq volumes.items)) }
        ensures cause { IfErr result (λ e. IsFirstMade geometry.now volumes.items e.cause) }
        ensures returned { IfErr result (λ e. e.volumes.items ≡ volumes.items) }
        ensures meaning { IfOk result IsMeaning }
    {
        match first_cause(geometry, volumes.as_slice()) {
            Some(cause) => Err(MeaningError { cause, volumes }),
            None => Ok(Meaning::of(*geometry, image_seq, arranged(volumes))),
        }
    }

    /// The geometry of the device.
    pub fn geometry(&self) -> Geometry
        ensures value { result ≡ self.now.sizes }
        ensures limits { IsGeometry self.now.sizes }
        ensures meaning { IsMeaning self.now }
    {
        prove!(self.geometry.peb_size() >= 64);
        self.geometry
    }

    /// The image sequence number, 0 if no eraseblock names an image.
    pub fn image_seq(&self) -> u32
        ensures value { result ≡ self.now.image_seq }
        ensures meaning { IsMeaning self.now }
    {
        self.image_seq
    }

    /// The volume with a number, `None` if there is none.
    pub fn get(&self, id: u32) -> Option<&Volume>
        ensures value { option_copied result ≡ finite.get self.now.volumes id }
        ensures meaning { IsMeaning self.now }
    {
        numbered(self.volumes.as_slice(), id).map(|entry| &entry.1)
    }

    /// The number and the volume of each, in ascending order.
    pub fn volumes(&self) -> &[(u32, Volume)]
        ensures value { result.now ≡ finite.entries self.now.volumes }
        ensures meaning { IsMeaning self.now }
    {
        self.volumes.as_slice()
    }
}

/// Two meanings are equal if their geometries and image sequence numbers are, and the records of their volumes and what
/// these read.
impl PartialEq for Meaning {
    ghost eq = { same_meaning };

    ghost laws = { same_meaning_per };

    fn eq(&self, other: &Meaning) -> bool
        ensures value { result ≡ same_meaning self.now other.now }
        ensures same { IsTrue result ↔ (self.now ≡ other.now) }
    {
        self.geometry == other.geometry
            && self.image_seq == other.image_seq
            && self.volumes == other.volumes
    }
}

/// The first item whose number isn't below the slots of the volume table.
fn id_range(geometry: &Geometry, volumes: &[(u32, Volume)]) -> Option<MeaningCause>
    ensures { IsFirstOf geometry.now volumes.now 1 result }
{
    let slots = geometry.slots();
    for (i, item) in volumes.iter().enumerate() {
        if item.0 >= slots {
            return Some(MeaningCause::IdRange(i));
        }
    }
    None
}

/// The place of the first item with a number.
fn place_of_id(volumes: &[(u32, Volume)], id: u32) -> Option<usize>
    ensures { result ≡ position (λ e. e.0 == id) volumes.now }
{
    volumes.iter().position(|item| item.0 == id)
}

/// The first item whose number is also that of an earlier item.
fn same_id(geometry: &Geometry, volumes: &[(u32, Volume)]) -> Option<MeaningCause>
    ensures { IsFirstOf geometry.now volumes.now 2 result }
{
    for (i, item) in volumes.iter().enumerate() {
        match place_of_id(&volumes[..i], item.0) {
            Some(_) => return Some(MeaningCause::SameId(i)),
            None => {}
        }
    }
    None
}

/// The first item whose record breaks a rule.
fn record_fault(geometry: &Geometry, volumes: &[(u32, Volume)]) -> Option<MeaningCause>
    ensures { IsFirstOf geometry.now volumes.now 3 result }
{
    for (i, item) in volumes.iter().enumerate() {
        match rec_fault(geometry, &item.1.entry) {
            Some(fault) => return Some(MeaningCause::Record(i, fault)),
            None => {}
        }
    }
    None
}

/// The place of the first item with a name.
fn place_of_name(volumes: &[(u32, Volume)], name: &VolName) -> Option<usize>
    ensures { result ≡ position (λ e. same_bytes e.1.entry.name name.now) volumes.now }
{
    volumes
        .iter()
        .position(|item| item.1.entry.name.as_bytes() == name.as_bytes())
}

/// The first item whose name is also that of an earlier item.
fn same_name(geometry: &Geometry, volumes: &[(u32, Volume)]) -> Option<MeaningCause>
    ensures { IsFirstOf geometry.now volumes.now 4 result }
{
    for (i, item) in volumes.iter().enumerate() {
        match place_of_name(&volumes[..i], &item.1.entry.name) {
            Some(earlier) => return Some(MeaningCause::SameName(i, earlier)),
            None => {}
        }
    }
    None
}

/// `NoSpace` if the volumes and the two copies of the volume table need more eraseblocks than the device has.
fn no_space(geometry: &Geometry, volumes: &[(u32, Volume)]) -> Option<MeaningCause>
    ensures { IsFirstOf geometry.now volumes.now 5 result }
{
    let mut room = geometry.pebs() - 2;
    for item in volumes {
        let reserved = item.1.entry.reserved;
        if reserved > room {
            return Some(MeaningCause::NoSpace);
        }
        room -= reserved;
    }
    None
}

/// Whether the content of a volume is one that its record allows.
fn fits(geometry: &Geometry, volume: &Volume) -> bool
    requires { rec_fault geometry.now volume.now.entry ≡ None }
    ensures { IsTrue result ↔ Fits geometry.now volume.now.entry volume.now.content }
{
    let entry = &volume.entry;
    let usable = entry.usable(geometry);
    match &volume.content {
        Content::Updating => entry.marker,
        Content::Damaged => !entry.marker && entry.kind == VolKind::Static,
        Content::Static(text) => {
            let most = u64::from(entry.reserved) * u64::from(usable);
            !entry.marker && entry.kind == VolKind::Static && text.as_slice().len() as u64 <= most
        }
        Content::Dynamic(lebs) => {
            !entry.marker && entry.kind == VolKind::Dynamic && lebs.all_fit(entry.reserved, usable)
        }
    }
}

/// The first item whose content isn't one that its record allows.
fn content_range(geometry: &Geometry, volumes: &[(u32, Volume)]) -> Option<MeaningCause>
    requires { IsFirstOf geometry.now volumes.now 3 None }
    ensures { IsFirstOf geometry.now volumes.now 6 result }
{
    for (i, item) in volumes.iter().enumerate() {
        if !fits(geometry, &item.1) {
            return Some(MeaningCause::ContentRange(i));
        }
    }
    None
}

/// The first cause for which volumes have no meaning together. `None` if they have one.
fn first_cause(geometry: &Geometry, volumes: &[(u32, Volume)]) -> Option<MeaningCause>
    ensures { MatchOption result (NoCause geometry.now volumes.now) (IsFirstMade geometry.now volumes.now) }
{
    if let Some(cause) = id_range(geometry, volumes) {
        return Some(cause);
    }
    if let Some(cause) = same_id(geometry, volumes) {
        return Some(cause);
    }
    if let Some(cause) = record_fault(geometry, volumes) {
        return Some(cause);
    }
    if let Some(cause) = same_name(geometry, volumes) {
        return Some(cause);
    }
    if let Some(cause) = no_space(geometry, volumes) {
        return Some(cause);
    }
    content_range(geometry, volumes)
}

/// Drops the logical eraseblocks of the volumes that are 0xFF throughout.
fn drop_blank(volumes: &mut [(u32, Volume)])
    ensures { volumes.new ≡ map item_without_blank volumes.old }
{
    for item in volumes.iter_mut() {
        item.1.content.drop_blank();
    }
}

/// The volumes in ascending order, without the logical eraseblocks that are 0xFF throughout. It allocates no memory.
fn arranged(mut volumes: Vec<(u32, Volume)>) -> Vec<(u32, Volume)>
    ensures permutation { IsPermutation (map item_without_blank volumes.items) result.items }
    ensures sorted { IsNonDecreasingBy (λ e. e.0) result.items }
{
    drop_blank(volumes.as_mut_slice());
    volumes.sort_unstable_by_key(|item| item.0);
    volumes
}

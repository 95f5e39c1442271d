//! Reading the composer's text: the volumes that its lines give, as far as they were read.

ghost use Rattle.std.specs.Prelude.{◌≡◌, ◌++◌, ◌∷◌, [], IfErr, IfOk, MatchResult, None, Ok, OnOk};
ghost use Rattle.ubi_compose.specs.inner.Drafts.{AreFaultless, IsRefusedLine, changed, is_empty, leb_added, made_damaged, made_updating, opened, place_of, read, taken, with_leb, with_line, with_text};
ghost use Rattle.ubi_compose.specs.Lines.{is_skipped};
ghost use Rattle.ubi_compose.specs.Spec.{IsSpecError, first_cause, volume_from, volumes_of};
ghost use Rattle.ubi_media.specs.Record.{rec_fault, usable};

use crate::errors::{LineError, SpecCause, SpecError};
use crate::line::{Line, line_of};
use std::alloc::{AllocError, Global};
use std::collections::BTreeMap;
use std::marker::Model;
use ubi_media::{Geometry, VolKind, VolumeRecord, rec_fault};
use ubi_volume::{Bytes, Content, Lebs, Volume};

/// The volumes of a text, each with its number, in the order of their `volume` lines.
///
/// # Errors
///
/// The first line with a cause, counted from 1, and its first cause in the order of [`SpecCause`](crate::SpecCause).
/// `Memory` if memory ran out.
pub fn parse_spec(
    alloc: Global,
    geometry: &Geometry,
    text: &[u8],
) -> Result<Vec<(u32, Volume)>, SpecError>
    ensures volumes { IfOk result (λ out. (first_cause geometry.now text.now ≡ None) × (out.items ≡ volumes_of geometry.now text.now)) }
    ensures refused { IfErr result (IsSpecError geometry.now text.now) }
{
    let mut drafts = Drafts::new(alloc);
    let mut number: u32 = 0;
    for line in text.split(|byte| *byte == b'\n') {
        number = number.saturating_add(1);
        if let Err(error) = drafts.read(alloc, geometry, line) {
            return Err(error.at(number));
        }
    }
    Ok(drafts.into_volumes())
}

/// A volume without any content line.
fn empty_volume(alloc: Global, geometry: &Geometry, entry: VolumeRecord) -> Volume
    ensures { result ≡ volume_from geometry.now entry [] }
{
    let content = match entry.kind {
        VolKind::Dynamic => Content::Dynamic(Lebs::new(alloc)),
        VolKind::Static => Content::Static(Bytes::new(Vec::new(alloc))),
    };
    Volume { entry, content }
}

/// Whether a line is skipped whole: it is empty, or a remark.
fn is_skipped(text: &[u8]) -> bool
    ensures { result ≡ is_skipped text.now }
{
    text.is_empty() || text[0] == b'#'
}

/// The volumes so far, each with its number, in the order of their `volume` lines. The model is the list of them.
#[derive(Drop)]
pub(crate) struct Drafts {
    volumes: Vec<(u32, Volume)>,
    /// Where the volume with a number stands.
    places: BTreeMap<u32, usize>,
}

impl Model for Drafts {
    ghost use Rattle.ubi_volume.specs.Made.{Items};
    ghost use Rattle.ubi_compose.specs.inner.Drafts.{AreDrafts, items_code};

    ghost Value = { Items };

    ghost coded = { items_code };

    ghost view = { λ d. d.volumes.items };

    ghost invariant = { λ d. AreDrafts d.places d.volumes.items };
}

impl Drafts {
    /// No volumes yet.
    pub(crate) fn new(alloc: Global) -> Drafts
        ensures { result ≡ [] }
    {
        Drafts {
            volumes: Vec::new(alloc),
            places: BTreeMap::new(alloc),
        }
    }

    /// The volumes.
    pub(crate) fn into_volumes(self) -> Vec<(u32, Volume)>
        ensures { result.items ≡ self }
    {
        self.volumes
    }

    /// Where the volume with a number stands.
    fn place(&self, id: u32) -> Option<usize>
        ensures { result ≡ place_of id self.now }
    {
        self.places.get(&id).copied()
    }

    /// Adds a volume.
    fn push(&mut self, id: u32, volume: Volume) -> Result<(), AllocError>
        requires { place_of id self.old ≡ None }
        ensures { OnOk result (self.new ≡ self.old ++ (id, volume) ∷ []) }
    {
        self.volumes.reserve(1)?;
        self.places.insert(id, self.volumes.len())?;
        self.volumes.push_reserved((id, volume));
        Ok(())
    }

    /// Takes a line with a record.
    fn open(
        &mut self,
        alloc: Global,
        geometry: &Geometry,
        id: u32,
        entry: VolumeRecord,
    ) -> Result<(), LineError>
        ensures { let made = opened geometry.now self.old id entry in MatchResult result (λ _. made ≡ Ok self.new) (IsRefusedLine made) }
    {
        if self.place(id).is_some() {
            return Err(ORDER);
        }
        if let Some(fault) = rec_fault(geometry, &entry) {
            return Err(LineError::Cause(SpecCause::Record(fault)));
        }
        self.push(id, empty_volume(alloc, geometry, entry))?;
        Ok(())
    }

    /// Takes a content line.
    fn change(&mut self, geometry: &Geometry, line: Line) -> Result<(), LineError>
        requires { AreFaultless geometry.now self.old }
        ensures { let made = changed geometry.now self.old line in MatchResult result (λ _. made ≡ Ok self.new) (IsRefusedLine made) }
    {
        match self.place(line.volume()) {
            Some(place) => take_content(geometry, &mut self.volumes[place].1, line),
            None => Err(ORDER),
        }
    }

    /// Takes a line that was read.
    fn take(&mut self, alloc: Global, geometry: &Geometry, line: Line) -> Result<(), LineError>
        requires { AreFaultless geometry.now self.old }
        ensures { let made = taken geometry.now self.old line in MatchResult result (λ _. made ≡ Ok self.new) (IsRefusedLine made) }
    {
        match line {
            Line::Volume(id, entry) => self.open(alloc, geometry, id, entry),
            line => self.change(geometry, line),
        }
    }

    /// Reads a line and takes it.
    pub(crate) fn read(
        &mut self,
        alloc: Global,
        geometry: &Geometry,
        text: &[u8],
    ) -> Result<(), LineError>
        requires { AreFaultless geometry.now self.old }
        ensures { let made = read geometry.now self.old text.now in MatchResult result (λ _. made ≡ Ok self.new) (IsRefusedLine made) }
    {
        if is_skipped(text) {
            return Ok(());
        }
        let line = line_of(alloc, text)?;
        self.take(alloc, geometry, line)
    }
}

/// A line that can't come here.
pub(crate) const ORDER: LineError = LineError::Cause(SpecCause::Order);

/// Keeps the bytes of a logical eraseblock, and 0xFF after them up to `size`.
#[tactic(auto, unfolding(ubi_media::specs::Fields::filled))]
fn put_leb(lebs: &mut Lebs, size: u32, lnum: u32, bytes: Bytes) -> Result<(), LineError>
    ensures { let made = leb_added size lnum bytes lebs.old in MatchResult result (λ _. made ≡ Ok lebs.new) (IsRefusedLine made) }
{
    if lebs.get(lnum).is_some() {
        return Err(LineError::Cause(SpecCause::Twice));
    }
    if bytes.as_slice().len() > size as usize {
        return Err(LineError::Cause(SpecCause::Long));
    }
    let mut bytes = bytes.into_vec();
    bytes.resize(size as usize, 0xFF)?;
    lebs.insert(lnum, Bytes::new(bytes))?;
    Ok(())
}

/// Whether nothing of a volume was given yet.
fn is_empty(content: &Content) -> bool
    ensures { result ≡ is_empty content.now }
{
    match content {
        Content::Updating | Content::Damaged => false,
        Content::Static(text) => text.as_slice().is_empty(),
        Content::Dynamic(lebs) => lebs.len() == 0,
    }
}

/// Takes a line with the bytes of a logical eraseblock.
fn take_leb(
    geometry: &Geometry,
    volume: &mut Volume,
    lnum: u32,
    bytes: Bytes,
) -> Result<(), LineError>
    requires { rec_fault geometry.now volume.old.entry ≡ None }
    ensures { let made = with_leb (usable geometry.now volume.old.entry) volume.old.entry lnum bytes volume.old.content in MatchResult result (λ _. made ≡ Ok volume.new) (IsRefusedLine made) }
{
    let size = volume.entry.usable(geometry);
    match &mut volume.content {
        Content::Dynamic(lebs) => put_leb(lebs, size, lnum, bytes),
        _ => Err(ORDER),
    }
}

/// Takes a line with more bytes of a static volume.
fn take_text(volume: &mut Volume, bytes: &Bytes) -> Result<(), LineError>
    ensures { let made = with_text volume.old.entry bytes.now volume.old.content in MatchResult result (λ _. made ≡ Ok volume.new) (IsRefusedLine made) }
{
    match &mut volume.content {
        Content::Static(text) => {
            text.extend_from_slice(bytes.as_slice())?;
            Ok(())
        }
        _ => Err(ORDER),
    }
}

/// Takes a line that makes the volume damaged.
fn take_damaged(volume: &mut Volume) -> Result<(), LineError>
    ensures { let made = made_damaged volume.old.entry volume.old.content in MatchResult result (λ _. made ≡ Ok volume.new) (IsRefusedLine made) }
{
    match &volume.content {
        Content::Static(text) if text.as_slice().is_empty() => {
            volume.content = Content::Damaged;
            Ok(())
        }
        _ => Err(ORDER),
    }
}

/// Takes a line that makes the volume updating.
fn take_updating(volume: &mut Volume) -> Result<(), LineError>
    ensures { let made = made_updating volume.old.entry volume.old.content in MatchResult result (λ _. made ≡ Ok volume.new) (IsRefusedLine made) }
{
    if !is_empty(&volume.content) {
        return Err(ORDER);
    }
    volume.entry.marker = true;
    volume.content = Content::Updating;
    Ok(())
}

/// Takes a content line.
pub(crate) fn take_content(
    geometry: &Geometry,
    volume: &mut Volume,
    line: Line,
) -> Result<(), LineError>
    requires { rec_fault geometry.now volume.old.entry ≡ None }
    ensures { let made = with_line geometry.now volume.old line in MatchResult result (λ _. made ≡ Ok volume.new) (IsRefusedLine made) }
{
    match line {
        Line::Volume(..) => Err(ORDER),
        Line::Leb(_, lnum, bytes) => take_leb(geometry, volume, lnum, bytes),
        Line::Text(_, bytes) => take_text(volume, &bytes),
        Line::Damaged(_) => take_damaged(volume),
        Line::Updating(_) => take_updating(volume),
    }
}

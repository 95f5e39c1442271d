//! The command `list`: the volumes of an image.

ghost use Rattle.std.specs.Prelude.{◌≡◌, ◌++◌, [], All, IfErr, IfOk, None, OnOk, codes, length, map};
ghost use Rattle.std.specs.FinMap as finite;
ghost use Rattle.std.specs.List.{flat_map};
ghost use Rattle.ubi_media.specs.Record.{rec_fault};
ghost use Rattle.ubi_scan.specs.Image.{image_of};
ghost use Rattle.ubi_scan.specs.Source.{Narrows, WhereHeld};
ghost use Rattle.ubi_volume.specs.Places.{ArePlaces, ArePlacesOf};
ghost use Rattle.ubi_files.specs.AfterRun.{IsNoWrite, after_run};
ghost use Rattle.ubi_reading.specs.List.{Lists, ListsFrom, list_lines, list_told, record_line, record_words, room_words, sizes_line, volume_line};
ghost use Rattle.ubi_json.specs.List.{list_data, listed_volume};
ghost use Rattle.ubi_json.specs.Line.{json_line};

use crate::format::{Format, refusal_told};
use crate::lines::put_digits;
use std::alloc::{AllocError, Global};
use ubi_dumps::{put_amount, put_layout, put_shown};
use ubi_files::{DONE, FAILED, Numbers, Outcome, ToolError, in_memory, put_number, put_word};
use ubi_json::{ListedVolume, kind_word, list_line};
use ubi_media::{Geometry, VolumeRecord};
use ubi_scan::{BlockSource, MemorySource, StreamError};
use ubi_volume::{Amount, Places, amount_of, attach_places};

/// Adds the numbers that follow from a geometry, and how many eraseblocks there are.
fn put_room(text: &mut Vec<u8>, geometry: &Geometry) -> Result<(), AllocError>
    ensures { OnOk result (text.new.items ≡ text.old.items ++ room_words geometry.now) }
{
    put_number(text, " leb=", u64::from(geometry.leb_size()))?;
    put_number(text, " slots=", u64::from(geometry.slots()))?;
    put_number(text, " pebs=", u64::from(geometry.pebs()))
}

/// Adds the line of a device's sizes.
fn put_sizes(text: &mut Vec<u8>, geometry: &Geometry) -> Result<(), AllocError>
    ensures { OnOk result (text.new.items ≡ text.old.items ++ sizes_line geometry.now) }
{
    put_word(text, "geometry ")?;
    put_layout(text, Numbers::of(geometry))?;
    put_room(text, geometry)?;
    put_word(text, "\n")
}

/// Adds what a record says about its volume, except the name.
fn put_record(
    alloc: Global,
    text: &mut Vec<u8>,
    geometry: &Geometry,
    entry: &VolumeRecord,
) -> Result<(), AllocError>
    requires { rec_fault geometry.now entry.now ≡ None }
    ensures { OnOk result (text.new.items ≡ text.old.items ++ record_words geometry.now entry.now) }
{
    put_word(text, kind_word(entry.kind))?;
    put_number(text, " reserved=", u64::from(entry.reserved))?;
    put_number(text, " alignment=", u64::from(entry.alignment))?;
    put_number(text, " usable=", u64::from(entry.usable(geometry)))?;
    put_word(text, " flags=")?;
    put_digits(alloc, text, entry.flags)
}

/// Adds the line of a volume with a number.
fn put_volume(
    alloc: Global,
    text: &mut Vec<u8>,
    geometry: &Geometry,
    id: u32,
    entry: &VolumeRecord,
    amount: Amount,
) -> Result<(), AllocError>
    requires { rec_fault geometry.now entry.now ≡ None }
    ensures { OnOk result (text.new.items ≡ text.old.items ++ record_line geometry.now id entry.now amount) }
{
    put_number(text, "volume ", u64::from(id))?;
    put_word(text, " ")?;
    put_record(alloc, text, geometry, entry)?;
    put_word(text, " ")?;
    put_amount(text, amount)?;
    put_word(text, " name=")?;
    put_shown(alloc, text, entry.name.as_bytes())?;
    put_word(text, "\n")
}

/// Adds the lines of the volumes of a source, in ascending order. The buffer has the size of an eraseblock.
///
/// # Errors
///
/// `Read` if a read failed. `Memory` if memory ran out.
fn put_volumes<S: BlockSource>(
    alloc: Global,
    text: &mut Vec<u8>,
    geometry: &Geometry,
    source: &mut S,
    places: &Places,
    buffer: &mut [u8],
) -> Result<(), ToolError>
    requires places { ArePlacesOf geometry.now (S.known source.old) (S.agrees source.old) places.now }
    requires room { length buffer.old ≡ geometry.now.peb_size }
    ensures known { S.known source.new ≡ after_run (S.known source.old) result }
    ensures narrows { Narrows (S.agrees source.old) (S.agrees source.new) }
    ensures text { OnOk result (WhereHeld (S.agrees source.new) (λ bytes. (h : ArePlaces (image_of geometry.now bytes) places.now) → text.new.items ≡ text.old.items ++ flat_map (volume_line geometry.now) (finite.entries h.meaning.volumes))) }
    ensures failed { IfErr result IsNoWrite }
{
    for listed in places.table().entries() {
        let (id, entry) = *listed;
        match amount_of(geometry, source, places, id, &entry, buffer) {
            Ok(amount) => put_volume(alloc, text, geometry, id, &entry, amount)?,
            Err(StreamError::Read(_, _)) => return Err(ToolError::Read),
            // Nothing is refused any more, and nothing is written.
            Err(StreamError::Refused(_) | StreamError::Write(_) | StreamError::Memory) => {
                unreachable!()
            }
        }
    }
    Ok(())
}

/// The lines of a source: the sizes of its device, its volumes, and how many there are.
///
/// # Errors
///
/// `Read` if a read failed. `Memory` if memory ran out.
fn list_lines<S: BlockSource>(
    alloc: Global,
    geometry: &Geometry,
    source: &mut S,
    places: &Places,
) -> Result<Vec<u8>, ToolError>
    requires { ArePlacesOf geometry.now (S.known source.old) (S.agrees source.old) places.now }
    ensures known { S.known source.new ≡ after_run (S.known source.old) result }
    ensures narrows { Narrows (S.agrees source.old) (S.agrees source.new) }
    ensures text { IfOk result (λ text. WhereHeld (S.agrees source.new) (λ bytes. (h : ArePlaces (image_of geometry.now bytes) places.now) → text.items ≡ list_lines h.meaning)) }
    ensures failed { IfErr result IsNoWrite }
{
    let mut buffer = Vec::from_elem(alloc, 0u8, geometry.peb_size() as usize)?;
    let mut text = Vec::new(alloc);
    put_sizes(&mut text, geometry)?;
    put_volumes(
        alloc,
        &mut text,
        geometry,
        source,
        places,
        buffer.as_mut_slice(),
    )?;
    put_number(&mut text, "volumes ", places.table().entries().len() as u64)?;
    put_word(&mut text, "\n")?;
    Ok(text)
}

/// Keeps what is listed about the volumes of a source, in ascending order. The buffer has the size of an eraseblock.
///
/// # Errors
///
/// `Read` if a read failed. `Memory` if memory ran out.
pub(crate) fn keep_volumes<S: BlockSource>(
    listed: &mut Vec<ListedVolume>,
    geometry: &Geometry,
    source: &mut S,
    places: &Places,
    buffer: &mut [u8],
) -> Result<(), ToolError>
    requires places { ArePlacesOf geometry.now (S.known source.old) (S.agrees source.old) places.now }
    requires room { length buffer.old ≡ geometry.now.peb_size }
    requires none { listed.old.items ≡ [] }
    ensures known { S.known source.new ≡ after_run (S.known source.old) result }
    ensures narrows { Narrows (S.agrees source.old) (S.agrees source.new) }
    ensures sound { OnOk result (All (λ v. rec_fault geometry.now v.entry ≡ None) listed.new.items) }
    ensures volumes { OnOk result (WhereHeld (S.agrees source.new) (λ bytes. (h : ArePlaces (image_of geometry.now bytes) places.now) → listed.new.items ≡ map listed_volume (finite.entries h.meaning.volumes))) }
    ensures failed { IfErr result IsNoWrite }
{
    for kept in places.table().entries() {
        let (id, entry) = *kept;
        match amount_of(geometry, source, places, id, &entry, buffer) {
            Ok(amount) => listed.push(ListedVolume { id, entry, amount })?,
            Err(StreamError::Read(_, _)) => return Err(ToolError::Read),
            // Nothing is refused any more, and nothing is written.
            Err(StreamError::Refused(_) | StreamError::Write(_) | StreamError::Memory) => {
                unreachable!()
            }
        }
    }
    Ok(())
}

/// The line of the object of a source: the sizes of its device, and its volumes.
///
/// # Errors
///
/// `Read` if a read failed. `Memory` if memory ran out.
fn list_object<S: BlockSource>(
    alloc: Global,
    geometry: &Geometry,
    source: &mut S,
    places: &Places,
) -> Result<Vec<u8>, ToolError>
    requires { ArePlacesOf geometry.now (S.known source.old) (S.agrees source.old) places.now }
    ensures known { S.known source.new ≡ after_run (S.known source.old) result }
    ensures narrows { Narrows (S.agrees source.old) (S.agrees source.new) }
    ensures text { IfOk result (λ text. WhereHeld (S.agrees source.new) (λ bytes. (h : ArePlaces (image_of geometry.now bytes) places.now) → text.items ≡ json_line (list_data h.meaning))) }
    ensures failed { IfErr result IsNoWrite }
{
    let mut buffer = Vec::from_elem(alloc, 0u8, geometry.peb_size() as usize)?;
    let mut listed = Vec::new(alloc);
    keep_volumes(&mut listed, geometry, source, places, buffer.as_mut_slice())?;
    Ok(list_line(alloc, geometry, listed.as_slice())?)
}

/// What is printed in a format for a source: the sizes of its device, and its volumes.
///
/// # Errors
///
/// `Read` if a read failed. `Memory` if memory ran out.
fn list_told<S: BlockSource>(
    alloc: Global,
    geometry: &Geometry,
    source: &mut S,
    places: &Places,
    format: Format,
) -> Result<Vec<u8>, ToolError>
    requires { ArePlacesOf geometry.now (S.known source.old) (S.agrees source.old) places.now }
    ensures known { S.known source.new ≡ after_run (S.known source.old) result }
    ensures narrows { Narrows (S.agrees source.old) (S.agrees source.new) }
    ensures text { IfOk result (λ text. WhereHeld (S.agrees source.new) (λ bytes. (h : ArePlaces (image_of geometry.now bytes) places.now) → text.items ≡ list_told format h.meaning)) }
    ensures failed { IfErr result IsNoWrite }
{
    match format {
        Format::Text => list_lines(alloc, geometry, source, places),
        Format::Json => list_object(alloc, geometry, source, places),
    }
}

/// Lists the volumes of a source, or answers with the cause of its refusal. One eraseblock of contents is held at a time.
///
/// # Errors
///
/// `Read` if a read failed. `Memory` if memory ran out.
pub fn run_list_from<S: BlockSource>(
    alloc: Global,
    geometry: &Geometry,
    source: &mut S,
    format: Format,
) -> Result<Outcome, ToolError>
    ensures known { S.known source.new ≡ after_run (S.known source.old) result }
    ensures narrows { Narrows (S.agrees source.old) (S.agrees source.new) }
    ensures listed { IfOk result (ListsFrom format geometry.now (S.known source.old) (S.agrees source.new)) }
    ensures lists { IfOk result (λ o. WhereHeld (S.agrees source.new) (λ bytes. Lists format (image_of geometry.now bytes) o)) }
    ensures failed { IfErr result IsNoWrite }
{
    match attach_places(alloc, geometry, source) {
        Ok(places) => {
            let text = list_told(alloc, geometry, source, &places, format)?;
            Ok(Outcome::saying(text, DONE))
        }
        Err(StreamError::Refused(cause)) => {
            let line = refusal_told(alloc, format, cause)?;
            Ok(Outcome::saying(line, FAILED))
        }
        Err(StreamError::Read(_, _)) => Err(ToolError::Read),
        Err(StreamError::Memory) => Err(ToolError::Memory),
        // Nothing is written.
        Err(StreamError::Write(_)) => unreachable!(),
    }
}

/// Lists the volumes of an image in lines, or answers with the line of its refusal.
///
/// # Errors
///
/// Memory ran out.
pub fn run_list(alloc: Global, geometry: &Geometry, image: &[u8]) -> Result<Outcome, AllocError>
    ensures { IfOk result (Lists Format.Text (image_of geometry.now image.now)) }
{
    in_memory(run_list_from(alloc, geometry, &mut MemorySource::new(image), Format::Text))
}

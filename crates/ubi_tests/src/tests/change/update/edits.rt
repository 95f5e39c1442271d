//! Edits as tests write them down, how they are planned, and what they are to leave.

use std::alloc::{AllocError, Global};
use std::test::Fail;
use ubi_change::{Avoided, Edit, NewVolume, Step, UpdateError, plan_update_from};
use ubi_media::Geometry;
use ubi_probe::records::Slot;
use ubi_probe::texts::bytes_of;
use ubi_scan::MemorySource;
use ubi_volume::{Bytes, Content, Lebs, Meaning, Volume};

/// Bytes that each stand a number of times.
pub type Runs = &'static [(&'static [u8], usize)];

/// A volume that is written: its record, the place at which its bytes begin in the contents, and how many they are.
#[derive(Clone, Copy)]
pub struct Given(pub Slot, pub u64, pub u64);

/// An edit.
#[derive(Clone, Copy)]
pub enum Asked {
    Rename(u32, &'static [u8]),
    Resize(u32, u32),
    Remove(u32),
    Replace(u32, Given),
    Create(Given),
}

impl Given {
    /// The volume.
    fn volume(&self) -> Result<NewVolume, Fail> {
        let Given(slot, start, len) = *self;
        Ok(NewVolume {
            entry: slot.volume().ok_or("no name")?,
            start,
            len,
        })
    }
}

impl Asked {
    /// The edit.
    fn edit(&self, alloc: Global) -> Result<Edit, Fail> {
        Ok(match *self {
            Asked::Rename(id, name) => Edit::Rename(id, Bytes::new(Vec::from_slice(alloc, name)?)),
            Asked::Resize(id, reserved) => Edit::Resize(id, reserved),
            Asked::Remove(id) => Edit::Remove(id),
            Asked::Replace(id, given) => Edit::Replace(id, given.volume()?),
            Asked::Create(given) => Edit::Create(given.volume()?),
        })
    }
}

/// Some edits.
pub fn edits_of(alloc: Global, asked: &[Asked]) -> Result<Vec<Edit>, Fail> {
    let mut edits = Vec::new(alloc);
    for edit in asked {
        edits.push(edit.edit(alloc)?)?;
    }
    Ok(edits)
}

/// The groups of steps of a plan of edits, or why there is none. It has no contract, so that a proof of a caller is spared
/// those of the plan.
pub fn planned(
    alloc: Global,
    geometry: &Geometry,
    image: &[u8],
    avoided: &Avoided<'_>,
    contents: &[u8],
    edits: &[Edit],
) -> Result<Vec<Vec<Step>>, UpdateError> {
    let mut source = MemorySource::new(image);
    let mut bytes = MemorySource::new(contents);
    let plan = plan_update_from(alloc, geometry, &mut source, avoided, &mut bytes, edits)?;
    let mut groups = Vec::new(alloc);
    for k in 0..plan.group_count() {
        let mut bytes = MemorySource::new(contents);
        let mut buffer = Vec::from_elem(alloc, 0u8, geometry.peb_size() as usize)?;
        let Ok(steps) = plan.group(alloc, geometry, k, &mut bytes, buffer.as_mut_slice()) else {
            return Err(UpdateError::Contents(k));
        };
        match groups.push(steps) {
            Ok(()) => {}
            Err(full) => return Err(AllocError::from(full).into()),
        }
    }
    Ok(groups)
}

/// The same, where any eraseblock may be touched.
pub fn planned_anywhere(
    alloc: Global,
    geometry: &Geometry,
    image: &[u8],
    contents: &[u8],
    asked: &[Asked],
) -> Result<Result<Vec<Vec<Step>>, UpdateError>, Fail> {
    let edits = edits_of(alloc, asked)?;
    let avoided = Avoided::nothing();
    Ok(planned(alloc, geometry, image, &avoided, contents, edits.as_slice()))
}

/// What a volume reads.
#[derive(Clone, Copy)]
pub enum Holds {
    /// The bytes of a static volume.
    Text(Runs),
    /// Logical eraseblocks of a dynamic one, each after its number; 0xFF follows their bytes.
    Lebs(&'static [(u32, Runs)]),
}

/// A volume: its number, its record, and what it reads.
pub type Row = (u32, Slot, Holds);

/// Logical eraseblocks of a size.
fn lebs_of(alloc: Global, size: u32, rows: &[(u32, Runs)]) -> Result<Lebs, AllocError> {
    let mut lebs = Lebs::new(alloc);
    for (lnum, runs) in rows {
        let mut bytes = bytes_of(alloc, runs)?;
        bytes.resize(size as usize, 0xFF)?;
        lebs.insert(*lnum, Bytes::new(bytes))?;
    }
    Ok(lebs)
}

/// What a volume with a record reads.
fn content_of(
    alloc: Global,
    geometry: &Geometry,
    slot: &Slot,
    holds: &Holds,
) -> Result<Content, AllocError> {
    Ok(match holds {
        Holds::Text(runs) => Content::Static(Bytes::new(bytes_of(alloc, runs)?)),
        Holds::Lebs(rows) => {
            let size = geometry.leb_size().saturating_sub(slot.data_pad);
            Content::Dynamic(lebs_of(alloc, size, rows)?)
        }
    })
}

/// The meaning of some volumes.
pub fn meaning_of(
    alloc: Global,
    geometry: &Geometry,
    image_seq: u32,
    rows: &[Row],
) -> Result<Meaning, Fail> {
    let mut volumes = Vec::new(alloc);
    for (id, slot, holds) in rows {
        let entry = slot.volume().ok_or("no name")?;
        let content = content_of(alloc, geometry, slot, holds)?;
        volumes.push((*id, Volume { entry, content }))?;
    }
    match Meaning::new(geometry, image_seq, volumes) {
        Ok(meaning) => Ok(meaning),
        Err(_) => Err("no meaning".into()),
    }
}

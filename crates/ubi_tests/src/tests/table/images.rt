//! Images that tests are made of: eraseblocks that hold headers and the records of a volume table.

use std::alloc::{AllocError, Global};
use std::test::Fail;
use ubi_media::{AttachError, Geometry, GeometryError, Refusal};
use ubi_probe::pebs::{Data, ERASED, Ec, NEW, NEW_FREE, NO_DATA, Peb, Vid, image_of};
use ubi_probe::records::Slot;
use ubi_scan::{Blocks, scan};
use ubi_table::{Table, choose};

/// An eraseblock of no image.
#[derive(Clone, Copy)]
pub enum Row {
    /// It is 0xFF throughout.
    Erased,
    /// It has an erase-counter header alone.
    Free,
    /// It has an erase-counter header alone, of which nothing can be read.
    Torn,
    /// It is copy 0 of a volume table that begins with these records.
    First(&'static [Slot]),
    /// It is copy 1.
    Second(&'static [Slot]),
    /// It is a copy with a sequence number of 7, by its number.
    Newer(u32, &'static [Slot]),
    /// It is a copy without an erase-counter header.
    Forgotten(u32, &'static [Slot]),
    /// It is a logical eraseblock of volume 0, by its number.
    Member(u32),
}

impl Row {
    /// The eraseblock.
    fn peb(&self) -> Peb {
        match *self {
            Row::Erased => ERASED,
            Row::Free => NEW_FREE,
            Row::Torn => Peb(Ec::Corrupt, Vid::Blank, NO_DATA),
            Row::First(slots) => Peb(NEW, Vid::Table(0, 0), Data::Table(slots)),
            Row::Second(slots) => Peb(NEW, Vid::Table(1, 0), Data::Table(slots)),
            Row::Newer(lnum, slots) => Peb(NEW, Vid::Table(lnum, 7), Data::Table(slots)),
            Row::Forgotten(lnum, slots) => Peb(Ec::Blank, Vid::Table(lnum, 0), Data::Table(slots)),
            Row::Member(lnum) => Peb(NEW, Vid::Leb(0, lnum, 0), Data::Fill(b'A', 384)),
        }
    }
}

/// Eraseblocks of 1,024 bytes, with 768 bytes of data from byte 256 on: room for four records.
pub fn larger() -> Result<Geometry, GeometryError> {
    Geometry::new(1024, 256, 64, 256, 32)
}

/// The bytes of some eraseblocks.
pub fn image(alloc: Global, geometry: &Geometry, rows: &[Row]) -> Result<Vec<u8>, AllocError> {
    let mut pebs = Vec::new(alloc);
    for row in rows {
        pebs.push(row.peb())?;
    }
    image_of(alloc, geometry, pebs.as_slice())
}

/// The table of an image, or the cause for which it has none.
pub fn table_of(
    alloc: Global,
    geometry: &Geometry,
    bytes: &[u8],
) -> Result<Result<Table, Refusal>, Fail> {
    let blocks = Blocks::new(geometry, bytes)?;
    let found = scan(alloc, &blocks)?;
    match choose(alloc, &blocks, &found) {
        Ok(table) => Ok(Ok(table)),
        Err(AttachError::Refused(cause)) => Ok(Err(cause)),
        Err(AttachError::Memory) => Err(AllocError.into()),
    }
}

/// The table of some eraseblocks.
pub fn chosen(alloc: Global, geometry: &Geometry, rows: &[Row]) -> Result<Table, Fail> {
    let bytes = image(alloc, geometry, rows)?;
    Ok(table_of(alloc, geometry, bytes.as_slice())??)
}

/// The number and the record of each volume of a table.
pub type Volumes = &'static [(u32, Slot)];

/// Some eraseblocks, and the volumes of their table, or for what cause they have none.
pub type Case = (&'static [Row], Result<Volumes, Refusal>);

/// Whether a table has some volumes and no others.
pub fn has_volumes(table: &Table, volumes: &[(u32, Slot)]) -> Result<bool, Fail> {
    let mut has = table.entries().len() == volumes.len();
    for (entry, (id, slot)) in table.entries().iter().zip(volumes) {
        has = has
            && *entry == (*id, slot.volume().ok_or("a name")?)
            && table.get(*id) == Some(&entry.1);
    }
    Ok(has)
}

/// Whether some eraseblocks have the table that is wanted, or none for the cause that is.
pub fn holds(alloc: Global, geometry: &Geometry, (rows, want): &Case) -> Result<bool, Fail> {
    let bytes = image(alloc, geometry, rows)?;
    match (table_of(alloc, geometry, bytes.as_slice())?, want) {
        (Ok(table), Ok(volumes)) => has_volumes(&table, volumes),
        (Err(found), Err(cause)) => Ok(found == *cause),
        _ => Ok(false),
    }
}

//! A section of a config, and the record of its volume.

ghost use Rattle.std.specs.Prelude.{◌≡◌, ◌*◌, ◌≤◌, IfOk, None, unwrap_or};
ghost use Rattle.ubi_config.specs.Records.{blocks_for, section_bytes, fitting, is_empty, parts_of, record_in, reserving, sized};
ghost use Rattle.ubi_media.specs.Record.{rec_fault, usable};

use crate::errors::ConfigCause;
use crate::text::Text;
use ubi_media::{Geometry, VolKind, VolName, VolumeRecord, rec_fault};

/// A section of a config: a volume.
#[derive(Debug, Drop, PartialEq)]
pub struct Section {
    /// The number of the line that begins it, counted from 1.
    pub line: u32,
    /// The number of the volume.
    pub id: u32,
    /// The name of the volume.
    pub name: VolName,
    /// The kind of the volume.
    pub kind: VolKind,
    /// The volume uses a multiple of this many bytes of each logical eraseblock.
    pub alignment: u32,
    /// 0x01 if the volume grows to the size of the device, 0x02 if the CRCs of a static one aren't checked, else 0.
    pub flags: u8,
    /// How many bytes are reserved for the volume, if the config says so.
    pub size: Option<u64>,
    /// The path of the file that holds its contents, if the config names one.
    pub image: Option<Text>,
}

/// How many parts of a size this many bytes have.
fn parts_of(bytes: u64, part: u32) -> u64
    requires { 1 ≤ part }
    ensures { result ≡ parts_of bytes part }
{
    bytes.div_ceil(u64::from(part))
}

impl Section {
    /// The record that reserves this many eraseblocks.
    fn reserving(&self, reserved: u32) -> VolumeRecord
        ensures { result ≡ reserving self.now reserved }
    {
        VolumeRecord {
            reserved,
            alignment: self.alignment,
            kind: self.kind,
            marker: false,
            name: self.name,
            flags: self.flags,
        }
    }

    /// How many bytes are reserved for the volume.
    fn bytes(&self, image_len: Option<u64>) -> u64
        ensures { result ≡ section_bytes self.now image_len }
    {
        match self.size {
            Some(size) => size,
            None => image_len.unwrap_or(0),
        }
    }

    /// Whether a volume that should have bytes has none: one without an image file, or a dynamic one with an empty file.
    fn is_empty(&self, image_len: Option<u64>) -> bool
        ensures { result ≡ is_empty self.now image_len }
    {
        match image_len {
            Some(len) => len == 0 && self.kind == VolKind::Dynamic,
            None => self.size.unwrap_or(0) == 0,
        }
    }

    /// The record of a volume of this many bytes: it reserves at least one eraseblock.
    fn sized(&self, geometry: &Geometry, bytes: u64) -> Result<VolumeRecord, ConfigCause>
        ensures value { result ≡ sized geometry.now self.now bytes }
        ensures faultless { IfOk result (λ r. rec_fault geometry.now r ≡ None) }
        ensures room { IfOk result (λ r. bytes ≤ r.reserved * usable geometry.now r) }
    {
        let smallest = self.reserving(1);
        if let Some(fault) = rec_fault(geometry, &smallest) {
            return Err(ConfigCause::Record(fault));
        }
        let parts = parts_of(bytes, smallest.usable(geometry));
        let reserved = parts.max(1);
        if reserved >= 0x8000_0000 {
            return Err(ConfigCause::TooLarge);
        }
        if self.id >= geometry.slots() {
            return Err(ConfigCause::IdRange);
        }
        Ok(self.reserving(reserved as u32))
    }

    /// The record of the section's volume, if its image file has `image_len` bytes: `None` if it names none. It reserves the
    /// eraseblocks that `vol_size`, or else the image file, fills, each without what the alignment leaves free. It reserves at
    /// least one, so a static volume may be empty.
    ///
    /// # Errors
    ///
    /// The first of these: [`Empty`](ConfigCause::Empty) if the image file of a dynamic volume is empty, or a volume
    /// without an image file has no byte;
    /// [`LongImage`](ConfigCause::LongImage) if the image file has more bytes than `vol_size`;
    /// [`Record`](ConfigCause::Record) if the alignment isn't right for the geometry;
    /// [`TooLarge`](ConfigCause::TooLarge) if 2^31 eraseblocks or more would be reserved;
    /// [`IdRange`](ConfigCause::IdRange) if the geometry has no slot for the volume.
    #[tactic(auto, unfolding(crate::specs::Records::record_in))]
    pub fn record(
        &self,
        geometry: &Geometry,
        image_len: Option<u64>,
    ) -> Result<VolumeRecord, ConfigCause>
        ensures value { result ≡ record_in geometry.now self.now image_len }
        ensures faultless { IfOk result (λ r. rec_fault geometry.now r ≡ None) }
        ensures room { IfOk result (λ r. unwrap_or image_len 0 ≤ r.reserved * usable geometry.now r) }
    {
        if self.is_empty(image_len) {
            return Err(ConfigCause::Empty);
        }
        let bytes = self.bytes(image_len);
        if bytes < image_len.unwrap_or(0) {
            return Err(ConfigCause::LongImage);
        }
        self.sized(geometry, bytes)
    }
}

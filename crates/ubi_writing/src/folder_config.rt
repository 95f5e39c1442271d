//! The config that `unpack` writes beside the files of the volumes.

ghost use Rattle.std.specs.FinMap as finite;
ghost use Rattle.std.specs.Prelude.{◌≡◌, All, IfErr, IfOk, None, OnOk};
ghost use Rattle.ubi_media.specs.Record.{rec_fault};
ghost use Rattle.ubi_volume.specs.Extract.{extent_in, extent_len};
ghost use Rattle.ubi_files.specs.Disk.{OthersStay};
ghost use Rattle.ubi_writing.specs.Unpack.{IsNewFile, all_described, described};
ghost use Rattle.ubi_writing.specs.inner.Folder.{IsConfigOf, config_in};

use crate::unpack::file_name;
use std::alloc::{AllocError, Global};
use ubi_config::{ConfigVolume, Text, write_config};
use ubi_dumps::unwritten_line;
use ubi_files::{Disk, Outcome, ToolError};
use ubi_media::VolumeRecord;
use ubi_volume::{Extent, Places, ReadError, write_all};

/// The config of a folder.
#[derive(Drop)]
pub(crate) struct FolderConfig {
    /// Its path.
    pub path: String,
    /// Its text.
    pub text: Vec<u8>,
    /// The answer if it can't be written.
    pub unwritten: Outcome,
}

/// A volume as the config describes it, by its extent.
fn described(
    alloc: Global,
    listed: &(u32, VolumeRecord),
    extent: &Result<Extent, ReadError>,
) -> Result<ConfigVolume, AllocError>
    ensures { IfOk result (λ v. v ≡ described (extent_len extent.now) listed.now) }
{
    let image = match extent {
        Ok(_) => {
            let file = file_name(alloc, listed)?;
            Some(Text::new(alloc, file.as_bytes())?)
        }
        Err(_) => None,
    };
    Ok(ConfigVolume {
        id: listed.0,
        entry: listed.1,
        image,
    })
}

/// The volumes of places, as the config describes them.
fn config_volumes(alloc: Global, places: &Places) -> Result<Vec<ConfigVolume>, AllocError>
    ensures sound { IfOk result (λ vs. All (λ v. rec_fault places.now.records.sizes v.entry ≡ None) vs.items) }
    ensures volumes { IfOk result (λ vs. vs.items ≡ all_described (λ id. extent_len (extent_in places.now id)) (finite.entries places.now.records.of)) }
{
    let mut volumes = Vec::new(alloc);
    for listed in places.table().entries() {
        let extent = places.extent(listed.0);
        let volume = described(alloc, listed, &extent)?;
        volumes.push(volume)?;
    }
    Ok(volumes)
}

/// The text of the config.
fn config_text(alloc: Global, places: &Places) -> Result<Vec<u8>, AllocError>
    ensures { IfOk result (λ text. text.items ≡ config_in places.now.records.sizes places.now) }
{
    let volumes = config_volumes(alloc, places)?;
    let geometry = places.table().geometry();
    write_config(alloc, &geometry, places.image_seq(), volumes.as_slice())
}

/// The config of a folder with the volumes of places.
///
/// # Errors
///
/// Memory ran out.
pub(crate) fn folder_config(
    alloc: Global,
    places: &Places,
    dir: &str,
) -> Result<FolderConfig, AllocError>
    ensures { IfOk result (IsConfigOf dir.now (config_in places.now.records.sizes places.now)) }
{
    let text = config_text(alloc, places)?;
    let mut path = String::from_str(alloc, dir)?;
    path.push_str("/ubi.ini")?;
    let unwritten = unwritten_line(alloc, path.as_str())?;
    Ok(FolderConfig {
        path,
        text,
        unwritten,
    })
}

/// Writes a text to a new file.
///
/// # Errors
///
/// `Write` if the file can't be made, or if a write failed.
pub(crate) fn write_new<D: Disk>(disk: &mut D, path: &str, text: &[u8]) -> Result<(), ToolError>
    ensures written { OnOk result (IsNewFile text.now path.now (D.files disk.old) (D.files disk.new)) }
    ensures others { OthersStay (D.files disk.old) (D.files disk.new) path.now }
    ensures failed { IfErr result (λ e. e ≡ ToolError.Write) }
{
    let Ok(mut file) = disk.create_new(path) else {
        return Err(ToolError::Write);
    };
    let work = write_all(&mut file.writer, text);
    disk.keep(file);
    match work {
        Ok(()) => Ok(()),
        Err(_) => Err(ToolError::Write),
    }
}

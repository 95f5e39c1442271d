//! Reading volumes of a meaning, whole or one logical eraseblock at a time.

ghost use Rattle.std.specs.FinMap as finite;
ghost use Rattle.std.specs.Option.{option_copied};
ghost use Rattle.std.specs.Prelude.{◌≡◌, ◌≤◌, ◌<◌, Err, IfErr, IfOk, IfSome, MatchOption, None, Ok, OnErr, Some, length, option_map};
ghost use Rattle.ubi_media.specs.Geometry.{leb_size};
ghost use Rattle.ubi_media.specs.Record.{rec_fault, usable};
ghost use Rattle.ubi_volume.specs.Meant.{Fits, IsVolume, pieces, share};
ghost use Rattle.ubi_volume.specs.Reading.{IsLebRead, leb_read, leb_text, read_leb, volume_len};
ghost use Rattle.ubi_volume.specs.declared.errors.ReadError.TheVariants.{NoVolume};

use crate::content::{Bytes, Content, Volume};
use crate::errors::ReadError;
use crate::meaning::Meaning;
use ubi_media::Geometry;

/// The volume with a number.
///
/// # Errors
///
/// `NoVolume` if there is none.
pub fn volume_of(meaning: &Meaning, id: u32) -> Result<&Volume, ReadError>
    ensures found { IfOk result (λ volume. finite.get meaning.now.volumes id ≡ Some volume.now) }
    ensures volume { IfOk result (λ volume. IsVolume meaning.now.sizes id volume.now) }
    ensures none { OnErr result (finite.get meaning.now.volumes id ≡ None) }
    ensures refused { IfErr result (λ e. e ≡ NoVolume) }
{
    meaning.get(id).ok_or(ReadError::NoVolume)
}

/// The share of a static volume's contents that stands in a logical eraseblock of `size` bytes. `None` if the contents end before it.
fn share_of(text: &[u8], size: u32, lnum: u32) -> Option<&[u8]>
    requires { 1 ≤ size }
    ensures inside { MatchOption result (pieces size (length text.now) ≤ lnum) (λ _. lnum < pieces size (length text.now)) }
    ensures part { IfSome result (λ part. part.now ≡ share size text.now lnum) }
{
    let from = lnum as usize * size as usize;
    if from >= text.len() {
        return None;
    }
    let rest = &text[from..];
    Some(&rest[..rest.len().min(size as usize)])
}

/// What a logical eraseblock of a volume reads, if bytes are kept of it. `None` if it reads 0xFF throughout.
///
/// # Errors
///
/// `Updating` or `Damaged` if the volume is, then `OutOfRange`.
fn leb_of<'a>(
    geometry: &Geometry,
    volume: &'a Volume,
    lnum: u32,
) -> Result<Option<&'a [u8]>, ReadError>
    requires sound { rec_fault geometry.now volume.now.entry ≡ None }
    requires fits { Fits geometry.now volume.now.entry volume.now.content }
    ensures read { IfOk result (λ text. leb_read geometry.now volume.now.entry lnum volume.now.content ≡ Ok (leb_text (usable geometry.now volume.now.entry) (option_map (λ t. t.now) text))) }
    ensures size { IfOk result (λ text. IfSome text (λ t. length t.now ≤ usable geometry.now volume.now.entry)) }
    ensures refused { IfErr result (λ e. leb_read geometry.now volume.now.entry lnum volume.now.content ≡ Err e) }
{
    match &volume.content {
        Content::Updating => Err(ReadError::Updating),
        Content::Damaged => Err(ReadError::Damaged),
        Content::Static(text) => {
            match share_of(text.as_slice(), volume.entry.usable(geometry), lnum) {
                Some(part) => Ok(Some(part)),
                None => Err(ReadError::OutOfRange),
            }
        }
        Content::Dynamic(lebs) => {
            if lnum >= volume.entry.reserved {
                return Err(ReadError::OutOfRange);
            }
            Ok(lebs.get(lnum).map(|text| text.as_slice()))
        }
    }
}

/// Reads a logical eraseblock of a volume into the front of `out`, and returns how many bytes that is; what stands after
/// them stays. For a dynamic volume they are as many as the volume uses, for a static one its share of the contents.
///
/// `out` has to have room for a logical eraseblock.
///
/// # Errors
///
/// The first of these that applies, with `out` as it was: `NoVolume`, `Updating`, `Damaged`, and `OutOfRange` if a
/// dynamic volume doesn't reserve it or a static volume's contents end before it.
pub fn read_leb(meaning: &Meaning, id: u32, lnum: u32, out: &mut [u8]) -> Result<usize, ReadError>
    requires { leb_size meaning.now.sizes ≤ length out.old }
    ensures read { IfOk result (IsLebRead meaning.now id lnum out.old out.new) }
    ensures refused { IfErr result (λ e. read_leb meaning.now id lnum ≡ Err e) }
    ensures kept { OnErr result (out.new ≡ out.old) }
{
    let geometry = meaning.geometry();
    let volume = volume_of(meaning, id)?;
    match leb_of(&geometry, volume, lnum)? {
        Some(text) => {
            out[..text.len()].copy_from_slice(text);
            Ok(text.len())
        }
        None => {
            let size = volume.entry.usable(&geometry) as usize;
            out[..size].fill(0xFF);
            Ok(size)
        }
    }
}

/// How many bytes a volume reads.
///
/// # Errors
///
/// The first of these that applies: `NoVolume`, `Updating`, `Damaged`.
pub fn volume_len(meaning: &Meaning, id: u32) -> Result<u64, ReadError>
    ensures { result ≡ volume_len meaning.now id }
{
    let volume = volume_of(meaning, id)?;
    match &volume.content {
        Content::Updating => Err(ReadError::Updating),
        Content::Damaged => Err(ReadError::Damaged),
        Content::Static(text) => Ok(text.as_slice().len() as u64),
        Content::Dynamic(_) => {
            let size = volume.entry.usable(&meaning.geometry());
            Ok(u64::from(volume.entry.reserved) * u64::from(size))
        }
    }
}

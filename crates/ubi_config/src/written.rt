//! Writing a config for volumes.

ghost use Rattle.std.specs.List.{flat_map, list_any};
ghost use Rattle.std.specs.Prelude.{◌≡◌, ◌++◌, ◌==◌, ◌∷◌, [], All, IfOk, None, Option, OnOk, Some, codes, count_by, decimal, option_map};
ghost use Rattle.ubi_config.specs.Values.{is_quotable};
ghost use Rattle.ubi_config.specs.Written.{bytes_reserved, config_text, ended, flag_lines, head, is_growing, is_no_value, is_writable, kind_word, left_out, may_grow, path_of, quote_of, quoted, remark_lines, section_lines, text_of, title, volume_lines};
ghost use Rattle.ubi_media.specs.Record.{rec_fault};

use crate::value::is_quotable;
use crate::volume::{ConfigVolume, LeftOut};
use itoa::Buffer;
use std::alloc::{AllocError, Global};
use ubi_media::{Geometry, VolKind, VolumeRecord};

/// The length of the longest value that is written, in bytes.
const LONGEST_VALUE: usize = 1011;

/// Whether a byte stands in bytes.
fn has_byte(bytes: &[u8], byte: u8) -> bool
    ensures { result ≡ list_any (λ b. b == byte) bytes.now }
{
    bytes.iter().any(|other| *other == byte)
}

/// Whether bytes have one that no value has.
fn has_no_value(bytes: &[u8]) -> bool
    ensures { result ≡ list_any is_no_value bytes.now }
{
    bytes.iter().any(|byte| *byte == 0 || *byte == b'\n')
}

/// The quote in which a value is written.
fn quote_of(value: &[u8]) -> u8
    ensures { result ≡ quote_of value.now }
{
    if has_byte(value, b'"') { b'\'' } else { b'"' }
}

/// Whether a value can be written.
fn is_writable(value: &[u8]) -> bool
    ensures { result ≡ is_writable value.now }
{
    is_quotable(value)
        && value.len() <= LONGEST_VALUE
        && !has_no_value(value)
        && !has_byte(value, quote_of(value))
}

/// The path of a volume's file.
fn path_of(volume: &ConfigVolume) -> &[u8]
    ensures { result.now ≡ path_of volume.now }
{
    match &volume.image {
        Some(path) => path.as_bytes(),
        None => &[],
    }
}

/// Whether few enough volumes grow.
fn may_grow(volumes: &[ConfigVolume]) -> bool
    ensures { result ≡ may_grow volumes.now }
{
    volumes.iter().filter(|volume| volume.is_growing()).count() <= 1
}

/// Why a volume is left out. `None` if it's described.
#[tactic(auto, unfolding(crate::specs::Written::left_out))]
fn left_out(grow: bool, volume: &ConfigVolume) -> Option<LeftOut>
    ensures { result ≡ left_out grow volume.now }
{
    if volume.entry.marker {
        return Some(LeftOut::Updating);
    }
    if volume.image.is_none() {
        return Some(LeftOut::Damaged);
    }
    if !is_writable(volume.entry.name.as_bytes()) {
        return Some(LeftOut::Name);
    }
    if !is_writable(path_of(volume)) {
        return Some(LeftOut::Path);
    }
    if !volume.has_words() {
        return Some(LeftOut::Flags);
    }
    if volume.is_growing() && !grow {
        return Some(LeftOut::Growing);
    }
    None
}

/// Adds a word.
fn put_word(text: &mut Vec<u8>, word: &str) -> Result<(), AllocError>
    ensures { OnOk result (text.new.items ≡ text.old.items ++ word.now) }
{
    text.extend_from_slice(word.as_bytes())
}

/// Adds a word and a decimal number.
fn put_number(text: &mut Vec<u8>, word: &str, number: u64) -> Result<(), AllocError>
    ensures { OnOk result (text.new.items ≡ text.old.items ++ (word.now ++ decimal number)) }
{
    let mut buffer = Buffer::new();
    put_word(text, word)?;
    put_word(text, buffer.format(number))
}

/// Adds a line.
fn put_line(text: &mut Vec<u8>, word: &str, rest: &str) -> Result<(), AllocError>
    ensures { OnOk result (text.new.items ≡ text.old.items ++ text_of ((word.now ++ rest.now) ∷ [])) }
{
    put_word(text, word)?;
    put_word(text, rest)?;
    put_word(text, "\n")
}

/// Adds a line that ends with a number.
fn put_number_line(text: &mut Vec<u8>, word: &str, number: u64) -> Result<(), AllocError>
    ensures { OnOk result (text.new.items ≡ text.old.items ++ text_of ((word.now ++ decimal number) ∷ [])) }
{
    put_number(text, word, number)?;
    put_word(text, "\n")
}

/// Adds a line that ends with a value in quotes.
fn put_value_line(text: &mut Vec<u8>, word: &str, value: &[u8]) -> Result<(), AllocError>
    ensures { OnOk result (text.new.items ≡ text.old.items ++ text_of ((word.now ++ quoted value.now) ∷ [])) }
{
    let quote = quote_of(value);
    put_word(text, word)?;
    text.push(quote)?;
    text.extend_from_slice(value)?;
    text.push(quote)?;
    put_word(text, "\n")
}

fn kind_word(kind: VolKind) -> &'static str
    ensures { result.now ≡ kind_word kind }
{
    match kind {
        VolKind::Dynamic => "dynamic",
        VolKind::Static => "static",
    }
}

/// Adds the line that begins the section of a volume, after an empty one.
fn put_heading(text: &mut Vec<u8>, id: u32) -> Result<(), AllocError>
    ensures { OnOk result (text.new.items ≡ text.old.items ++ text_of ([] ∷ (codes "[" ++ title id ++ codes "]") ∷ [])) }
{
    put_number(text, "\n[volume-", u64::from(id))?;
    put_word(text, "]\n")
}

/// Adds the line of flags, if there are some.
fn put_flags(text: &mut Vec<u8>, flags: u8) -> Result<(), AllocError>
    ensures { OnOk result (text.new.items ≡ text.old.items ++ text_of (flag_lines flags)) }
{
    match flags {
        1 => put_word(text, "vol_flags=autoresize\n"),
        2 => put_word(text, "vol_flags=skip-check\n"),
        _ => Ok(()),
    }
}

/// How many bytes a volume reserves.
fn bytes_reserved(geometry: &Geometry, entry: &VolumeRecord) -> u64
    requires { rec_fault geometry.now entry.now ≡ None }
    ensures { result ≡ bytes_reserved geometry.now entry.now }
{
    u64::from(entry.reserved) * u64::from(entry.usable(geometry))
}

/// Adds the section of a volume.
fn put_section(
    text: &mut Vec<u8>,
    geometry: &Geometry,
    volume: &ConfigVolume,
) -> Result<(), AllocError>
    requires { rec_fault geometry.now volume.now.entry ≡ None }
    ensures { OnOk result (text.new.items ≡ text.old.items ++ text_of (section_lines geometry.now volume.now)) }
{
    let entry = &volume.entry;
    put_heading(text, volume.id)?;
    put_line(text, "mode=", "ubi")?;
    put_number_line(text, "vol_id=", u64::from(volume.id))?;
    put_line(text, "vol_type=", kind_word(entry.kind))?;
    put_value_line(text, "vol_name=", entry.name.as_bytes())?;
    put_number_line(text, "vol_size=", bytes_reserved(geometry, entry))?;
    put_number_line(text, "vol_alignment=", u64::from(entry.alignment))?;
    put_value_line(text, "image=", path_of(volume))?;
    put_flags(text, entry.flags)?;
    Ok(())
}

/// Adds the remark that says why a volume has no section.
fn put_remark(text: &mut Vec<u8>, volume: &ConfigVolume, why: LeftOut) -> Result<(), AllocError>
    ensures { OnOk result (text.new.items ≡ text.old.items ++ text_of (remark_lines volume.now why)) }
{
    put_number(text, "\n# volume ", u64::from(volume.id))?;
    put_word(text, " is left out: ")?;
    put_word(text, why.words())?;
    put_word(text, "\n")?;
    Ok(())
}

/// Adds the lines of a volume: its section, or else the remark.
fn put_volume(
    text: &mut Vec<u8>,
    geometry: &Geometry,
    grow: bool,
    volume: &ConfigVolume,
) -> Result<(), AllocError>
    requires { rec_fault geometry.now volume.now.entry ≡ None }
    ensures { OnOk result (text.new.items ≡ text.old.items ++ text_of (volume_lines geometry.now grow volume.now)) }
{
    match left_out(grow, volume) {
        None => put_section(text, geometry, volume),
        Some(why) => put_remark(text, volume, why),
    }
}

/// Adds the remark with the words that build the image again.
fn put_head(text: &mut Vec<u8>, geometry: &Geometry, image_seq: u32) -> Result<(), AllocError>
    ensures { OnOk result (text.new.items ≡ text.old.items ++ ended (head geometry.now image_seq)) }
{
    let peb_size = u64::from(geometry.peb_size());
    put_number(
        text,
        "# ubi_tool build ubi.ini --out IMAGE --peb ",
        peb_size,
    )?;
    put_number(text, " --page ", u64::from(geometry.page()))?;
    put_number(text, " --vid ", u64::from(geometry.vid_offset()))?;
    put_number(text, " --data ", u64::from(geometry.data_offset()))?;
    put_number(text, " --pebs ", u64::from(geometry.pebs()))?;
    put_number(text, " --seq ", u64::from(image_seq))?;
    put_word(text, "\n")?;
    Ok(())
}

/// The config for volumes whose contents lie in files: a section for each, in order. Its first line is a remark with the
/// words of `ubi_tool build` that build the image again, once IMAGE is replaced by the path of a file. If no config can
/// describe a volume, or its contents can't be read, it has a remark in place of its section, which says [why](LeftOut).
///
/// The records must break no rule under the geometry.
///
/// # Errors
///
/// Memory ran out.
pub fn write_config(
    alloc: Global,
    geometry: &Geometry,
    image_seq: u32,
    volumes: &[ConfigVolume],
) -> Result<Vec<u8>, AllocError>
    requires { All (λ v. rec_fault geometry.now v.entry ≡ None) volumes.now }
    ensures { IfOk result (λ text. text.items ≡ config_text geometry.now image_seq volumes.now) }
{
    let grow = may_grow(volumes);
    let mut text = Vec::new(alloc);
    put_head(&mut text, geometry, image_seq)?;
    for volume in volumes {
        put_volume(&mut text, geometry, grow, volume)?;
    }
    Ok(text)
}

//! Reading the headers of the eraseblocks of a source.

ghost use Rattle.std.specs.Prelude.{◌≡◌, ◌<◌, ◌≤◌, ◌+◌, IfErr, IfOk, OnOk, length, map, slice_range, string_bytes};
ghost use Rattle.ubi_map.specs.Headers.{AreHeaderLines, block_lines};
ghost use Rattle.ubi_map.specs.Letters.{header_letters};
ghost use Rattle.ubi_map.specs.Map.{block_texts};
ghost use Rattle.ubi_scan.specs.Image.{block};
ghost use Rattle.ubi_scan.specs.Source.{Narrows, WhereHeld, blocks_in, blocks_of};
ghost use Rattle.ubi_scan.specs.Stream.{IsReadFailure, NamesBlock, after};

use crate::headers::header_text;
use crate::letters::header_letter;
use std::alloc::{AllocError, Global};
use ubi_media::Geometry;
use ubi_scan::{BlockSource, StreamError, read_headers, read_part};

/// The lines of the headers of an eraseblock of a source. Only these are read.
///
/// # Errors
///
/// `Read` if a read failed. `Memory` if memory ran out.
pub fn block_text<S: BlockSource>(
    alloc: Global,
    geometry: &Geometry,
    source: &mut S,
    p: u32,
) -> Result<String, StreamError>
    requires { p < blocks_in geometry.now (S.known source.old) }
    ensures known { S.known source.new ≡ after (S.known source.old) result }
    ensures narrows { Narrows (S.agrees source.old) (S.agrees source.new) }
    ensures form { IfOk result (λ text. AreHeaderLines geometry.now (string_bytes text)) }
    ensures lines { IfOk result (λ text. WhereHeld (S.agrees source.new) (λ bytes. string_bytes text ≡ block_lines geometry.now (block (blocks_of geometry.now bytes) p))) }
    ensures failed { IfErr result (IsReadFailure (blocks_in geometry.now (S.known source.old))) }
    ensures named { IfErr result (NamesBlock geometry.now (S.failed_at source.new)) }
{
    let (mut ec, mut vid) = ([0u8; 64], [0u8; 64]);
    prove!(geometry.peb_size() >= 64);
    read_part(source, geometry, p, 0, &mut ec)?;
    prove!(geometry.data_offset() <= geometry.peb_size());
    read_part(source, geometry, p, geometry.vid_offset(), &mut vid)?;
    Ok(header_text(alloc, geometry, &ec, &vid)?)
}

/// The first eraseblocks of a source, each as the lines of its headers.
///
/// # Errors
///
/// Those of [`block_text`].
pub fn block_texts<S: BlockSource>(
    alloc: Global,
    geometry: &Geometry,
    source: &mut S,
    count: u32,
) -> Result<Vec<String>, StreamError>
    requires { count ≤ blocks_in geometry.now (S.known source.old) }
    ensures known { S.known source.new ≡ after (S.known source.old) result }
    ensures narrows { Narrows (S.agrees source.old) (S.agrees source.new) }
    ensures blocks { IfOk result (λ texts. WhereHeld (S.agrees source.new) (λ bytes. map string_bytes texts.items ≡ block_texts geometry.now (blocks_of geometry.now bytes) count)) }
    ensures failed { IfErr result (IsReadFailure (blocks_in geometry.now (S.known source.old))) }
    ensures named { IfErr result (NamesBlock geometry.now (S.failed_at source.new)) }
{
    let mut texts = Vec::new(alloc);
    for p in 0..count {
        let text = block_text(alloc, geometry, source, p)?;
        match texts.push(text) {
            Ok(()) => {}
            Err(full) => return Err(AllocError::from(full).into()),
        }
    }
    Ok(texts)
}

/// A letter for each of the first eraseblocks of a source, by its headers alone.
///
/// # Errors
///
/// Those of [`block_text`].
pub fn header_letters<S: BlockSource>(
    alloc: Global,
    geometry: &Geometry,
    source: &mut S,
    count: u32,
) -> Result<String, StreamError>
    requires { count ≤ blocks_in geometry.now (S.known source.old) }
    ensures known { S.known source.new ≡ after (S.known source.old) result }
    ensures narrows { Narrows (S.agrees source.old) (S.agrees source.new) }
    ensures letters { IfOk result (λ letters. WhereHeld (S.agrees source.new) (λ bytes. string_bytes letters ≡ header_letters geometry.now (blocks_of geometry.now bytes) count)) }
    ensures failed { IfErr result (IsReadFailure (blocks_in geometry.now (S.known source.old))) }
    ensures named { IfErr result (NamesBlock geometry.now (S.failed_at source.new)) }
{
    let mut buffer = Vec::from_elem(alloc, 0u8, geometry.peb_size() as usize)?;
    let buffer = buffer.as_mut_slice();
    let mut letters = String::new(alloc);
    for p in 0..count {
        let (ec, vid) = read_headers(source, geometry, p, buffer)?;
        letters.push_str(header_letter(&ec, &vid))?;
    }
    Ok(letters)
}

//! Reading the bytes of a file to its end, or up to a limit.

ghost use Rattle.std.specs.Prelude.{◌≡◌, ◌≢◌, ◌≤◌, IfOk, IfErr, IfSome, List, OnErr, length, min, take, vec_len, ℕ};
ghost use Rattle.std.specs.Io.KnownBytes.{Consumes};
ghost use Rattle.ubi_files.specs.Read.{TakesAtMost};

use crate::host_file::tell_path;
use crate::outcome::ToolError;
use std::alloc::Global;
use std::fs;
use std::fs::{Files, OpenFile};
use std::io::{ErrorKind, Read, Seek, SeekFrom};
use std::os::unix::fs::FileTypeExt;

/// How many bytes are read at once.
const CHUNK: usize = 16_384;

/// All bytes of a reader, or the first `limit` of them if there are more. Space for as many as are expected is reserved
/// first, within the limit, so it is allocated once; if there are more, what is kept grows with what was read.
///
/// # Errors
///
/// `Read` if a read fails, with an error of any kind; no read is tried again. `Memory` if memory ran out. The reader
/// may then stand further on, by `limit` bytes at most.
pub fn read_limited<R: Read>(
    alloc: Global,
    reader: &mut R,
    limit: u64,
    expected: u64,
) -> Result<Vec<u8>, ToolError>
    ensures bytes { IfOk result (λ v. IfSome (R.remaining reader.old) (λ xs. v.items ≡ take limit xs)) }
    ensures within { IfOk result (λ v. vec_len v ≤ limit) }
    ensures rest { IfOk result (λ v. Consumes (R.remaining reader.old) (R.remaining reader.new) v.items) }
    ensures taken { OnErr result (TakesAtMost limit (R.remaining reader.old) (R.remaining reader.new)) }
    ensures err { IfErr result (λ e. e ≢ ToolError.Write) }
{
    let mut bytes = Vec::new(alloc);
    bytes.reserve(limit.min(expected) as usize)?;
    let mut chunk = [0u8; CHUNK];
    let mut left = limit;
    while left > 0 {
        let room = left.min(CHUNK as u64) as usize;
        let count = match reader.read(&mut chunk[..room]) {
            Ok(0) => return Ok(bytes),
            Ok(count) => count,
            Err(_) => return Err(ToolError::Read),
        };
        bytes.extend_from_slice(&chunk[..count])?;
        left -= count as u64;
    }
    Ok(bytes)
}

/// Passes over the first bytes of a reader, `limit` of them at most, and says how many they were.
///
/// # Errors
///
/// `Read` if a read fails, with an error of any kind; no read is tried again. The reader may then stand further on, by `limit`
/// bytes at most.
pub fn skip_limited<R: Read>(reader: &mut R, limit: u64) -> Result<u64, ToolError>
    ensures count { IfOk result (λ n. IfSome (R.remaining reader.old) (λ xs. n ≡ min limit (length xs))) }
    ensures within { IfOk result (λ n. n ≤ limit) }
    ensures rest { IfOk result (λ n. (skipped : List ℕ) × (length skipped ≡ n) × Consumes (R.remaining reader.old) (R.remaining reader.new) skipped) }
    ensures taken { OnErr result (TakesAtMost limit (R.remaining reader.old) (R.remaining reader.new)) }
    ensures err { IfErr result (λ e. e ≡ ToolError.Read) }
{
    let mut chunk = [0u8; CHUNK];
    let mut skipped = 0;
    while skipped < limit {
        let room = (limit - skipped).min(CHUNK as u64) as usize;
        let Ok(count) = reader.read(&mut chunk[..room]) else {
            return Err(ToolError::Read);
        };
        if count == 0 {
            return Ok(skipped);
        }
        skipped += count as u64;
    }
    Ok(skipped)
}

/// Whether a file that was just opened has an end. A character device that has places but no size, such as
/// `/dev/zero`, has none. One that has no places, such as a terminal, is read like a pipe.
fn has_end<F: OpenFile + Seek>(file: &mut F) -> bool {
    let is_device = match file.metadata() {
        Ok(metadata) => metadata.file_type().is_char_device(),
        Err(_) => false,
    };
    if !is_device {
        return true;
    }
    match file.seek(SeekFrom::End(0)) {
        Ok(len) => len > 0 && file.seek(SeekFrom::Start(0)).is_ok(),
        Err(error) => error.kind() == ErrorKind::NotSeekable,
    }
}

/// How many bytes a file is expected to have: what the system says of it, or 0.
pub fn expected_len<F: OpenFile>(file: &F) -> u64 {
    match file.metadata() {
        Ok(metadata) => metadata.len(),
        Err(_) => 0,
    }
}

/// Opens a file that is to be read from its beginning to its end. If it can't be, standard error says why.
///
/// # Errors
///
/// `Read` if it can't be opened, or if it has no end.
pub fn open_whole<R: Files + Eprint>(rt: &R, path: &str) -> Result<R::File, ToolError>
    ensures { IfErr result (λ e. e ≡ ToolError.Read) }
{
    match fs::open(rt, path) {
        Ok(mut file) => {
            if has_end(&mut file) {
                return Ok(file);
            }
            let _ = rt.eprintln(format_args!("{path}: it has no end"));
            Err(ToolError::Read)
        }
        Err(error) => {
            tell_path(rt, path, &error);
            Err(ToolError::Read)
        }
    }
}

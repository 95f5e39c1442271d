//! Folders of the system.

use crate::host_file::tell_path;
use std::fs::Files;
use std::io::Read;
use std::{fs, io};

/// How many bytes of the names in a folder are read at once.
const CHUNK: usize = 1024;

/// Whether the only names that were read are those of the folder itself and of the one above it. Each is followed by a zero byte.
fn has_no_name(names: &[u8]) -> bool {
    names.split(|byte| *byte == 0).all(|name| name.is_empty()
        || name == b".".as_slice()
        || name == b"..".as_slice())
}

/// Whether there is a folder at a path, itself and not by a link, with nothing in it. False if that can't be found out.
fn is_empty_folder<R: Files>(rt: &R, path: &str) -> bool {
    match fs::symlink_metadata(rt, path) {
        Ok(metadata) if metadata.is_dir() => {}
        _ => return false,
    }
    let Ok(mut names) = rt.open_dir(path) else {
        return false;
    };
    let mut chunk = [0u8; CHUNK];
    for _ in 0..u64::MAX {
        match names.read(&mut chunk) {
            Ok(0) => return true,
            Ok(count) if has_no_name(&chunk[..count]) => {}
            _ => return false,
        }
    }
    false
}

/// Says on standard error why the folder at a path can't be made: it holds files, or what the system says.
fn tell_unmade<R: Files + Eprint>(rt: &R, path: &str, error: &io::Error) {
    match fs::symlink_metadata(rt, path) {
        Ok(metadata) if metadata.is_dir() => {
            let _ = rt.eprintln(format_args!("{path}: it holds files"));
        }
        _ => tell_path(rt, path, error),
    }
}

/// Makes the folder at a path, or finds that there is one without files. If neither is so, standard error says why.
///
/// # Errors
///
/// There is something else at the path, or it can't be made.
pub fn make_folder<R: Files + Eprint>(rt: &R, path: &str) -> io::Result<()> {
    match fs::create_dir(rt, path) {
        Ok(()) => Ok(()),
        Err(_) if is_empty_folder(rt, path) => Ok(()),
        Err(error) => {
            tell_unmade(rt, path, &error);
            Err(error)
        }
    }
}

//! The word that stands for standard input where a file is read, and for standard output where one is written.

use std::fs::{Files, OpenOptions};
use std::io;

/// The word.
pub const STREAM: &str = "-";

/// The path of standard input.
const INPUT: &str = "/dev/stdin";

/// The path of standard output.
pub const OUTPUT: &str = "/dev/stdout";

/// The path of the file that is read for a word.
pub fn read_path(word: &str) -> &str {
    if word == STREAM { INPUT } else { word }
}

/// The path of the file that is written for a word.
pub fn written_path(word: &str) -> &str {
    if word == STREAM { OUTPUT } else { word }
}

/// Opens standard output, to be written behind what it has: whoever opened it has cut it or not.
///
/// # Errors
///
/// It can't be opened, as it is closed or a socket.
pub fn open_output<R: Files>(rt: &R) -> io::Result<R::File> {
    OpenOptions::new().append(true).open(rt, OUTPUT)
}

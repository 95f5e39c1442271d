//! The word that stands for standard input.

use std::alloc::{AllocError, Global};
use ubi_files::STREAM;

/// The path of standard input.
const INPUT: &str = "/dev/stdin";

/// The command whose file names others, which lie beside it.
const BUILD: &str = "build";

/// Whether a word is an option that the next word is the value of. Each option has one.
fn takes_next(word: &str) -> bool {
    word.starts_with("--") && word != "--" && !word.contains('=')
}

/// Puts the path of standard input in the place of each `-` that is no value of an option, so that it isn't taken for the file that
/// `--out -` writes. The config of `build` stays `-`: its image files are named from where the program runs.
///
/// # Errors
///
/// Memory ran out.
pub fn put_input(alloc: Global, words: &mut [String]) -> Result<(), AllocError> {
    if words.len() > 1 && words[1].as_str() == BUILD {
        return Ok(());
    }
    for i in 1..words.len() {
        if words[i].as_str() == STREAM && !takes_next(words[i - 1].as_str()) {
            words[i] = String::from_str(alloc, INPUT)?;
        }
    }
    Ok(())
}

//! Which files a run may open to write them.

use ubi_files::Outcome;

/// The word after an option, if it is there.
fn value<'a>(line: &'a str, option: &str) -> Option<&'a str> {
    let mut is_next = false;
    for word in line.split_whitespace() {
        if is_next {
            return Some(word);
        }
        is_next = word == option;
    }
    None
}

/// Whether nothing may be opened: the words are wrong, the work is refused, or nothing was written by a read that failed.
fn opens_nothing(outcome: &Outcome, is_unwritten: bool) -> bool {
    let text = outcome.text.as_slice();
    let is_unread = text.starts_with(b"cannot read ");
    outcome.status == 2
        || text.starts_with(b"refused ")
        || text.starts_with(b"left ")
        || text.starts_with(b"right ")
        || (is_unread && is_unwritten)
}

/// Whether the output is the image, by its path, and there are no pages.
fn is_replaced(line: &str) -> bool {
    line.split_whitespace().nth(1) == value(line, "--out") && value(line, "--pages").is_none()
}

/// Whether the one path that was opened is that of a new file beside the output, which takes its place; or none was, where the work isn't
/// done.
fn is_beside(out: &str, is_done: bool, opened: &str) -> bool {
    let mut paths = opened.lines();
    match paths.next() {
        None => !is_done,
        Some(path) => path.strip_prefix(out) == Some(".new0") && paths.next().is_none(),
    }
}

/// Whether the paths that were opened, a line each, are the first ones of those after `--out` and `--pages`, and all of
/// them where the work is done.
fn are_outputs(line: &str, is_done: bool, opened: &str) -> bool {
    let (out, pages) = (value(line, "--out"), value(line, "--pages"));
    if is_replaced(line) {
        return is_beside(out.unwrap_or(""), is_done, opened);
    }
    let mut paths = opened.lines();
    let (first, second) = (paths.next(), paths.next());
    let is_first = first == out || (!is_done && first.is_none());
    let is_second = second == pages || (!is_done && second.is_none());
    is_first && is_second && paths.next().is_none()
}

/// Whether they are files of the folder after `--out`, and as many as lines were printed, and the config, where the work is done.
fn are_unpacked(line: &str, outcome: &Outcome, opened: &str) -> bool {
    let Some(folder) = value(line, "--out") else {
        return opened.is_empty();
    };
    let mut count: usize = 0;
    for path in opened.lines() {
        count = count.saturating_add(1);
        match path.strip_prefix(folder) {
            Some(name) if name.starts_with("/") => {}
            _ => return false,
        }
    }
    let mut printed: usize = 0;
    for byte in outcome.text.as_slice() {
        if *byte == b'\n' {
            printed = printed.saturating_add(1);
        }
    }
    outcome.status != 0 || count == printed.saturating_add(1)
}

/// Whether a line opened the files that its outcome may have been written to, in order, and none else. The paths stand a line
/// each.
pub fn opens_right(line: &str, outcome: &Outcome, is_unwritten: bool, opened: &str) -> bool {
    if opens_nothing(outcome, is_unwritten) {
        return opened.is_empty();
    }
    if line.starts_with("unpack ") {
        return are_unpacked(line, outcome, opened);
    }
    are_outputs(line, outcome.status == 0, opened)
}

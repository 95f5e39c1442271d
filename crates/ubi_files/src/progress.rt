//! A line on the terminal that shows how far long work is.

ghost use Rattle.std.specs.Prelude.{◌≡◌};

use std::io;
use std::io::Write;

/// The number of bytes from which on the progress of work on an image is shown.
const LONG: u64 = 1 << 28;

/// A writer that hands everything on to another, and shows on standard error how far that is. The other writer reaches standard error, too.
///
/// Its contents are those of the other.
#[derive(Drop)]
pub struct ProgressWriter<W> {
    writer: W,
    /// How many bytes it may receive, if that is shown.
    most: Option<u64>,
    /// How many it has received.
    received: u64,
    /// The hundredth that was shown last.
    last: u64,
}

impl<W: Write + Eprint> ProgressWriter<W> {
    /// A writer for work on `most` bytes. Its progress is shown if these are many and `is_watched`.
    pub fn new(writer: W, most: u64, is_watched: bool) -> ProgressWriter<W>
        ensures { result.writer ≡ writer }
    {
        ProgressWriter {
            writer,
            most: if is_watched && most >= LONG {
                Some(most)
            } else {
                None
            },
            received: 0,
            last: 0,
        }
    }

    /// Shows how far it is, if that is another hundredth than before.
    fn show(&mut self)
        ensures { W.contents self.new.writer ≡ W.contents self.old.writer }
    {
        let Some(most) = self.most else {
            return;
        };
        let now = self.received / (most / 100).max(1);
        if now != self.last {
            self.last = now;
            let _ = self.writer.eprint(format_args!("\r{now} % of the image"));
        }
    }

    /// The other writer.
    pub fn into_writer(self) -> W
        ensures { result ≡ self.writer }
    {
        self.writer
    }

    /// Removes the line.
    pub fn clear(&self) {
        if self.last > 0 {
            let _ = self.writer.eprint("\r\x1b[K");
        }
    }
}

impl<W: Write + Eprint> Write for ProgressWriter<W> {
    ghost contents = { λ progress. W.contents progress.writer };

    fn write(&mut self, buf: &[u8]) -> io::Result<usize> {
        let count = self.writer.write(buf)?;
        self.received = self.received.saturating_add(count as u64);
        self.show();
        Ok(count)
    }

    fn flush(&mut self) -> io::Result<()> {
        self.writer.flush()
    }
}

//! A writer for tests.

ghost use Rattle.std.specs.Prelude.{◌≡◌, [], IfOk, Some, None, MatchResult, IsOk, length};
ghost use Rattle.std.specs.Io.KnownBytes.{Keeps, WriteAppends};
ghost use Rattle.std.specs.Io.{WritesAtMost};
ghost use Rattle.ubi_probe.specs.ProbedWriter.{IsSameWriter, answer};

use std::alloc::{AllocError, Global};
use std::io;
use std::io::{ErrorKind, Write};
use std::marker::Model;

/// How a writer without room fails.
#[derive(Clone, Copy, Debug, PartialEq, Eq)]
pub enum Failure {
    /// By an error of a kind.
    Error(ErrorKind),
    /// By taking nothing.
    Nothing,
}

/// A writer in memory, for tests. It has room for a number of bytes and then fails. At once it takes all that is
/// written, or up to a number of bytes.
#[derive(Drop)]
pub struct ProbeWriter {
    /// As many bytes as there is room for, the first `len` of them taken.
    buffer: Vec<u8>,
    len: usize,
    most: usize,
    failure: Failure,
}

impl Model for ProbeWriter {
    ghost use Rattle.std.specs.Prelude.{◌≤◌, length, take};
    ghost use Rattle.ubi_probe.specs.ProbedWriter.{Probe, probe_code};

    ghost Value = { Probe };

    ghost coded = { probe_code };

    ghost view = { λ w. record { taken = take w.len w.buffer.items; room = length w.buffer.items; most = w.most; failure = w.failure } };

    ghost invariant = { λ w. w.len ≤ length w.buffer.items };
}

impl ProbeWriter {
    /// A writer with room for `room` bytes, which it reserves. It takes at most `most` of them at once.
    ///
    /// # Errors
    ///
    /// Memory ran out.
    pub fn new(
        alloc: Global,
        room: usize,
        most: usize,
        failure: Failure,
    ) -> Result<ProbeWriter, AllocError>
        ensures { IfOk result (λ writer. writer ≡ record { taken = []; room = room; most = most; failure = failure }) }
    {
        Ok(ProbeWriter {
            buffer: Vec::from_elem(alloc, 0, room)?,
            len: 0,
            most,
            failure,
        })
    }

    /// The bytes that it has taken.
    pub fn taken(&self) -> &[u8]
        ensures { result.now ≡ self.now.taken }
    {
        &self.buffer[..self.len]
    }
}

impl Write for ProbeWriter {
    ghost contents = { λ writer. Some writer.taken };

    fn write(&mut self, buf: &[u8]) -> io::Result<usize>
        ensures bound { WritesAtMost result buf.now }
        ensures bytes { WriteAppends (Some self.old.taken) (Some self.new.taken) result buf.now }
        ensures answer { MatchResult result (λ n. answer self.old (length buf.now) ≡ Some n) (λ _. answer self.old (length buf.now) ≡ None) }
        ensures kept { IsSameWriter self.old self.new }
    {
        let left = self.buffer.len() - self.len;
        let count = buf.len().min(left).min(self.most);
        if count == 0 && !buf.is_empty() {
            return match self.failure {
                Failure::Error(kind) => Err(io::Error::from(kind)),
                Failure::Nothing => Ok(0),
            };
        }
        self.buffer[self.len..self.len + count].copy_from_slice(&buf[..count]);
        self.len += count;
        Ok(count)
    }

    fn flush(&mut self) -> io::Result<()>
        ensures bytes { Keeps (Some self.old.taken) (Some self.new.taken) }
        ensures ok { IsOk result }
        ensures unchanged { self.new ≡ self.old }
    {
        Ok(())
    }
}

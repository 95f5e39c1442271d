//! A writer to a buffer of the caller, up to its end.

ghost use Rattle.std.specs.Io.{WritesAtMost};
ghost use Rattle.std.specs.Io.KnownBytes.{Keeps, WriteAppends};
ghost use Rattle.std.specs.Prelude.{◌≡◌, ◌≤◌, ◌+◌, ◌-◌, ◌++◌, ℕ, [], IsOk, List, Ok, Some, drop, length, min, take};

use std::io;
use std::io::Write;
use std::marker::{Brand, PhantomData};

/// Which buffer is filled. It exists only in proofs.
pub trait Room {
    // What it held before.
    ghost before: { List ℕ };

    // The reference to it.
    ghost buffer: { ℕ };
}

impl Room for Brand {
    ghost before = { [] };

    ghost buffer = { 0 };
}

/// Puts bytes into a buffer, from a place on.
fn put_at(out: &mut [u8], start: usize, bytes: &[u8])
    requires { start + length bytes.now ≤ length out.old }
    ensures taken { take (start + length bytes.now) out.new ≡ take start out.old ++ bytes.now }
    ensures rest { drop (start + length bytes.now) out.new ≡ drop (start + length bytes.now) out.old }
    ensures room { length out.new ≡ length out.old }
{
    out[start..start + bytes.len()].copy_from_slice(bytes);
}

/// A writer to a buffer, from its beginning to its end. What it has no room for it doesn't take.
///
/// Its contents are what it has taken.
#[derive(Drop)]
pub struct Filling<'a, K: Room> {
    out: &'a mut [u8],
    filled: usize,
    of: PhantomData<K>,
    ghost same: { out.ghost_name ≡ K.buffer },
    ghost within: { filled ≤ length out.now },
    ghost room: { length out.now ≡ length K.before },
    ghost rest: { drop filled out.now ≡ drop filled K.before },
}

impl<'a, K: Room> Filling<'a, K> {
    /// A writer to a buffer.
    pub fn new(out: &'a mut [u8]) -> Filling<'a, K>
        requires same { out.ghost_name ≡ K.buffer }
        requires before { out.old ≡ K.before }
        ensures empty { result.filled ≡ 0 }
        ensures before { result.out.now ≡ K.before }
    {
        Filling {
            out,
            filled: 0,
            of: PhantomData,
        }
    }

    /// The buffer, and how many bytes of it are filled.
    pub fn into_parts(self) -> (&'a mut [u8], usize)
        ensures same { result.0.ghost_name ≡ K.buffer }
        ensures bytes { result.0.now ≡ self.entry.out.now }
        ensures filled { result.1 ≡ self.entry.filled }
        ensures within { result.1 ≤ length result.0.now }
        ensures room { length result.0.now ≡ length K.before }
        ensures rest { drop result.1 result.0.now ≡ drop result.1 K.before }
    {
        (self.out, self.filled)
    }
}

impl<K: Room> Write for Filling<'_, K> {
    ghost contents = { λ f. Some (take f.filled f.out.now) };

    fn write(&mut self, buf: &[u8]) -> io::Result<usize>
        ensures bound { WritesAtMost result buf.now }
        ensures bytes { WriteAppends (Some (take self.old.filled self.old.out.now)) (Some (take self.new.filled self.new.out.now)) result buf.now }
        ensures count { result ≡ Ok (min (length buf.now) (length self.old.out.now - self.old.filled)) }
    {
        let start = self.filled;
        let count = buf.len().min(self.out.len() - start);
        self.filled = start + count;
        put_at(self.out, start, &buf[..count]);
        Ok(count)
    }

    fn flush(&mut self) -> io::Result<()>
        ensures bytes { Keeps (Some (take self.old.filled self.old.out.now)) (Some (take self.new.filled self.new.out.now)) }
        ensures ok { IsOk result }
    {
        Ok(())
    }
}

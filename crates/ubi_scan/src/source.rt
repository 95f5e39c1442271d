//! Sources: bytes that are read at places, and what is known of them.

ghost use Rattle.std.specs.Prelude.{◌≡◌, ℕ, ◌+◌, ◌≤◌, List, None, length, slice_range, OnErr, OnOk, Some, codes, [], refl};
ghost use Rattle.ubi_scan.specs.Source.{Agreed, AreKnownBy, IsSource, MayHold, Narrows, Reads, Source, WhereHeld, after_read, noted, holds, memory, memory_owned, memory_sized};

use std::error::Error;
use std::fmt;
use std::marker::Model;

/// A read that failed.
#[derive(Clone, Copy, Debug, PartialEq, Eq)]
pub struct SourceFault;

impl fmt::Display for SourceFault {
    ghost output = { λ _. Some (codes "a read failed") };

    fn fmt<W: fmt::Write>(&self, f: &mut fmt::Formatter<W>) -> fmt::Result {
        f.write_str("a read failed")
    }
}

impl Error for SourceFault {}

/// Bytes that are read at places: those of an image in memory, or of one in a file.
pub trait BlockSource {
    // Its size, how many of its reads failed, and what it is promised to hold.
    ghost known: { Self → Source };

    // The reads that it has answered, the last one first, if it promises no bytes.
    ghost reads: { Self → Reads };

    // Where the last of its failed reads began.
    ghost failed_at: { Self → ℕ };

    // Which bytes it may hold: those that agree with each read that it has answered.
    ghost agrees: { Self → Agreed };

    /// Its size in bytes. No read changes it.
    fn len(&self) -> u64
        ensures { result ≡ (known self.now).size };

    /// Fills `out` with the bytes from the place `at` on. Afterwards the source may hold what it could hold before, as
    /// far as that agrees with what was read. A read that failed shows nothing.
    ///
    /// # Errors
    ///
    /// The read failed. `out` may then hold any bytes.
    fn read(&mut self, at: u64, out: &mut [u8]) -> Result<(), SourceFault>
        requires { at + length out.old ≤ (known self.old).size }
        ensures known { known self.new ≡ after_read (known self.old) result }
        ensures noted { (known self.old).held ≡ None → reads self.new ≡ noted (reads self.old) at out.new result }
        ensures failed { OnErr result (failed_at self.new ≡ at) }
        ensures narrows { Narrows (agrees self.old) (agrees self.new) }
        ensures bytes { OnOk result (WhereHeld (agrees self.new) (λ bytes. out.new ≡ slice_range bytes at (at + length out.old))) }
        ensures exact { WhereHeld (agrees self.old) (λ bytes. OnOk result (out.new ≡ slice_range bytes at (at + length out.old)) → agrees self.new bytes) };

    // The bytes that it may hold are as many as its size says.
    ghost sized: { (s : Self) → IsSource (known s) (agrees s) };

    // The bytes that it is promised to hold are among those that it may hold.
    ghost promised: { (s : Self) → MayHold (known s) (agrees s) };

    // If it promises none, it has no choice: it may hold whatever has its size and agrees with the reads.
    ghost owned: { (s : Self) → (known s).held ≡ None → AreKnownBy (known s).size (reads s) (agrees s) };
}

/// A source over bytes in memory. Its reads never fail.
#[derive(Drop)]
pub struct MemorySource<'a> {
    bytes: &'a [u8],
}

impl<'a> Model for MemorySource<'a> {
    ghost use Rattle.std.specs.Prelude.{List, ℕ};

    ghost Value = { List ℕ };

    ghost view = { λ s. s.bytes.now };
}

impl<'a> MemorySource<'a> {
    /// A source over bytes.
    pub fn new(bytes: &'a [u8]) -> MemorySource<'a>
        ensures { result ≡ bytes.now }
    {
        MemorySource { bytes }
    }
}

impl BlockSource for MemorySource<'_> {
    ghost known = { λ s. memory s };

    ghost reads = { λ _. [] };

    ghost failed_at = { λ _. 0 };

    ghost agrees = { λ s. holds s };

    fn len(&self) -> u64 {
        self.bytes.len() as u64
    }

    fn read(&mut self, at: u64, out: &mut [u8]) -> Result<(), SourceFault> {
        let start = at as usize;
        out.copy_from_slice(&self.bytes[start..start + out.len()]);
        Ok(())
    }

    ghost sized = { λ s. memory_sized s };

    ghost promised = { λ s. refl };

    ghost owned = { λ s none. memory_owned s none };
}

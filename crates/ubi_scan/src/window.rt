//! Bytes of a file that were read ahead.

ghost use Rattle.std.specs.Option.{ForSome};
ghost use Rattle.std.specs.Prelude.{◌≡◌, ◌↔◌, ◌-◌, ◌<◌, ◌≤◌, IsTrue, take, true};
ghost use Rattle.ubi_scan.specs.inner.Ahead.{HoldsAt};
ghost use Rattle.ubi_scan.specs.Placed.{StandsAt};

use crate::placed::PlacedFile;

/// How many bytes are read ahead at once.
const SIZE: usize = 16_384;

/// The greatest gap between two reads that count as following each other.
const GAP: u64 = 4096;

/// Bytes of a file from some place on. If small reads follow each other closely, as those of the headers of small eraseblocks
/// do, the next ones are answered from it. A read that goes back isn't, so no place is answered twice from it.
#[derive(Drop)]
pub struct Window {
    bytes: [u8; SIZE],
    /// The place of the first of the bytes.
    start: u64,
    /// How many bytes there are.
    filled: usize,
    /// Where the last read that didn't go back ended.
    next: u64,
}

impl Window {
    /// No bytes yet.
    pub fn new() -> Window
        ensures { result.filled ≡ 0 }
    {
        Window {
            bytes: [0; SIZE],
            start: 0,
            filled: 0,
            next: 0,
        }
    }

    /// Fills `out` with the bytes from the place `at` on, if all of them were read ahead, and says whether it could.
    fn answer(&self, at: u64, out: &mut [u8]) -> bool
        ensures { result ≡ true → HoldsAt self.now at out.new }
    {
        if at < self.start || at - self.start >= SIZE as u64 {
            return false;
        }
        let from = (at - self.start) as usize;
        if from + out.len().min(SIZE) > self.filled.min(SIZE) || out.len() > SIZE {
            return false;
        }
        out.copy_from_slice(&self.bytes[from..from + out.len()]);
        true
    }

    /// Reads ahead from the place `at` on, and says whether it could.
    fn fill<F: PlacedFile>(&mut self, file: &F, at: u64) -> bool
        ensures start { result ≡ true → self.new.start ≡ at }
        ensures told { ForSome (F.bytes file.now) (λ all. StandsAt all self.new.start (take self.new.filled self.new.bytes)) }
    {
        self.filled = 0;
        match file.read_from(at, &mut self.bytes) {
            Ok(count) => {
                self.start = at;
                self.filled = count;
                true
            }
            Err(_) => false,
        }
    }

    /// Whether a read is small, and begins closely after the last one.
    fn follows(&self, at: u64, len: usize) -> bool
        ensures { IsTrue result ↔ ((len ≤ GAP) × (self.now.next ≤ at) × (at - self.now.next < GAP)) }
    {
        len as u64 <= GAP && at >= self.next && at - self.next < GAP
    }

    /// Fills `out` with the bytes of a file from the place `at` on, if they follow the last read and were read ahead, or are read
    /// ahead now. It says whether it could.
    pub fn give<F: PlacedFile>(&mut self, file: &F, at: u64, out: &mut [u8]) -> bool
        requires { ForSome (F.bytes file.now) (λ all. StandsAt all self.old.start (take self.old.filled self.old.bytes)) }
        ensures held { result ≡ true → HoldsAt self.new at out.new }
        ensures forward { result ≡ true → self.old.next ≤ at }
        ensures told { ForSome (F.bytes file.now) (λ all. StandsAt all self.new.start (take self.new.filled self.new.bytes)) }
    {
        if !self.follows(at, out.len()) {
            return false;
        }
        self.answer(at, out) || self.fill(file, at) && self.answer(at, out)
    }

    /// Notes where a read began and ended.
    pub fn passed(&mut self, at: u64, end: u64)
        ensures bytes { self.new.bytes ≡ self.old.bytes }
        ensures start { self.new.start ≡ self.old.start }
        ensures filled { self.new.filled ≡ self.old.filled }
        ensures next { self.old.next ≤ at → self.new.next ≡ end }
    {
        if at >= self.next {
            self.next = end;
        }
    }
}

//! The reads that a source has answered. They exist only in proofs.

ghost use Rattle.std.specs.Prelude.{◌≡◌, ℕ, List, [], ◌∷◌};
ghost use Rattle.std.specs.Borrow.{ftrue};

use std::marker::{Model, PhantomData};

/// The reads that a source has answered, the last one first: the place of each, and the bytes that it answered. It takes no
/// memory, and its methods do nothing at run time.
///
/// Only `new` and `note` are proved by hand (`proofs/trace`). No other proof by hand may speak of a trace. If one wrote
/// reads into it that contradict each other, the source could hold no bytes, and each clause about them would be empty.
#[derive(Drop)]
pub struct Trace {
    marker: PhantomData<u8>,
    pub ghost reads: { List (ℕ × List ℕ) },
}

impl Model for Trace {
    ghost also_owns = { λ _. ftrue };
}

impl Trace {
    /// No reads.
    pub fn new() -> Trace
        ensures { result.reads ≡ [] }
    {
        Trace {
            marker: PhantomData,
        }
    }

    /// Notes a read.
    pub fn note(&mut self, _at: u64, _bytes: &[u8])
        ensures { self.new.reads ≡ (_at, _bytes.now) ∷ self.old.reads }
    {}
}

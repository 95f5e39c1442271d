//! A source that changes while it is read.

ghost use Rattle.std.specs.Prelude.{◌≡◌, [], length};
ghost use Rattle.ubi_probe.specs.ChangingSource.{changing_source};
ghost use Rattle.ubi_scan.specs.Source.{file_owned, file_sized, known_by};

use ubi_scan::{BlockSource, SourceFault, Trace};

/// A source that answers the bytes of one image for some reads, and then those of another, so perhaps no bytes agree with all of
/// its reads. What neither has is 0xFF.
#[derive(Drop)]
pub struct ChangingSource<'a> {
    first: &'a [u8],
    then: &'a [u8],
    left: u64,
    trace: Trace,
}

impl<'a> ChangingSource<'a> {
    /// A source of the size of the first image that answers its bytes for `left` reads, and then those of the other one.
    pub fn new(first: &'a [u8], then: &'a [u8], left: u64) -> ChangingSource<'a>
        ensures first { result.first.now ≡ first.now }
        ensures then { result.then.now ≡ then.now }
        ensures left { result.left ≡ left }
        ensures trace { result.trace.reads ≡ [] }
    {
        ChangingSource {
            first,
            then,
            left,
            trace: Trace::new(),
        }
    }
}

impl BlockSource for ChangingSource<'_> {
    ghost known = { λ s. changing_source (length s.first.now) };

    ghost reads = { λ s. s.trace.reads };

    ghost failed_at = { λ _. 0 };

    ghost agrees = { λ s. known_by (length s.first.now) s.trace.reads };

    fn len(&self) -> u64 {
        self.first.len() as u64
    }

    fn read(&mut self, at: u64, out: &mut [u8]) -> Result<(), SourceFault> {
        let bytes = if self.left > 0 { self.first } else { self.then };
        self.left = self.left.saturating_sub(1);
        for (index, byte) in out.iter_mut().enumerate() {
            *byte = bytes.get(at as usize + index).copied().unwrap_or(0xFF);
        }
        self.trace.note(at, out);
        Ok(())
    }

    ghost sized = { λ s. file_sized (changing_source (length s.first.now)) s.trace.reads };

    ghost promised = { λ s. tt };

    ghost owned = { λ s _. file_owned (length s.first.now) s.trace.reads };
}

//! Sources for tests.

ghost use Rattle.std.specs.Prelude.{◌≡◌, ◌+◌, ◌/◌, ◌<◌, IfOk, length, replicate, slice_index, ◌≤◌, [], None, Some, slice_range, OnErr, OnOk, refl};
ghost use Rattle.ubi_probe.specs.ProbedSource.{bumped, next, IsCounted, IsSameProbe, no_reads, probe_sized, probe_source};
ghost use Rattle.ubi_scan.specs.Source.{Narrows, Reads, WhereHeld, after_read, holds, memory_owned, noted};

use std::alloc::{AllocError, Global};
use std::marker::Model;
use ubi_media::Geometry;
use ubi_scan::{BlockSource, SourceFault};

/// A source over bytes in memory, for tests. It counts its reads and fails at one of them. A count of 2^64 - 1 stays as
/// it is.
#[derive(Drop)]
pub struct ProbeSource<'a> {
    bytes: &'a [u8],
    peb_size: u32,
    data_offset: u32,
    fail_at: u64,
    made: u64,
    failures: u64,
    /// Where the last failed read began, 0 if none has failed.
    failed_at: u64,
    /// How many reads began in each eraseblock.
    reads: Vec<u64>,
    /// How many of them began in its data.
    data_reads: Vec<u64>,
    crossing: u64,
}

impl<'a> Model for ProbeSource<'a> {
    ghost use Rattle.std.specs.Prelude.{◌<◌};
    ghost use Rattle.ubi_probe.specs.ProbedSource.{Probed, probed_code};

    ghost Value = { Probed };

    ghost coded = { probed_code };

    ghost view = { λ s. record { bytes = s.bytes.now; peb_size = s.peb_size; data_offset = s.data_offset; fail_at = s.fail_at; made = s.made; failures = s.failures; failed_at = s.failed_at; reads = s.reads.items; data_reads = s.data_reads.items; crossing = s.crossing } };

    ghost invariant = { λ s. 0 < s.peb_size };
}

/// Adds 1 to one of some counts.
fn bump(counts: &mut Vec<u64>, place: u64)
    ensures { counts.new.items ≡ bumped counts.old.items place }
{
    if let Some(count) = counts.get_mut(place as usize) {
        *count = count.saturating_add(1);
    }
}

impl<'a> ProbeSource<'a> {
    /// A source over bytes that fails at the read `fail_at`, counted from 1, or never if that is 0.
    ///
    /// # Errors
    ///
    /// Memory ran out.
    pub fn new(
        alloc: Global,
        geometry: &Geometry,
        bytes: &'a [u8],
        fail_at: u64,
    ) -> Result<ProbeSource<'a>, AllocError>
        ensures { IfOk result (λ s. s ≡ record { bytes = bytes.now; peb_size = geometry.now.peb_size; data_offset = geometry.now.data_offset; fail_at = fail_at; made = 0; failures = 0; failed_at = 0; reads = replicate (length bytes.now / geometry.now.peb_size + 1) 0; data_reads = replicate (length bytes.now / geometry.now.peb_size + 1) 0; crossing = 0 }) }
    {
        let peb_size = geometry.peb_size();
        let count = bytes.len() / peb_size as usize + 1;
        Ok(ProbeSource {
            bytes,
            peb_size,
            data_offset: geometry.data_offset(),
            fail_at,
            made: 0,
            failures: 0,
            failed_at: 0,
            reads: Vec::from_elem(alloc, 0, count)?,
            data_reads: Vec::from_elem(alloc, 0, count)?,
            crossing: 0,
        })
    }

    /// How many reads began in an eraseblock.
    pub fn reads(&self, p: u32) -> u64
        ensures { result ≡ slice_index self.now.reads p }
    {
        self.reads.get(p as usize).copied().unwrap_or(0)
    }

    /// How many of them began in its data.
    pub fn data_reads(&self, p: u32) -> u64
        ensures { result ≡ slice_index self.now.data_reads p }
    {
        self.data_reads.get(p as usize).copied().unwrap_or(0)
    }

    /// How many reads went beyond the eraseblock in which they began.
    pub fn crossing(&self) -> u64
        ensures { result ≡ self.now.crossing }
    {
        self.crossing
    }
}

impl BlockSource for ProbeSource<'_> {
    ghost known = { λ s. probe_source s };

    ghost reads = { λ s. no_reads s };

    ghost failed_at = { λ s. s.failed_at };

    ghost agrees = { λ s. holds s.bytes };

    fn len(&self) -> u64 {
        self.bytes.len() as u64
    }

    fn read(&mut self, at: u64, out: &mut [u8]) -> Result<(), SourceFault>
        requires { at + length out.old ≤ length self.old.bytes }
        ensures known { probe_source self.new ≡ after_read (probe_source self.old) result }
        ensures noted { Some self.old.bytes ≡ None → no_reads self.new ≡ noted (no_reads self.old) at out.new result }
        ensures failed { OnErr result (self.new.failed_at ≡ at) }
        ensures narrows { Narrows (holds self.old.bytes) (holds self.new.bytes) }
        ensures bytes { OnOk result (WhereHeld (holds self.new.bytes) (λ bytes. out.new ≡ slice_range bytes at (at + length out.old))) }
        ensures exact { WhereHeld (holds self.old.bytes) (λ bytes. OnOk result (out.new ≡ slice_range bytes at (at + length out.old)) → holds self.new.bytes bytes) }
        ensures counted { IsCounted self.old self.new at (length out.old) }
        ensures same { IsSameProbe self.old self.new }
    {
        let size = u64::from(self.peb_size);
        let place = at / size;
        let within = at % size;
        bump(&mut self.reads, place);
        if within >= u64::from(self.data_offset) {
            bump(&mut self.data_reads, place);
        }
        if within + out.len() as u64 > size {
            self.crossing = self.crossing.saturating_add(1);
        }
        self.made = self.made.saturating_add(1);
        if self.made == self.fail_at {
            self.failures = self.failures.saturating_add(1);
            self.failed_at = at;
            return Err(SourceFault);
        }
        let start = at as usize;
        out.copy_from_slice(&self.bytes[start..start + out.len()]);
        Ok(())
    }

    ghost sized = { λ s. probe_sized s };

    ghost promised = { λ s. refl };

    ghost owned = { λ s none. memory_owned s.bytes none };
}

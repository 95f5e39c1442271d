//! What a plan may not touch or give out.

ghost use Rattle.std.specs.Prelude.{◌≡◌, ◌<◌, ◌≤◌, Some, length, slice_get};
ghost use Rattle.ubi_change.specs.inner.Taking.{ListedIs, NotBlankIs, listed_site};
ghost use Rattle.ubi_change.specs.Avoided.{is_avoided, is_blank_one, nothing, raised, state_avoiding, states_avoiding, touchable};
ghost use Rattle.ubi_scan.specs.Marks.{is_listed};

use crate::basis::Basis;
use crate::sites::Site;
use crate::step::Step;
use std::marker::Model;
use ubi_media::Geometry;
use ubi_scan::Scan;
use ubi_volume::{BlockState, Surveyed};

/// What a plan keeps off: eraseblocks that it may not touch, such as the bad ones of a flash device; sequence numbers that it may not give
/// out; and logical eraseblocks that it may not bring to life.
#[derive(Drop)]
pub struct Avoided<'a> {
    /// Whether each eraseblock is listed, by its number. One that has no mark isn't.
    marks: &'a [bool],
    /// Whether no Blank eraseblock may be touched.
    blank: bool,
    /// The sequence number that those of the plan have to be above.
    above: u64,
    /// By the number of each volume one more than the greatest logical eraseblock that is hidden. One that has no number has none.
    ends: &'a [u64],
}

impl<'a> Model for Avoided<'a> {
    ghost use Rattle.ubi_change.specs.Avoided.{Avoided, avoided_code};

    ghost Value = { Avoided };

    ghost coded = { avoided_code };

    ghost view = { λ a. record { marks = a.marks.now; blank = a.blank; above = a.above; ends = a.ends.now } };
}

/// Whether an eraseblock in this state is Blank.
fn is_blank(state: BlockState) -> bool
    ensures { result ≡ is_blank_one state }
{
    matches!(state, BlockState::Blank)
}

/// Whether an eraseblock is listed.
pub(crate) fn is_listed(marks: &[bool], p: u32) -> bool
    ensures { result ≡ is_listed marks.now p }
{
    match marks.get(p as usize) {
        Some(mark) => *mark,
        None => false,
    }
}

/// The lowest listed eraseblock that exists and isn't Blank, if there is one.
fn not_blank(marks: &[bool], geometry: &Geometry, surveyed: &Surveyed) -> Option<u32>
    requires { length surveyed.now.states ≤ geometry.now.pebs }
    ensures { NotBlankIs marks.now surveyed.now.states result }
{
    let count = surveyed.states().len();
    prove!(count <= geometry.pebs() as usize);
    for p in 0..count as u32 {
        if is_listed(marks, p) && !is_blank(surveyed.state(p)) {
            return Some(p);
        }
    }
    None
}

/// The eraseblock of a step that works on a listed one, if there is one.
fn listed(marks: &[bool], steps: &[Step]) -> Option<u32>
    ensures { ListedIs marks.now steps.now result }
{
    for i in 0..steps.len() {
        let p = steps[i].eraseblock();
        if is_listed(marks, p) {
            return Some(p);
        }
    }
    None
}

impl<'a> Avoided<'a> {
    /// The eraseblocks whose marks say so, and if `blank`, the Blank ones; and what headers in these eraseblocks name that a kernel may still
    /// read: the sequence numbers up to `above`, and the logical eraseblocks of each volume below its number in `ends` ([`crate::Hidden`]).
    pub fn new(marks: &'a [bool], blank: bool, above: u64, ends: &'a [u64]) -> Avoided<'a>
        ensures { result ≡ record { marks = marks.now; blank = blank; above = above; ends = ends.now } }
    {
        Avoided {
            marks,
            blank,
            above,
            ends,
        }
    }

    /// Nothing.
    pub fn nothing() -> Avoided<'a>
        ensures { result ≡ nothing }
    {
        Avoided::new(&[], false, 0, &[])
    }

    /// The sequence number that those of a plan have to be above.
    pub(crate) fn above(&self) -> u64
        ensures { result ≡ self.now.above }
    {
        self.above
    }

    /// By the number of each volume one more than the greatest logical eraseblock that is hidden.
    pub(crate) fn ends(&self) -> &[u64]
        ensures { result.now ≡ self.now.ends }
    {
        self.ends
    }

    /// What the headers of a plan are made from that avoids this, by what a scan found.
    pub(crate) fn basis<'s>(&self, scan: &'s Scan) -> Basis<'s>
        ensures { result ≡ raised self.now.above scan.now }
    {
        Basis::new(scan, self.above)
    }

    /// Whether an eraseblock in this state is one of them.
    fn has(&self, p: u32, state: BlockState) -> bool
        ensures { result ≡ is_avoided self.now p state }
    {
        is_listed(self.marks, p) || (self.blank && is_blank(state))
    }

    /// The lowest listed eraseblock that exists and isn't Blank, if there is one.
    pub(crate) fn not_blank(&self, geometry: &Geometry, surveyed: &Surveyed) -> Option<u32>
        requires { length surveyed.now.states ≤ geometry.now.pebs }
        ensures { NotBlankIs self.now.marks surveyed.now.states result }
    {
        not_blank(self.marks, geometry, surveyed)
    }

    /// The number of the first of some eraseblocks that is listed, if one is.
    pub(crate) fn listed_site(&self, sites: &[Site]) -> Option<u32>
        ensures { result ≡ listed_site self.now.marks sites.now }
    {
        sites
            .iter()
            .find(|site| is_listed(self.marks, site.pnum))
            .map(|site| site.pnum)
    }

    /// The listed eraseblock of a step that works on one, if there is one.
    pub(crate) fn listed(&self, steps: &[Step]) -> Option<u32>
        ensures { ListedIs self.now.marks steps.now result }
    {
        listed(self.marks, steps)
    }

    /// How many eraseblocks of a survey may be touched.
    pub(crate) fn touchable(&self, geometry: &Geometry, surveyed: &Surveyed) -> usize
        requires { length surveyed.now.states ≤ geometry.now.pebs }
        ensures value { result ≡ touchable self.now surveyed.now.states }
        ensures most { result ≤ geometry.now.pebs }
    {
        let count = surveyed.states().len();
        prove!(count <= geometry.pebs() as usize);
        let mut left = 0;
        for p in 0..count as u32 {
            if !self.has(p, surveyed.state(p)) {
                left += 1;
            }
        }
        left
    }

    /// The state of an eraseblock as a plan sees it: one that is avoided counts as used.
    pub(crate) fn state(&self, surveyed: &Surveyed, p: u32) -> BlockState
        requires { p < length surveyed.now.states }
        ensures { slice_get (states_avoiding self.now surveyed.now.states) p ≡ Some result }
    {
        let state = surveyed.state(p);
        if self.has(p, state) {
            BlockState::Used
        } else {
            state
        }
    }
}

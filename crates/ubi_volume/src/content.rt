//! What a volume reads.

ghost use Rattle.std.specs.Prelude.{◌≡◌, ◌↔◌, ◌++◌, ◌<◌, ℕ, List, IfSome, IsTrue, OnErr, OnOk, length, ◌==◌};
ghost use Rattle.std.specs.BTreeMap.{IsOrdered};
ghost use Rattle.std.specs.FinMap as finite;
ghost use Rattle.std.specs.List.{list_all};
ghost use Rattle.std.specs.Map.Iter.{ShowsInOrder, deref_pair};
ghost use Rattle.std.specs.Option.{option_copied};
ghost use Rattle.std.specs.Ordering.{nat_cmp};
ghost use Rattle.ubi_volume.specs.inner.Making.{leb_fits};
ghost use Rattle.ubi_volume.specs.Made.{lebs_without_blank, without_blank};
ghost use Rattle.std.specs.Cmp.{partial_equiv_from_equiv};
ghost use Rattle.std.specs.Cmp.Lexicographic.{nat_list_eq_equiv, pointwise};
ghost use Rattle.ubi_volume.specs.EqualLebs.{same_lebs, same_lebs_per};

use std::alloc::{AllocError, Global};
use std::collections::BTreeMap;
use std::collections::btree_map::Iter;
use std::marker::Model;
use ubi_media::{VolumeRecord, is_blank};

/// Bytes that are kept.
#[derive(Debug, Drop)]
pub struct Bytes {
    bytes: Vec<u8>,
}

impl Model for Bytes {
    ghost use Rattle.std.specs.Prelude.{ℕ, List};

    ghost Value = { List ℕ };

    ghost view = { λ b. b.bytes.items };
}

impl Bytes {
    /// Keeps the bytes of a vector.
    pub fn new(bytes: Vec<u8>) -> Bytes
        ensures { result ≡ bytes.items }
    {
        Bytes { bytes }
    }

    /// The bytes.
    pub fn as_slice(&self) -> &[u8]
        ensures { result.now ≡ self.now }
    {
        self.bytes.as_slice()
    }

    /// Adds bytes after those that are kept.
    ///
    /// # Errors
    ///
    /// Memory ran out.
    pub fn extend_from_slice(&mut self, more: &[u8]) -> Result<(), AllocError>
        ensures { OnOk result (self.new ≡ self.old ++ more.now) }
    {
        self.bytes.extend_from_slice(more)
    }

    /// The vector that was kept.
    pub fn into_vec(self) -> Vec<u8>
        ensures { result.items ≡ self }
    {
        self.bytes
    }
}

impl PartialEq for Bytes {
    ghost eq = { pointwise ◌==◌ };

    ghost laws = { partial_equiv_from_equiv nat_list_eq_equiv };

    fn eq(&self, other: &Bytes) -> bool {
        self.as_slice() == other.as_slice()
    }
}

/// Logical eraseblocks of a volume, by their number.
#[derive(Drop)]
pub struct Lebs {
    held: BTreeMap<u32, Bytes>,
}

impl Model for Lebs {
    ghost use Rattle.std.specs.BTreeMap.{IsOrdered};
    ghost use Rattle.std.specs.Coded.{coded_ℕ, coded_list};
    ghost use Rattle.std.specs.FinMap as finite;
    ghost use Rattle.std.specs.Ordering.{nat_cmp};
    ghost use Rattle.std.specs.Prelude.{ℕ, List};

    ghost Value = { finite.FinMap nat_cmp (List ℕ) };

    ghost coded = { finite.code coded_ℕ (coded_list coded_ℕ) };

    ghost view = { λ l. finite.from_entries l.held.entries };

    ghost invariant = { λ l. IsOrdered nat_cmp l.held };
}

impl PartialEq for Lebs {
    ghost eq = { same_lebs };

    ghost laws = { same_lebs_per };

    fn eq(&self, other: &Lebs) -> bool {
        self.held == other.held
    }
}

/// Whether each of some logical eraseblocks has a number below `reserved`, and `size` bytes.
fn all_fit(held: &BTreeMap<u32, Bytes>, reserved: u32, size: u32) -> bool
    ensures { result ≡ list_all (leb_fits reserved size) held.now.entries }
{
    held.iter().all(|(lnum, bytes)| *lnum < reserved && bytes.as_slice().len() == size as usize)
}

impl Lebs {
    /// No logical eraseblock yet.
    pub fn new(alloc: Global) -> Lebs
        ensures { result ≡ finite.empty }
    {
        Lebs {
            held: BTreeMap::new(alloc),
        }
    }

    /// The bytes of a logical eraseblock, if it is kept.
    pub fn get(&self, lnum: u32) -> Option<&Bytes>
        ensures { option_copied result ≡ finite.get self.now lnum }
    {
        self.held.get(&lnum)
    }

    /// Each logical eraseblock that is kept, after its number, in ascending order.
    pub fn iter(&self) -> Iter<'_, u32, Bytes>
        ensures rest { result ≡ finite.entries self.now }
        ensures runs { ShowsInOrder (deref_pair {K = ℕ} {X = List ℕ}) }
    {
        self.held.iter()
    }

    /// How many are kept.
    pub fn len(&self) -> usize
        ensures { result ≡ length (finite.entries self.now) }
    {
        self.held.len()
    }

    /// Keeps the bytes of a logical eraseblock, in place of those that were kept.
    ///
    /// # Errors
    ///
    /// Memory ran out; then nothing has changed.
    pub fn insert(&mut self, lnum: u32, bytes: Bytes) -> Result<(), AllocError>
        ensures ok { OnOk result (self.new ≡ finite.insert self.old lnum bytes) }
        ensures err { OnErr result (self.new ≡ self.old) }
    {
        self.held.insert(lnum, bytes)?;
        Ok(())
    }

    /// The map in which they are kept, by their number.
    pub fn into_map(self) -> BTreeMap<u32, Bytes>
        ensures held { finite.from_entries result.entries ≡ self }
        ensures ordered { IsOrdered nat_cmp result }
    {
        self.held
    }

    /// Whether each that is kept has a number below `reserved`, and `size` bytes.
    pub(crate) fn all_fit(&self, reserved: u32, size: u32) -> bool
        ensures { IsTrue result ↔ ((lnum : ℕ) → IfSome (finite.get self.now lnum) (λ text. (lnum < reserved) × (length text ≡ size))) }
    {
        all_fit(&self.held, reserved, size)
    }

    /// Drops those that are 0xFF throughout.
    pub(crate) fn drop_blank(&mut self)
        ensures { self.new ≡ lebs_without_blank self.old }
    {
        self.held.retain(|_, bytes| !is_blank(bytes.as_slice()));
    }
}

/// What a volume reads.
#[derive(Drop, PartialEq)]
pub enum Content {
    /// An update of the volume began and didn't end: it can't be read.
    Updating,
    /// A static volume that isn't whole: it can't be read.
    Damaged,
    /// The contents of a static volume.
    Static(Bytes),
    /// The logical eraseblocks of a dynamic volume, each with as many bytes as the volume uses. One that isn't there
    /// reads 0xFF throughout.
    Dynamic(Lebs),
}

impl Content {
    /// Drops the logical eraseblocks that are 0xFF throughout.
    pub(crate) fn drop_blank(&mut self)
        ensures { self.new ≡ without_blank self.old }
    {
        match self {
            Content::Dynamic(lebs) => lebs.drop_blank(),
            _ => {}
        }
    }
}

/// A volume: its record, and what it reads.
#[derive(Drop, PartialEq)]
pub struct Volume {
    /// Its record in the volume table.
    pub entry: VolumeRecord,
    /// What it reads.
    pub content: Content,
}

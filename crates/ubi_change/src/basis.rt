//! What the headers of a plan are made from.

ghost use Rattle.std.specs.Prelude.{◌≡◌, max};
ghost use Rattle.ubi_change.specs.Avoided.{raised};

use std::marker::Model;
use ubi_scan::Scan;

/// What a scan found, as a plan sees it that may not give out all of the sequence numbers behind the greatest one of the image.
#[derive(Drop)]
pub struct Basis<'a> {
    scan: &'a Scan,
    /// The sequence number that those of the plan are above: at least the greatest one of the image.
    top_sqnum: u64,
}

impl<'a> Model for Basis<'a> {
    ghost use Rattle.ubi_scan.specs.Coded.{found_code};
    ghost use Rattle.ubi_scan.specs.Scan.{Found};

    ghost Value = { Found };

    ghost coded = { found_code };

    ghost view = { λ b. record b.scan.now { top_sqnum = b.top_sqnum } };
}

impl<'a> Basis<'a> {
    /// What a scan found, with no sequence number up to `above`.
    pub fn new(scan: &'a Scan, above: u64) -> Basis<'a>
        ensures { result ≡ raised above scan.now }
    {
        Basis {
            scan,
            top_sqnum: scan.top_sqnum().max(above),
        }
    }

    /// The sequence number that those of the plan are above.
    pub fn top_sqnum(&self) -> u64
        ensures { result ≡ self.now.top_sqnum }
    {
        self.top_sqnum
    }

    /// The image sequence number.
    pub fn image_seq(&self) -> u32
        ensures { result ≡ self.now.image_seq }
    {
        self.scan.image_seq()
    }

    /// How many eraseblocks name it.
    pub fn carriers(&self) -> u32
        ensures { result ≡ self.now.carriers }
    {
        self.scan.carriers()
    }

    /// The mean of the erase counters that can be read.
    pub fn mean_ec(&self) -> u32
        ensures { result ≡ self.now.mean_ec }
    {
        self.scan.mean_ec()
    }
}

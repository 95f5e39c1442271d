//! What a normal image is written from, and for which device.

ghost use Rattle.std.specs.Prelude.{◌≡◌, ℕ, Option, IfSome};
ghost use Rattle.ubi_media.specs.Geometry.{Sizes};
ghost use Rattle.ubi_compose.specs.inner.Pieces.{IsNext, Pieces};
ghost use Rattle.ubi_laid.specs.Pieces.{LiesIn};

use ubi_laid::Piece;
use ubi_media::Geometry;

/// A device that a normal image is written for.
#[derive(Clone, Copy)]
pub struct Device {
    /// Its geometry.
    pub geometry: Geometry,
    /// The image sequence number that its erase-counter headers have.
    pub image_seq: u32,
}

/// The contents of volumes, whose bytes lie in a source.
pub trait Contents {
    // The geometry of the device.
    ghost sizes: { Self → Sizes };

    // The pieces of each volume.
    ghost pieces: { Self → Pieces };

    // The bytes of the pieces lie in a source of this size.
    ghost LieIn: { Self → ℕ → Type 0 };

    /// The next piece of a volume, from a logical eraseblock on.
    fn next(&self, geometry: &Geometry, id: u32, from: u32) -> Option<Piece>
        requires sizes { sizes self.now ≡ geometry.now }
        requires lie { (size : ℕ) × LieIn self.now size }
        ensures next { IsNext (pieces self.now) id from result }
        ensures lies { (size : ℕ) → LieIn self.now size → IfSome result (LiesIn geometry.now size) };
}

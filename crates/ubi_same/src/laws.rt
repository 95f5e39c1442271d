//! A law of the definitions that the contracts cite, as the contract of a function that does nothing.

ghost use Rattle.ubi_same.specs.Same.{ComparesNormalImages};

/// Whether two images of one geometry mean the same is whether their normal images are equal byte for byte, also where a comparison over
/// sources (`ubi_compare::same_from`) answers it.
pub fn compares_normal_images()
    ensures { ComparesNormalImages }
{}

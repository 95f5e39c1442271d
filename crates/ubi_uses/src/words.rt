//! A caller of `ubi_words`.

ghost use Rattle.std.specs.List.{slice_split};
ghost use Rattle.std.specs.Prelude.{◌≡◌, ◌==◌, ◌∷◌, List, ℕ};
ghost use Rattle.ubi_words.specs.Words.{most_number, number_within};

use ubi_words::{cut, number_of};

/// The number that stands before the first comma of a line.
pub fn first_number(line: &[u8]) -> Option<u32>
    ensures { (first : List ℕ) (rest : List (List ℕ)) → slice_split (λ b. b == 44) line.now ≡ first ∷ rest → result ≡ number_within most_number first }
{
    let (first, _) = cut(line, b',');
    number_of(first)
}

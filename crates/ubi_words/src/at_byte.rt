//! Cutting bytes at a byte.

ghost use Rattle.std.specs.List.{slice_split};
ghost use Rattle.std.specs.Option.{option_map_or};
ghost use Rattle.std.specs.Prelude.{◌≡◌, ◌==◌, ◌<◌, [], ◌∷◌, IfSome, length, position};

/// The place of the first byte `at`.
fn place_of(text: &[u8], at: u8) -> Option<usize>
    ensures value { result ≡ position (λ b. b == at) text.now }
    ensures bound { IfSome result (λ place. place < length text.now) }
{
    text.iter().position(|byte| *byte == at)
}

/// What stands before the first byte `at`, and what follows it, if there is one.
pub fn cut(text: &[u8], at: u8) -> (&[u8], Option<&[u8]>)
    ensures pieces { slice_split (λ b. b == at) text.now ≡ result.0.now ∷ option_map_or (λ rest. slice_split (λ b. b == at) rest.now) result.1 [] }
    ensures shorter { IfSome result.1 (λ rest. length rest.now < length text.now) }
{
    match place_of(text, at) {
        Some(place) => (&text[..place], Some(&text[place + 1..])),
        None => (text, None),
    }
}

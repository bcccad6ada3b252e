// Slices taken apart: the first element and the rest, and what stands from a place on.
ghost use Rattle.std.specs.Prelude.{◌≡◌, ◌-◌, [], ◌∷◌, length, drop, MatchOption};

// The first element and the rest, for callers elsewhere: the readers write the same pattern in a match of their own.
pub fn cut<T: Copy>(items: &[T]) -> Option<(T, &[T])>
    ensures { MatchOption result (items.now ≡ []) (λ p. items.now ≡ (p.0 ∷ p.1.now)) }
{
    match items {
        [first, rest @ ..] => Some((*first, rest)),
        [] => None,
    }
}

// What stands from `pos` on: nothing where `pos` lies beyond the end.
pub fn rest_from(text: &[u8], pos: usize) -> &[u8]
    ensures value { result.now ≡ drop pos text.now }
    ensures len { length result.now ≡ length text.now - pos }
{
    text.get(pos..).unwrap_or(&[])
}

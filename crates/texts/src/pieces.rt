// Bytes cut at a byte: lines end at a line feed, and fields at a comma.
ghost use Rattle.std.specs.Prelude.{◌≡◌, [], ◌∷◌, ◌++◌, ◌==◌, MatchOption};
ghost use Rattle.std.specs.List.{position};
ghost use Rattle.texts.specs.Pieces.{Lacks, pieces};

// The place of the first byte that is b. A function of its own: in `cut_at` what `position` says of its runs was tried,
// and did not give the place in the list.
fn place(bytes: &[u8], b: u8) -> Option<usize>
    ensures { result ≡ position (λ x. x == b) bytes.now }
{
    bytes.iter().position(|x| *x == b)
}

// The bytes before the first b, and those after it where there is one. `splitn` would give an iterator of both, of which
// each caller would take the one and then the other.
pub(crate) fn cut_at(bytes: &[u8], b: u8) -> (&[u8], Option<&[u8]>)
    ensures first { Lacks b result.0.now }
    ensures rest { MatchOption result.1 (bytes.now ≡ result.0.now) (λ rest. bytes.now ≡ result.0.now ++ b ∷ rest.now) }
    ensures cuts { MatchOption result.1 (pieces b bytes.now ≡ result.0.now ∷ []) (λ rest. pieces b bytes.now ≡ result.0.now ∷ pieces b rest.now) }
{
    match place(bytes, b) {
        Some(n) => (&bytes[..n], Some(&bytes[n + 1..])),
        None => (bytes, None),
    }
}

// Worked cases, proved jointly on the definitions: a small yard, the table of lowest 1s, and a pair of word sets.
#![tactic(auto)]

ghost use Rattle.std.specs.Prelude.{◌≡◌, [], ◌∷◌};
ghost use Rattle.worked.specs.Cases.{WorkedCases};

use sets::lowest::lowest_one;

// The table's entries 0, 1, 80 and 128; and all cases together.
#[tactic(auto, unfolding(vectors::specs::Vectors::highest, vectors::specs::Vectors::some, sets::specs::Lowest::lowest_place))]
pub fn worked_cases() -> [u8; 4]
    ensures cases { WorkedCases }
    ensures entries { result ≡ 0 ∷ 0 ∷ 4 ∷ 7 ∷ [] }
{
    [0, 1, 80, 128].map(lowest_one)
}

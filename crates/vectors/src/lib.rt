// Task vectors: 64-bit numbers in which task t, from 0 to 63, counts 2 to the power t.
// What a vector holds is said by the test `in_vector`; the functions and lemmas that tie the code's bit operations to it
// stand here once, for every layer above.
#![tactic(auto)]

ghost use Rattle.std.specs.Prelude.{◌≡◌, ◌^◌, ◌<◌, ◌≤◌, ℕ, Bool, true, if◌then◌else◌, nat_lt};
ghost use Rattle.vectors.specs.Vectors.{in_vector, with as added, without as removed, strays as strays_from, highest as greatest};

// Whether task t is in the vector v.
pub fn contains(v: u64, t: u8) -> bool
    ensures { result ≡ in_vector v t }
{
    t < 64 && (v >> t) & 1 == 1
}

// The vector v and task t; a number past 63 adds nothing.
pub fn with(v: u64, t: u8) -> u64
    ensures after { in_vector result ≡ (if nat_lt t 64 then added t (in_vector v) else in_vector v) }
    ensures room { (c : ℕ) → t < c → c ≤ 64 → v < 2 ^ c → result < 2 ^ c }
{
    if t < 64 { v | (1 << t) } else { v }
}

// The vector v but for task t.
pub fn without(v: u64, t: u8) -> u64
    ensures after { in_vector result ≡ removed t (in_vector v) }
    ensures less { in_vector v t ≡ true → result < v }
    ensures bound { result ≤ v }
{
    if t < 64 { v & !(1 << t) } else { v }
}

// The greatest task of the vector v, if it holds one.
pub fn highest(v: u64) -> Option<u8>
    ensures { result ≡ greatest 64 (in_vector v) }
{
    // A place in 64 bits fits a byte.
    v.checked_ilog2().map(|top| top as u8)
}

// Whether the vector v holds a task that the vector w lacks.
pub fn strays(v: u64, w: u64) -> bool
    ensures { result ≡ strays_from v (in_vector w) }
{
    v & !w != 0
}

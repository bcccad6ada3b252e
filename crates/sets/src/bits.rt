// One bit of a byte switched. `vectors::with` and `without` do it in 64 bits; over a byte widened for them each use would
// owe that what comes back fits a byte.
ghost use Rattle.std.specs.Prelude.{◌≡◌, ℕ, ◌<◌, ◌≤◌, not, ◌&&◌, ◌||◌, ◌==◌};
ghost use Rattle.vectors.specs.Vectors.{on};

// The byte x with bit k at 1.
pub(crate) fn switched_on(x: u8, k: u8) -> u8
    requires { k < 8 }
    ensures { (j : ℕ) → on result j ≡ (j == k || on x j) }
{
    x | (1 << k)
}

// The byte x with bit k at 0.
pub(crate) fn switched_off(x: u8, k: u8) -> u8
    requires { k < 8 }
    ensures bits { (j : ℕ) → on result j ≡ (not (j == k) && on x j) }
    ensures bound { result ≤ x }
{
    x & !(1 << k)
}

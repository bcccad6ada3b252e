// A short text that is written from its end to its front, so that the digits of a number come in the order in
// which division gives them. The words of specs/ that speak of it import this struct.
ghost use Rattle.std.specs.Prelude.{◌≤◌};

pub mod puts;

// The text is what stands from `start` on. An `ArrayVec` written front to back was tried and proved: whole runs took 12 to
// 15 % more instructions, and decimal digits needed an array and a loop of their own.
#[derive(Drop)]
pub struct Front {
    bytes: [u8; 128],
    start: usize,
    ghost within: { start ≤ 128 },
}

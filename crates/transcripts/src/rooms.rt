// Room kept for what is to come, so that a vector seldom grows and its bytes are seldom moved.
ghost use Rattle.std.specs.Prelude.{◌≡◌, ◌+◌, ◌*◌, min, [], length};

use std::alloc::Global;

// An empty vector, with room for n bytes where there is memory for them.
pub(crate) fn with_room(heap: Global, n: usize) -> Vec<u8>
    ensures { result.items ≡ [] }
{
    Vec::with_capacity(heap, n).unwrap_or(Vec::new(heap))
}

// Room for the output on most inputs: a line is seldom more than four times as long as its record.
pub(crate) fn room_for(input: &[u8]) -> usize
    ensures { result ≡ 64 + 4 * min (length input.now) 10000000 }
{
    64 + 4 * input.len().min(10_000_000)
}

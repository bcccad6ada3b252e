// A waiting set of size 64 in two levels: eight rows of eight bits, and a group byte whose bit i is 1 exactly when
// row i is not zero. Position 0 is the most urgent, so that task t lies at position 63 - t, in row position / 8 at
// bit position mod 8, and the highest task is found by the lowest 1 of the group and of that row.
ghost use Rattle.std.specs.Prelude.{◌≡◌, ℕ, ◌<◌, Bool, not, ◌==◌, slice_index, SomeIff};
ghost use Rattle.vectors.specs.Vectors.{on};
ghost use Rattle.sets.specs.Rows.{row as row_of, place as bit_of, in_rows};
ghost use Rattle.std.proofs.Common.{rules};

use crate::bits::{switched_off, switched_on};
use crate::lowest::lowest_one;
use crate::waiting::WaitingSet;
use vectors::contains;

// A row is indexed by `row as usize`: `usize::from` is a call, and the proofs would tell of its result in place of `row`.
#[derive(Clone, Copy)]
pub struct TwoLevelSet {
    group: u8,
    rows: [u8; 8],
    ghost tied: { (i : ℕ) → i < 8 → on group i ≡ not (slice_index rows i == 0) },
}

impl TwoLevelSet {
    // The empty set, written out: a struct with a ghost field derives no Default.
    pub fn new() -> TwoLevelSet
        ensures group { result.group ≡ 0 }
        ensures rows { (i : ℕ) → slice_index result.rows i ≡ 0 }
    {
        TwoLevelSet {
            group: 0,
            rows: [0; 8],
        }
    }
}

// The row of task t and its bit there, if t is below 64.
fn place(t: u8) -> Option<(u8, u8)>
    ensures { SomeIff result (t < 64) (row_of t, bit_of t) }
{
    let position = 63u8.checked_sub(t)?;
    Some((position / 8, position % 8))
}

impl WaitingSet for TwoLevelSet {
    ghost room = { λ s. 64 };

    ghost holds = { λ s. in_rows s.rows };

    ghost small = { Prim.search rules };

    ghost inside = { Prim.search rules };

    fn size(&self) -> u8 {
        64
    }

    fn has(&self, t: u8) -> bool {
        place(t).is_some_and(|(row, bit)| contains(u64::from(self.rows[row as usize]), bit))
    }

    // The guard stands here and in `take`, of whose bodies nothing else is the same.
    fn put(&mut self, t: u8) -> bool {
        let Some((row, bit)) = place(t) else {
            return false;
        };
        self.rows[row as usize] = switched_on(self.rows[row as usize], bit);
        self.group = switched_on(self.group, row);
        true
    }

    fn take(&mut self, t: u8) -> bool {
        let Some((row, bit)) = place(t) else {
            return false;
        };
        let left = switched_off(self.rows[row as usize], bit);
        self.rows[row as usize] = left;
        // The name says when the bit of the group goes: where the row holds no other task.
        let emptied = left == 0;
        if emptied {
            self.group = switched_off(self.group, row);
        }
        true
    }

    fn highest(&self) -> Option<u8> {
        if self.group == 0 {
            return None;
        }
        let row = lowest_one(self.group);
        let bit = lowest_one(self.rows[row as usize]);
        Some(63 - (row * 8 + bit))
    }
}

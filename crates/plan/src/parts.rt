// Plans made without a text: the unfilled record, and a plan from its vectors.
ghost use Rattle.std.specs.Prelude.{◌≡◌, ℕ, ◌≤◌, [], length, MatchOption};
ghost use Rattle.std.specs.List.{list_any};
ghost use Rattle.vectors.specs.Vectors.{in_vector, strays as strays_from};
ghost use Rattle.plan.specs.Rows.{Inside, SameRows};
ghost use Rattle.plan.specs.Parts.{Fits, MadeOf};

use crate::record::Plan;
use vectors::strays;

// Whether some row names a task outside w.
fn any_strays(rows: &[u64], w: u64) -> bool
    ensures { result ≡ list_any (λ row. strays_from row (in_vector w)) rows.now }
{
    rows.iter().any(|row| strays(*row, w))
}

// The rows in an array, filled up with empty ones; none where they are more than 32 or one strays from w.
fn filled(rows: &[u64], w: u64) -> Option<[u64; 32]>
    ensures { MatchOption result ((length rows.now ≤ 32) × Inside rows.now w → ⊥) (λ a. (length rows.now ≤ 32) × SameRows a rows.now × Inside a w) }
{
    if rows.len() > 32 || any_strays(rows, w) {
        return None;
    }
    let mut table = [0; 32];
    table[..rows.len()].copy_from_slice(rows);
    Some(table)
}

impl Plan {
    // A record that declares nothing, written out: a struct with ghost fields derives no Default.
    pub fn unfilled() -> Plan
        ensures { MadeOf 0 [] [] result }
    {
        Plan {
            declared: 0,
            resources: 0,
            events: 0,
            users: [0; 32],
            registered: [0; 32],
        }
    }

    // The plan with these declared tasks, and a resource or an event for each vector of users or registered
    // tasks; none where there are more than 32 of either, or one of them names a task that is not declared.
    pub fn new(declared: u64, users: &[u64], registered: &[u64]) -> Option<Plan>
        ensures { MatchOption result (Fits declared users.now registered.now → ⊥) (λ p. MadeOf declared users.now registered.now p) }
    {
        let user_rows = filled(users, declared)?;
        let registered_rows = filled(registered, declared)?;
        // Both lengths are at most 32, as `filled` has tested.
        Some(Plan {
            declared,
            resources: users.len() as u8,
            events: registered.len() as u8,
            users: user_rows,
            registered: registered_rows,
        })
    }
}

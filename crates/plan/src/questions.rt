// What a plan tells of its tasks, resources and events. A number that the plan does not have gets none or no.
ghost use Rattle.std.specs.Prelude.{◌≡◌, slice_index};
ghost use Rattle.plan.specs.Plans.{ceiling as top_user, may_hold_up as in_table};

use crate::entry::Entry;
use crate::record::Plan;
use vectors::{contains, highest};

// Row n, which is empty past the end.
fn row(rows: &[u64; 32], n: u16) -> u64
    ensures { result ≡ slice_index rows.now n }
{
    rows.get(usize::from(n)).copied().unwrap_or(0)
}

impl Plan {
    // The tasks that may lock resource r.
    pub fn users_of(&self, r: u16) -> u64
        ensures { result ≡ slice_index self.now.users r }
    {
        row(&self.users, r)
    }

    // The tasks registered for event e.
    pub fn registered_for(&self, e: u16) -> u64
        ensures { result ≡ slice_index self.now.registered e }
    {
        row(&self.registered, e)
    }

    // The ceiling of resource r: its highest user.
    pub fn ceiling(&self, r: u16) -> Option<u8>
        ensures { result ≡ top_user self.now r }
    {
        highest(self.users_of(r))
    }

    // Whether the blocking table has this entry.
    pub fn may_hold_up(&self, e: Entry) -> bool
        ensures { result ≡ in_table self.now e.low e.high e.resource }
    {
        contains(self.declared, e.high)
            && e.low < e.high
            && contains(self.users_of(e.resource), e.low)
            && self.ceiling(e.resource).is_some_and(|c| e.high <= c)
    }
}

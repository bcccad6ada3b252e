// The plan record alone: the words of specs/ that speak of a plan import this struct.
ghost use Rattle.std.specs.Prelude.{◌≤◌};
ghost use Rattle.plan.specs.Rows.{Inside, EmptyFrom};

// The vector of declared tasks, how many resources and events there are, the users of each resource, and the
// tasks registered for each event. Users and registered tasks are declared; rows beyond the counts are empty.
// Arrays with their counts beside them: a plan is copied into calls, and a vector of fixed capacity is not Copy.
#[derive(Clone, Copy, PartialEq, Debug)]
pub struct Plan {
    pub declared: u64,
    pub resources: u8,
    pub events: u8,
    pub users: [u64; 32],
    pub registered: [u64; 32],
    ghost few_resources: { resources ≤ 32 },
    ghost few_events: { events ≤ 32 },
    ghost users_inside: { Inside users declared },
    ghost registered_inside: { Inside registered declared },
    ghost users_end: { EmptyFrom users resources },
    ghost registered_end: { EmptyFrom registered events },
}

// What the blocking table is asked for.

// Task `low` may hold up task `high` over resource `resource`.
#[derive(Clone, Copy, PartialEq, Debug)]
pub struct Entry {
    pub low: u8,
    pub high: u8,
    pub resource: u16,
}

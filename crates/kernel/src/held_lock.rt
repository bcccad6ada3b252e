// One entry of the held list.

// A resource, the task that locked it, and the system ceiling while this is the newest lock.
#[derive(Clone, Copy, Default, PartialEq, Debug)]
pub struct HeldLock {
    pub(crate) resource: u16,
    pub(crate) holder: u8,
    pub(crate) level: Option<u8>,
}

//! What is to befall a device call.

/// The one arm of a node. It passes from device call to device call, over all of the node's disks,
/// and is off once it fired.
#[derive(Clone, Copy, Debug, PartialEq, Eq)]
pub enum Fuse {
    /// No call is hit.
    Off,
    /// The process stops inside the call of that number from now on, none for 0. What the call
    /// writes or cuts is made and not synced.
    Stop(u64),
    /// The call of that number from now on does nothing, none for 0.
    Fail(u64),
}

//! The settings of the loads.

/// How many connections there may be over all loops of a port, and what they may take.
#[derive(Clone, Copy, PartialEq, Eq, Debug, Drop)]
pub struct LoadSettings {
    /// The number of connections without a seat at which no further one is to be accepted.
    pub connections: u64,
    /// The memory, in bytes, that requests may take before large requests are paused.
    pub request_bytes: u64,
    /// The number of loops of the port, among which it shares out what requests may take.
    pub loops: u64,
    /// The memory, in bytes, that responses may take. Beyond twice as much, no connection is to be accepted.
    pub response_bytes: u64,
}

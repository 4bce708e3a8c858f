//! The events of which a port informs its owner.

use crate::listener::Entrance;
use std::io;

/// Events that the owner of a port gets while the port waits. The calls are made on the operators'
/// thread, which serves nobody until they return.
pub trait ControlEvents {
    /// An accept failed, for example because no file descriptor is free. It is tried again until it
    /// succeeds. Only the first of several failures in a row is reported, of the port and of the socket each.
    fn accept_failed(&self, entrance: Entrance, reason: &io::Error);

    /// This many connections of the port were refused, since they are not of the users whose connections are served.
    fn connections_refused(&self, connections: u64);

    /// About a second has passed since the last such call. No call comes while a line is carried out.
    fn second_passed(&self);
}

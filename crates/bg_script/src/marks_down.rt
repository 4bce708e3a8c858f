//! The ports that a line `down` names, and the receiver that they go to.
ghost use Rattle.std.specs.Prelude.{◌≡◌, true};
ghost use Rattle.bg_script.specs.LineSteps.{IsDownAnswer, may_be_down};

use crate::answer::Answer;
use bg_revisions::are_replica_ports;
use std::alloc::AllocError;

/// The maximum number of ports that are down: those of 64 revisions with 64 replicas each.
const MOST_PORTS: usize = 64 * 64;

/// A receiver of the ports that are down: a prober found that the endpoints at them do not answer (HAProxy's
/// runtime command `set server .. health down`).
///
/// The method takes no handle. A receiver that waits for a lock has its own handle.
pub trait MarksDown {
    /// Takes these ports as all that are down now, in place of the ports of the call before. They are at most
    /// 4,096, all distinct and none of them 0. The only error is an allocation failure; then the ports of the
    /// call before stay.
    fn set_down(&self, ports: &[u16]) -> Result<(), AllocError>
        requires distinct { may_be_down ports.now ≡ true };
}

/// Gives the ports of a line `down` to the receiver, if they are at most 4,096, all distinct and none of them 0.
/// Returns the answer to the line: their number, `BadPorts`, or `OutOfMemory` if the receiver fails.
pub fn mark_down<M: MarksDown>(ports: &[u16], receiver: &M) -> Answer
    ensures { IsDownAnswer ports.now result }
{
    if !are_well_formed(ports) {
        return Answer::BadPorts;
    }
    match receiver.set_down(ports) {
        Ok(()) => Answer::MarkedDown(ports.len() as u64),
        Err(_) => Answer::OutOfMemory,
    }
}

/// Whether the ports are at most 4,096, all distinct and none of them 0.
fn are_well_formed(ports: &[u16]) -> bool
    ensures { result ≡ may_be_down ports.now }
{
    ports.len() <= MOST_PORTS && are_replica_ports(ports.len() as u32, ports)
}

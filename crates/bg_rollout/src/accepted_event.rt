//! An event that has no fault.

use bg_history::Entry;
use bg_promotion::Core;
use bg_revisions::{Name, Ports};

/// An event that has no fault, with what the check found: how to record it.
#[derive(Drop)]
pub enum AcceptedEvent<'a> {
    /// The moment becomes this, in seconds from the start.
    Tick(u64),
    /// A template is deployed: `namesake` is the revision that has the name; `None` means a new revision.
    Deploy {
        namesake: Option<u64>,
        name: &'a Name,
        ports: &'a Ports,
    },
    /// A revision has this many available endpoints.
    Available {
        revision: u64,
        size: u32,
    },
    /// A promotion command: its entry, and the core after it.
    Command(Entry, Core),
}

//! The command of a line of a script.

use crate::query::Query;
use bg_history::Control;
use bg_revisions::{Name, Ports, Service};

/// The command of a line of a script.
#[derive(Drop, Debug)]
pub enum Command {
    /// Open the book with this first revision.
    Open { name: Name, ports: Ports },
    /// Give this event to the book.
    Control(Control),
    /// Give this event to the book, if the boot clock is below this time limit.
    Before { milliseconds: u64, event: Control },
    /// Enter a request at a seat, for a service.
    Enter { seat: u32, service: Service },
    /// End the request at a seat.
    Leave { seat: u32 },
    /// Take these ports as all that are down now, in place of those before.
    Down { ports: Ports },
    /// Write what this asks of the book.
    Ask(Query),
    /// Drop the entries of closed requests from the history.
    Compact,
    /// End the script.
    Quit,
}

//! The laws of the ports that are dialled for a request.
ghost use Rattle.std.specs.Prelude.{List, ℕ};
ghost use Rattle.bg_event_loop.specs.Tries.{AreInTurn, TakesRoute};
ghost use Rattle.bg_event_loop.specs.declared.tries.Tries.{Tries};

use crate::endpoint_ports::EndpointPorts;
use bg_endpoints::Directory;

/// The ports that are dialled for a request differ, and each follows those before it, by the relation that the choice of
/// each keeps.
pub fn ports_are_dialled_in_turn<P: EndpointPorts>(_ports: &P)
    ensures { (ticket : ℕ) (first : Tries) (others : List Tries) (last : Tries)
        → AreInTurn (P.follows _ports.now ticket) first others last }
{}

/// The ports that are dialled for a request of a book (`BookPorts`) are a route as that of a request which a worker serves:
/// by a directory, each is chosen after those before it; without one, the port of the ticket is dialled, once.
pub fn a_request_of_a_book_takes_a_route(_directory: &Option<&Directory>)
    ensures { (ticket : ℕ) (first : Tries) (others : List Tries) (last : Tries)
        → TakesRoute _directory.now ticket first others last }
{}

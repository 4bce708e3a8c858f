//! Whose line is next.
ghost use Rattle.std.specs.Prelude.{◌≡◌, EachIndex, IfNone, IfSome, None};
ghost use Rattle.bg_control_port.specs.Precedences.{IsFirst, TakesTurn, place_at};
ghost use Rattle.bg_control_port.specs.Registers.{at};

use super::Connections;
use crate::connection::Connection;
use crate::peer::Peer;
use crate::turn::{Place, Precedence, first_so_far, precedence_after, row_after};

/// The connection whose line was given, and that waits for the reply.
#[derive(Clone, Copy, Debug, Drop, PartialEq, Eq)]
pub struct Asker {
    pub(crate) key: usize,
    pub(crate) peer: Peer,
}

impl Asker {
    /// Who sent the line.
    pub fn peer(&self) -> Peer
        ensures { result ≡ self.now.peer }
    {
        self.peer
    }
}

/// A line that was given, and whose it is.
#[derive(Debug, Drop)]
pub struct Asked<L> {
    pub asker: Asker,
    pub line: L,
}

/// The place in an order of the connection at a place.
fn place_at<L: Drop>(place: &Option<Connection<L>>, order: Precedence) -> Option<Place>
    ensures { result ≡ place_at order place.now }
{
    match place {
        Some(connection) => connection.place(order),
        None => None,
    }
}

impl<L: Drop> Connections<L> {
    /// The key of the connection that is first in an order, and its place.
    pub fn first(&self, order: Precedence) -> Option<(usize, Place)>
        ensures some { IfSome result (λ first. IsFirst order self.now.places first.0 first.1) }
        ensures none { IfNone result (EachIndex self.now.places (λ key. place_at order (at self.now.places key) ≡ None)) }
    {
        let mut first: Option<(usize, Place)> = None;
        for (key, place) in self.places.iter().enumerate() {
            first = first_so_far(first, key, place_at(place, order));
        }
        first
    }

    /// Takes the next line; `None` if no line waits. It is the one that came first, but urgent lines go before others, at most
    /// 16 in a row.
    pub fn take_line(&mut self) -> Option<Asked<L>>
        ensures { TakesTurn self.old self.new result }
    {
        let (key, place) = self.first(precedence_after(self.urgent_in_a_row))?;
        self.urgent_in_a_row = row_after(self.urgent_in_a_row, place.is_ahead);
        let connection = self.replace(key, None)?;
        let peer = connection.peer();
        let (asked, line) = connection.take_line();
        self.replace(key, Some(asked));
        Some(Asked {
            asker: Asker { key, peer },
            line,
        })
    }
}

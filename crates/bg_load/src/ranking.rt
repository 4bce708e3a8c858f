//! Rankings of connections.
ghost use Rattle.std.specs.Prelude.{◌≡◌, Some};
ghost use Rattle.bg_load.specs.Rankings.{earlier, rank_in};

use crate::among::Among;
use crate::connection::Connection;
use crate::load::if_so;

/// A ranking of the connections. Each of them has a rank in it, or none.
#[derive(Clone, Copy, PartialEq, Eq, Drop)]
pub enum Ranking {
    /// Those whose requests are large and whose numbers are at least this one, by their numbers.
    LargeFrom(u64),
    /// Those whose requests are large, by the moment since when they have made no progress.
    Still,
    /// Those that are slow at a moment, among these, by the moment since when they have made no progress.
    Slow(Among, u64),
    /// Those whose responses are written, by the moment since when they have made no progress.
    Answering,
    /// Those that are idle, by the moment since when they are.
    Idle,
}

impl Ranking {
    /// The rank of a connection.
    fn rank(self, connection: Connection) -> Option<u64>
        ensures { result ≡ rank_in self (Some connection) }
    {
        match self {
            Ranking::LargeFrom(least) => if_so(connection.is_large_from(least), connection.number),
            Ranking::Still => connection.load.still_since(),
            Ranking::Slow(among, now) => connection.load.slow_since(among, now),
            Ranking::Answering => connection.load.answering_since(),
            Ranking::Idle => connection.load.idle_since(),
        }
    }

    /// The rank of a place.
    pub(crate) fn rank_of(self, place: Option<Connection>) -> Option<u64>
        ensures { result ≡ rank_in self place }
    {
        match place {
            Some(connection) => self.rank(connection),
            None => None,
        }
    }
}

/// Of the first connection so far in a ranking, with its rank, and another one, the one whose rank is less.
pub(crate) fn earlier(
    first: Option<(usize, u64)>,
    key: usize,
    rank: Option<u64>,
) -> Option<(usize, u64)>
    ensures { result ≡ earlier first key rank }
{
    let Some(rank) = rank else {
        return first;
    };
    match first {
        Some((_other, least)) if least <= rank => first,
        Some(_) | None => Some((key, rank)),
    }
}

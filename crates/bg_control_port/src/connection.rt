//! The state of a connection of an operator.
ghost use Rattle.std.specs.Prelude.{◌≡◌, [], IfNone, IfSome, None};
ghost use Rattle.bg_control_port.specs.Bounds.{is_given_up};
ghost use Rattle.bg_control_port.specs.Stages.{interest_of, place_of, rest_at};
ghost use Rattle.bg_control_port.specs.declared.connection.Stage.TheVariants as stage;

mod steps;

use crate::bounds::has_passed;
use crate::buffer::{Buffer, Found};
use crate::peer::Peer;
use crate::reply::{AfterReply, Reply};
use crate::turn::{Place, Precedence};
use std::alloc::Global;

/// The number of milliseconds for which a connection may take nothing of a reply.
const LONGEST_REPLY_SILENCE: u64 = 10_000;

/// What happens next with a connection.
#[derive(Drop)]
pub enum Stage<L: Drop> {
    /// A line is awaited.
    Awaits,
    /// A line that is too long is skipped.
    Skips,
    /// A whole line came, and was not read yet. This is its number.
    Came(Found, u64),
    /// A line that was read waits to be answered. It is ahead if it is urgent.
    Waits(L, Place),
    /// Its line is being answered.
    Asked,
    /// A reply was not taken whole. No further line is read until it is.
    Replies(Buffer, AfterReply),
}

/// What a connection waits for.
#[derive(Clone, Copy, Drop, PartialEq, Eq)]
pub enum Interest {
    /// Bytes can be read.
    Input,
    /// Bytes can be written.
    Output,
}

/// When a step happens.
#[derive(Clone, Copy, Drop, PartialEq, Eq)]
pub struct Moment {
    /// In milliseconds from the start of the port.
    pub now: u64,
    /// The number that the next line gets, if it is whole by this step.
    pub number: u64,
}

/// The state of a connection, whose lines are read as `L`. Moments are milliseconds from the start of the port.
#[derive(Drop)]
pub struct Connection<L: Drop> {
    stage: Stage<L>,
    /// What came of its input and was not taken. No more is read while a whole line of it waits.
    input: Buffer,
    /// Who is at its other end.
    peer: Peer,
    /// When a byte of a line last came, or a byte of a reply was last taken. Bytes that are skipped do not count.
    moved: u64,
}

impl<L: Drop> Connection<L> {
    /// A connection of this peer that was accepted now.
    pub fn new(alloc: Global, peer: Peer, now: u64) -> Connection<L>
        ensures { result ≡ record { stage = stage.Awaits; input = []; peer = peer; moved = now } }
    {
        Connection {
            stage: Stage::Awaits,
            input: Buffer::new(alloc),
            peer,
            moved: now,
        }
    }

    pub fn peer(&self) -> Peer
        ensures { result ≡ self.now.peer }
    {
        self.peer
    }

    /// What it waits for; `None` if a whole line of it came, waits or is being answered.
    pub fn interest(&self) -> Option<Interest>
        ensures { result ≡ interest_of self.now.stage }
    {
        match self.stage {
            Stage::Awaits | Stage::Skips => Some(Interest::Input),
            Stage::Came(..) | Stage::Waits(..) | Stage::Asked => None,
            Stage::Replies(..) => Some(Interest::Output),
        }
    }

    /// The rest of its reply, if a reply was not taken whole.
    pub fn rest(&self) -> Option<Reply<'_>>
        ensures some { IfSome result (λ reply. rest_at self.now.stage ≡ Some (reply.bytes.now, reply.after)) }
        ensures none { IfNone result (rest_at self.now.stage ≡ None) }
    {
        match &self.stage {
            Stage::Replies(reply, after) => Some(Reply {
                bytes: reply.bytes(),
                after: *after,
            }),
            _ => None,
        }
    }

    /// Its place in an order. A connection has one in the order of the lines if its line waits, and in that of
    /// the silence unless an urgent line of it waits or its line is being answered.
    pub fn place(&self, order: Precedence) -> Option<Place>
        ensures { result ≡ place_of order self.now }
    {
        match (order, &self.stage) {
            (Precedence::Lines, Stage::Waits(_, place)) => Some(*place),
            (Precedence::Arrival, Stage::Waits(_, place)) => Some(Place {
                is_ahead: false,
                ..*place
            }),
            (Precedence::Lines | Precedence::Arrival, _) => None,
            (Precedence::Silence, Stage::Asked) => None,
            (Precedence::Silence, Stage::Waits(_, place)) if place.is_ahead => None,
            (Precedence::Silence, at) => Some(Place {
                is_ahead: !matches!(at, Stage::Came(..) | Stage::Waits(..)),
                number: self.moved,
            }),
        }
    }

    /// Whether it has taken nothing of a reply for ten seconds.
    pub fn is_given_up(&self, now: u64) -> bool
        ensures { result ≡ is_given_up now self.now }
    {
        matches!(self.stage, Stage::Replies(..))
            && has_passed(LONGEST_REPLY_SILENCE, self.moved, now)
    }
}

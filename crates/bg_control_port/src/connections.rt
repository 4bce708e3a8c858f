//! The state of all connections, without their sockets.
ghost use Rattle.std.specs.Prelude.{◌≡◌, ◌<◌, ◌≤◌, EachIndex, IfErr, IfNone, IfOk, IfSome, None, count_by, is_some, length, replicate, slice_set};
ghost use Rattle.std.specs.Option.{option_copied};
ghost use Rattle.bg_control_port.specs.Bounds.{IsBounded};
ghost use Rattle.bg_control_port.specs.Registers.{Enters, ReadsIn, Takes, at, came_by, changed, ended_by, leaves, replied_by, without, wrote_by};

mod room;
#[cfg(test)]
mod tests;
mod turns;

use crate::bounds::MOST_CONNECTIONS;
use crate::connection::{Connection, Moment};
use crate::peer::Peer;
use crate::reading::ReadsLines;
use crate::reply::Reply;
pub use room::is_long;
use std::alloc::{AllocError, Global};
use std::marker::Model;
use std::mem;
pub use turns::{Asked, Asker};

/// The connections of operators, each at its key, whose lines are read as `L`. The caller reads and writes their sockets, and says what came of it.
/// Moments are milliseconds from the start of the port.
#[derive(Drop)]
pub struct Connections<L: Drop> {
    alloc: Global,
    places: Vec<Option<Connection<L>>>,
    /// The number of the next whole line.
    next_number: u64,
    /// How many of the last lines were given before others since they are urgent.
    urgent_in_a_row: u32,
}

impl<L: Drop> Model for Connections<L> {
    ghost use Rattle.std.specs.Prelude.{◌≤◌, ℕ, length};
    ghost use Rattle.bg_control_port.specs.Bounds.{IsBounded};
    ghost use Rattle.bg_control_port.specs.Registers.{Register, at};

    ghost Value = { Register L };

    ghost view = { λ c. record {
      places = c.places.items;
      next_number = c.next_number;
      urgent_in_a_row = c.urgent_in_a_row;
    } };

    ghost invariant = { λ c.
        (length c.places.items ≤ 1024) × ((key : ℕ) → IsBounded (at c.places.items key)) };
}

impl<L: Drop> Connections<L> {
    /// No connections, and places for 1,024. The only error is an allocation failure.
    pub fn new(alloc: Global) -> Result<Connections<L>, AllocError>
        ensures { IfOk result (λ connections. connections ≡ record {
          places = replicate 1024 None;
          next_number = 0;
          urgent_in_a_row = 0;
        }) }
    {
        let mut places = Vec::with_capacity(alloc, MOST_CONNECTIONS)?;
        for _ in 0..MOST_CONNECTIONS {
            places.push(None)?;
        }
        Ok(Connections {
            alloc,
            places,
            next_number: 0,
            urgent_in_a_row: 0,
        })
    }

    /// The number of connections, at most 1,024.
    pub fn count(&self) -> usize
        ensures count { result ≡ count_by is_some self.now.places }
        ensures most { result ≤ 1024 }
    {
        self.places.iter().filter(|place| place.is_some()).count()
    }

    /// The connection of a key.
    pub fn get(&self, key: usize) -> Option<&Connection<L>>
        ensures { option_copied result ≡ at self.now.places key }
    {
        self.places.get(key)?.as_ref()
    }

    /// Adds a connection of this peer that was accepted now, and gives its key; `None` only if there are 1,024.
    pub fn add(&mut self, peer: Peer, now: u64) -> Option<usize>
        ensures enters { IfSome result (λ key. Enters self.old self.new key peer now) }
        ensures none { IfNone result (self.new ≡ self.old) }
        ensures full { IfNone result (EachIndex self.old.places (λ key. ¬ (at self.old.places key ≡ None))) }
    {
        let key = self.first_free()?;
        let connection = Connection::new(self.alloc, peer, now);
        self.replace(key, Some(connection));
        Some(key)
    }

    /// The first key without a connection.
    fn first_free(&self) -> Option<usize>
        ensures within { IfSome result (λ key. key < length self.now.places) }
        ensures free { IfSome result (λ key. at self.now.places key ≡ None) }
        ensures none { IfNone result (EachIndex self.now.places (λ key. ¬ (at self.now.places key ≡ None))) }
    {
        self.places.iter().position(|place| place.is_none())
    }

    /// Puts this into the place of a key, and gives what was there.
    fn replace(&mut self, key: usize, place: Option<Connection<L>>) -> Option<Connection<L>>
        requires within { key < length self.old.places }
        requires bounded { IsBounded place }
        ensures place { self.new ≡ record self.old { places = slice_set self.old.places key place } }
        ensures before { result ≡ at self.old.places key }
    {
        mem::replace(&mut self.places[key], place)
    }

    /// Takes the connection of a key out of its place, with the moment of the step that it is taken for.
    fn take(&mut self, key: usize, now: u64) -> Option<(Connection<L>, Moment)>
        ensures some { IfSome result (λ taken. Takes self.old self.new key now taken.0 taken.1) }
        ensures none { IfNone result (at self.old.places key ≡ None) }
        ensures kept { IfNone result (self.new ≡ self.old) }
    {
        if key >= self.places.len() {
            return None;
        }
        let connection = self.replace(key, None)?;
        let number = self.next_number;
        self.next_number = number.saturating_add(1);
        Some((connection, Moment { now, number }))
    }

    /// Notes that bytes came. If no line of the connection is awaited, nothing changes but the number of the next line.
    /// The only error is an allocation failure, after which the connection has left.
    pub fn came(&mut self, key: usize, bytes: &[u8], now: u64) -> Result<(), AllocError>
        requires { length bytes.now ≤ 8192 }
        ensures came { IfOk result (λ _. self.new ≡ changed (came_by bytes.now) now self.old key) }
        ensures failed { IfErr result (λ _. self.new ≡ changed leaves now self.old key) }
    {
        if let Some((connection, moment)) = self.take(key, now) {
            let connection = connection.came(bytes, moment)?;
            self.replace(key, Some(connection));
        }
        Ok(())
    }

    /// Notes that the input of a connection has ended. Without a part of a line, the connection leaves.
    pub fn end_input(&mut self, key: usize, now: u64)
        ensures { self.new ≡ changed ended_by now self.old key }
    {
        if let Some((connection, moment)) = self.take(key, now) {
            self.replace(key, connection.ended(moment.number));
        }
    }

    /// Reads the whole line of a connection, if one came and was not read yet. Then it waits. The only error is an allocation
    /// failure, after which the connection has left.
    pub fn read<P: ReadsLines<L>>(
        &mut self,
        reader: &P,
        key: usize,
        now: u64,
    ) -> Result<(), AllocError>
        ensures read { IfOk result (λ _. ReadsIn (P.reads reader.now) (P.puts_first reader.now) now (at self.old.places key) self.old self.new key) }
        ensures failed { IfErr result (λ _. self.new ≡ changed leaves now self.old key) }
    {
        if let Some((connection, _moment)) = self.take(key, now) {
            let connection = connection.read(reader)?;
            self.replace(key, Some(connection));
        }
        Ok(())
    }

    /// Notes the reply to the line that was given, and that so many bytes of it were taken at once. The rest is kept. The
    /// connection leaves if more than 65,536 bytes would have to be kept, or if the reply was taken whole and is its
    /// last. The only error is an allocation failure, after which the connection has left.
    pub fn replied(
        &mut self,
        key: usize,
        reply: Reply,
        count: usize,
        now: u64,
    ) -> Result<(), AllocError>
        ensures replied { IfOk result (λ _. self.new ≡ changed (replied_by reply.entry.bytes.now reply.entry.after count) now self.old key) }
        ensures failed { IfErr result (λ _. self.new ≡ changed leaves now self.old key) }
    {
        if let Some((connection, moment)) = self.take(key, now) {
            let connection = connection.replied(self.alloc, reply, count, moment)?;
            self.replace(key, connection);
        }
        Ok(())
    }

    /// Notes that so many bytes of the rest of a reply were taken. The connection leaves if the reply was taken whole and
    /// is its last.
    pub fn wrote(&mut self, key: usize, count: usize, now: u64)
        ensures { self.new ≡ changed (wrote_by count) now self.old key }
    {
        if let Some((connection, moment)) = self.take(key, now) {
            self.replace(key, connection.wrote(count, moment));
        }
    }

    /// Notes that a connection has failed or was ended. It leaves.
    pub fn end(&mut self, key: usize)
        ensures { self.new ≡ without self.old key }
    {
        if key < self.places.len() {
            self.replace(key, None);
        }
    }
}

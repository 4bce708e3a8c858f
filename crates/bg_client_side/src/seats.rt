//! The seats of requests, and the clients that wait for one.
ghost use Rattle.std.specs.Prelude.{◌≡◌, ◌++◌, ◌∷◌, ◌||◌, [], IfNone, IfOk, IfSome, if◌then◌else◌, length, nat_lt, position, true};
ghost use Rattle.std.specs.VecDeque.{deque_capacity};
ghost use Rattle.bg_http.specs.Codings.{is_empty};
ghost use Rattle.bg_client_side.specs.Seating.{IsEntered, first_seats, has, is_number, without};

use std::alloc::{AllocError, Global};
use std::collections::VecDeque;
use std::marker::Model;

/// A client whose request enters.
#[derive(Clone, Copy, PartialEq, Eq, Debug, Drop)]
pub struct Entered {
    /// The key of its connection.
    pub key: usize,
    /// The number of its seat, which is below the number of all seats.
    pub seat: usize,
}

/// The seats of the requests that are inside, and the keys of the connections whose requests wait for one. A seat is free
/// or taken. The client that has waited longest enters first.
pub struct Seats {
    /// The keys that wait, the one that has waited longest first.
    waiting: VecDeque<usize>,
    /// The free seats. The one that is free for the longest time is taken first.
    free: VecDeque<usize>,
    /// The taken seats, the one that was taken first is the first.
    taken: VecDeque<usize>,
    /// The number of all seats.
    count: usize,
    /// The most keys that may wait.
    most: usize,
}

impl Drop for Seats {
    /// Drops the fields by one call, so that the proofs of what owns a value are short (CONTRIBUTING.md, "What a check costs").
    fn drop(self) {
        let Seats {
            waiting: _,
            free: _,
            taken: _,
            count: _,
            most: _,
        } = self;
    }
}

impl Model for Seats {
    ghost use Rattle.std.specs.Prelude.{◌≡◌, ◌+◌, ◌≤◌, length};
    ghost use Rattle.std.specs.VecDeque.{deque_capacity};
    ghost use Rattle.bg_client_side.specs.Seating.{Seating};

    ghost Value = { Seating };

    ghost view = { λ s. record {
      waiting = s.waiting.items;
      free = s.free.items;
      taken = s.taken.items;
      most = s.most;
    } };

    ghost invariant = { λ s. (length s.free.items + length s.taken.items ≡ s.count)
        × (s.count ≤ deque_capacity s.free) × (s.count ≤ deque_capacity s.taken) × (s.most ≤ deque_capacity s.waiting) };
}

impl Seats {
    /// So many free seats, for which as many keys may wait as `most` says. No later call allocates. The only error is an
    /// allocation failure.
    pub fn new(alloc: Global, count: usize, most: usize) -> Result<Seats, AllocError>
        ensures { IfOk result (λ seats. seats
            ≡ record { waiting = []; free = first_seats count; taken = []; most = most }) }
    {
        let free = free_seats(alloc, count)?;
        Ok(Seats {
            waiting: VecDeque::with_capacity(alloc, most)?,
            free,
            taken: VecDeque::with_capacity(alloc, count)?,
            count,
            most,
        })
    }

    /// Lets the client of this key wait behind all others. Gives whether it waits; it does not if the most keys wait
    /// already. A caller lets a key wait once at a time.
    pub fn wait(&mut self, key: usize) -> bool
        ensures waits { result ≡ nat_lt (length self.old.waiting) self.old.most }
        ensures new { self.new ≡ record self.old {
          waiting = if nat_lt (length self.old.waiting) self.old.most then self.old.waiting ++ key ∷ [] else self.old.waiting;
        } }
    {
        if self.waiting.len() >= self.most {
            return false;
        }
        self.waiting.push_back_reserved(key);
        true
    }

    /// Lets the client enter that has waited longest, if a seat is free. `None` if no client waits, or no seat is free.
    pub fn enter(&mut self) -> Option<Entered>
        ensures entered { IfSome result (λ entered. IsEntered self.old entered self.new) }
        ensures none { IfNone result ((is_empty self.old.waiting || is_empty self.old.free) ≡ true) }
        ensures same { IfNone result (self.new ≡ self.old) }
    {
        if self.free.is_empty() {
            return None;
        }
        let key = self.waiting.pop_front()?;
        match self.free.pop_front() {
            Some(seat) => {
                self.taken.push_back_reserved(seat);
                Some(Entered { key, seat })
            }
            None => unreachable!(),
        }
    }

    /// Frees a seat, since its request has left. Gives whether the seat was taken; otherwise nothing changes.
    pub fn leave(&mut self, seat: usize) -> bool
        ensures taken { result ≡ has seat self.old.taken }
        ensures new { self.new ≡ record self.old {
          taken = without seat self.old.taken;
          free = if has seat self.old.taken then self.old.free ++ seat ∷ [] else self.old.free;
        } }
    {
        if !take_out(&mut self.taken, seat) {
            return false;
        }
        self.free.push_back_reserved(seat);
        true
    }

    /// Lets the client of this key wait no longer, since its connection has left. Gives whether it waited.
    pub fn withdraw(&mut self, key: usize) -> bool
        ensures waited { result ≡ has key self.old.waiting }
        ensures new { self.new ≡ record self.old { waiting = without key self.old.waiting } }
    {
        take_out(&mut self.waiting, key)
    }

    /// The number of free seats.
    pub fn free(&self) -> usize
        ensures { result ≡ length self.now.free }
    {
        self.free.len()
    }

    /// The number of keys that wait.
    pub fn waiting(&self) -> usize
        ensures { result ≡ length self.now.waiting }
    {
        self.waiting.len()
    }
}

/// The numbers of so many seats, in a queue that has room for just them.
fn free_seats(alloc: Global, count: usize) -> Result<VecDeque<usize>, AllocError>
    ensures items { IfOk result (λ free. free.items ≡ first_seats count) }
    ensures room { IfOk result (λ free. deque_capacity free ≡ count) }
{
    let mut free = VecDeque::with_capacity(alloc, count)?;
    for seat in 0..count {
        free.push_back_reserved(seat);
    }
    Ok(free)
}

/// Takes the first place of a number out of a queue. Gives whether it was there.
fn take_out(numbers: &mut VecDeque<usize>, number: usize) -> bool
    ensures there { result ≡ has number numbers.old.items }
    ensures left { numbers.new.items ≡ without number numbers.old.items }
    ensures room { deque_capacity numbers.new ≡ deque_capacity numbers.old }
{
    match place_of(numbers, number) {
        Some(place) => {
            numbers.remove(place);
            true
        }
        None => false,
    }
}

/// The first place of a number.
fn place_of(numbers: &VecDeque<usize>, number: usize) -> Option<usize>
    ensures { result ≡ position (is_number number) numbers.now.items }
{
    numbers.iter().position(|one| *one == number)
}

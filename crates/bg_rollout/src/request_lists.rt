//! A list of open requests for each revision.
ghost use Rattle.std.specs.Prelude.{◌≡◌, ◌<◌, ◌==◌, ◌++◌, ◌∷◌, [], false, true, length, not, filter, find, IfOk, IsSome, option_map};
ghost use Rattle.bg_rollout.specs.RequestLists.{changed, has_request, is_empty_at, is_owned, requests_of, without_seat};

use bg_openlist::OpenLists;
use bg_revisions::MOST_REVISIONS;
use std::alloc::{AllocError, Global};
use std::marker::Model;

/// The greatest number of seats.
pub const MOST_SEATS: u32 = 2048;

/// A request that entered and hasn't left.
#[derive(Clone, Copy, PartialEq, Eq, Debug, Drop)]
pub struct OpenRequest {
    /// The index of its seat, 0 to 2,047.
    pub seat: u32,
    /// Its number, at least 1.
    pub number: u64,
}

/// A revision, and the number of its linked list.
#[derive(Clone, Copy, Drop)]
struct OwnList {
    revision: u64,
    list: usize,
}

/// A list of open requests for each revision that has one, in the order in which the lists were added.
///
/// The lists are linked by pointers. A request is at the node of its seat's index, so removing it from the middle of
/// its list needs no search and no allocation.
pub struct RequestLists {
    owned: Vec<OwnList>,
    linked: OpenLists<u64>,
}

impl Drop for RequestLists {
    /// Drops the fields by one call, so that the proofs of what owns a value are short (CONTRIBUTING.md, "What a check costs").
    fn drop(self) {
        let RequestLists {
            owned: _,
            linked: _,
        } = self;
    }
}

impl Model for RequestLists {
    ghost use Rattle.std.specs.Prelude.{List, map, vec_capacity};
    ghost use Rattle.bg_rollout.specs.RequestLists.{OpenAt, OwnsLists, shown_at};

    ghost Value = { List OpenAt };

    ghost view = { λ l. map (shown_at l.linked) l.owned.items };

    ghost invariant = { λ l. OwnsLists l.owned.items (vec_capacity l.owned) l.linked };
}

impl RequestLists {
    /// Makes the list of revision 1 alone, without requests, with room for the greatest number of revisions and a node
    /// for each possible seat. The only error is an allocation failure.
    pub fn new(alloc: Global) -> Result<RequestLists, AllocError>
        ensures { IfOk result (λ l. l ≡ record { revision = 1; requests = [] } ∷ []) }
    {
        let mut owned = Vec::with_capacity(alloc, MOST_REVISIONS)?;
        let linked = OpenLists::new(alloc, MOST_SEATS as usize)?;
        owned.push_reserved(OwnList {
            revision: 1,
            list: 0,
        });
        Ok(RequestLists { owned, linked })
    }

    /// Appends a list without requests, for a revision that has no list yet. The call allocates nothing.
    pub fn add(&mut self, revision: u64)
        requires { length self.old < 64 }
        ensures { self.new ≡ self.old ++ record { revision = revision; requests = [] } ∷ [] }
    {
        let list = unowned(&self.owned);
        self.owned.push_reserved(OwnList { revision, list });
    }

    /// The number of open requests at a revision; 0 if it has no list.
    pub fn count(&self, revision: u64) -> usize
        ensures { result ≡ length (requests_of revision self.now) }
    {
        match own_list(&self.owned, revision) {
            Some(list) => self.linked.len(list),
            None => 0,
        }
    }

    /// Appends a request to its revision's list. The request's seat has no request in any list. The call allocates
    /// nothing.
    pub fn append(&mut self, revision: u64, request: OpenRequest)
        requires revision { IsSome (find (λ l. l.revision == revision) self.old) }
        requires seat { request.seat < 2048 }
        requires free { has_request request.seat self.old ≡ false }
        ensures { self.new ≡ changed revision
            (λ requests. requests ++ request ∷ []) self.old }
    {
        let list = own_list(&self.owned, revision).unwrap();
        let node = request.seat as usize;
        self.linked.link(list, node, request.number);
    }

    /// Removes the request of a seat from its list. It needs no search: the seat's index is the node.
    pub fn remove(&mut self, seat: u32)
        requires { has_request seat self.old ≡ true }
        ensures { self.new ≡ without_seat seat self.old }
    {
        self.linked.unlink(seat as usize);
    }

    /// Drops the list of a revision that has no request. A new revision can then use its linked list.
    pub fn drop_list(&mut self, revision: u64)
        requires { is_empty_at revision self.old ≡ true }
        ensures { self.new ≡ filter (λ l. not (l.revision == revision)) self.old }
    {
        self.owned.retain(|own| own.revision != revision);
    }
}

/// The linked list of a revision, if it has one.
fn own_list(owned: &[OwnList], revision: u64) -> Option<usize>
    ensures { result ≡ option_map (λ o. o.list) (find (λ o. o.revision == revision) owned.now) }
{
    let own = owned.iter().find(|own| own.revision == revision)?;
    Some(own.list)
}

/// A linked list that no revision uses.
fn unowned(owned: &[OwnList]) -> usize
    requires { length owned.now < 64 }
    ensures below { result < 64 }
    ensures free { is_owned result owned.now ≡ false }
{
    for list in 0..MOST_REVISIONS {
        if !has_holder(owned, list) {
            return list;
        }
    }
    unreachable!()
}

/// Whether a revision uses a linked list.
fn has_holder(owned: &[OwnList], list: usize) -> bool
    ensures { result ≡ is_owned list owned.now }
{
    owned.iter().any(|own| own.list == list)
}

//! Which port is dialled next.
ghost use Rattle.std.specs.Prelude.{◌≡◌, ◌≢◌, ◌==◌, [], true, not, IfSome, IfNone, OnOk, filter};
ghost use Rattle.std.specs.List.{find, list_any};
ghost use Rattle.std.specs.Option.{option_copied};
ghost use Rattle.bg_endpoints.specs.Choices.{allows, alone_choice, chosen, chosen_from, chosen_of, count_not_down, first_by};
ghost use Rattle.bg_endpoints.specs.Choices.{free_criteria, is_down, is_healthy, is_new, is_up, passes, takes_part};
ghost use Rattle.bg_endpoints.specs.States.{state_of, with_state};

use crate::port_lists::{PortList, PortLists};
use crate::port_state::PortState;
use crate::share::Share;
use std::alloc::{AllocError, Global};

/// Which of the ports that take part may be taken. Each allows more than the one before.
#[derive(Clone, Copy, Drop, PartialEq, Eq)]
pub(crate) enum Choice {
    /// Neither marked nor down, and below the limit of requests.
    Free,
    /// Neither marked nor down.
    Unmarked,
    /// All.
    Any,
}

/// What a port has to meet.
#[derive(Clone, Copy, Drop)]
pub(crate) struct Criteria {
    /// The port of the request's ticket, which takes part.
    pub(crate) ticket: u16,
    pub(crate) choice: Choice,
    /// The moment, in milliseconds from the start of the program.
    pub(crate) now: u64,
    /// The number of requests at a time from which a port is not free.
    pub(crate) limit: u32,
}

impl Criteria {
    /// The same for another choice.
    fn with(self, choice: Choice) -> Criteria
        ensures { result ≡ record self { choice = choice } }
    {
        Criteria { choice, ..self }
    }
}

/// The lists of the revisions' ports, and what is known of the ports.
#[derive(Drop)]
pub(crate) struct Table {
    pub(crate) lists: PortLists,
    states: Vec<PortState>,
    /// The ports that are down.
    down: Vec<u16>,
    share: Share,
}

impl Table {
    pub(crate) fn new(alloc: Global, share: Share) -> Table {
        Table {
            lists: PortLists::new(alloc),
            states: Vec::new(alloc),
            down: Vec::new(alloc),
            share,
        }
    }

    /// Takes these lists in place of those before. What is known of a port that no list has is dropped, unless a
    /// request is there.
    pub(crate) fn set_lists(&mut self, lists: PortLists)
        ensures { self.new.lists ≡ lists }
    {
        self.states
            .retain(|state| state.requests != 0 || lists.has(state.port));
        self.lists = lists;
    }

    /// Takes these ports as those that are down, in place of those before.
    pub(crate) fn set_down(&mut self, ports: Vec<u16>)
        ensures { self.new ≡ record self.old { down = ports } }
    {
        self.down = ports;
    }

    /// What is known of a port.
    pub(crate) fn state_of(&self, port: u16) -> PortState
        ensures { result ≡ state_of self.now.states.items port }
    {
        match self.known(port) {
            Some(state) => *state,
            None => PortState::new(port),
        }
    }

    fn known(&self, port: u16) -> Option<&PortState>
        ensures { option_copied result ≡ find (λ s. s.port == port) self.now.states.items }
    {
        self.states.iter().find(|state| state.port == port)
    }

    /// Keeps what is known of a port. If an allocation fails, nothing is known of the port.
    pub(crate) fn put(&mut self, state: PortState) -> Result<(), AllocError>
        ensures states { OnOk result (self.new.states.items ≡ with_state self.old.states.items state) }
        ensures lists { self.new.lists ≡ self.old.lists }
        ensures down { self.new.down ≡ self.old.down }
        ensures share { self.new.share ≡ self.old.share }
    {
        forget(&mut self.states, state.port);
        self.states.push(state)?;
        Ok(())
    }

    /// Whether a port is down.
    fn is_down(&self, port: u16) -> bool
        ensures { result ≡ is_down self.now port }
    {
        self.down.iter().any(|down| *down == port)
    }

    /// The port that is dialled next for a request whose ticket has the port `ticket`, after those that were
    /// tried: the first one, from the ticket's on, of the ports that take part of the only list that has it, wrapping
    /// round. Free ports come first, then unmarked ones, and then all others. A port that two lists have is dialled
    /// only for its own tickets, and no other port is dialled for these. `None` if no port is left; one is left if
    /// none was tried.
    ///
    /// The ticket's port takes part. If N endpoints of its list are available, so do the first N ports, and the first
    /// N ports that are not down. So a port beyond the first N takes part only in the place of one that is down.
    pub(crate) fn choose(&self, ticket: u16, tried: &[u16], now: u64) -> Option<u16>
        ensures choice { result ≡ chosen self.now ticket tried.now now }
        ensures once { IfSome result (λ port. is_new port tried.now ≡ true) }
        ensures left { IfNone result (tried.now ≢ []) }
    {
        self.choose_by(ticket, tried, now)
    }

    /// The choice, by the only list that has the ticket's port.
    fn choose_by(&self, ticket: u16, tried: &[u16], now: u64) -> Option<u16>
        ensures { result ≡ chosen self.now ticket tried.now now }
    {
        match self.lists.only_list(ticket) {
            Some(list) => self.choose_from(list, ticket, tried, now),
            None => alone(ticket, tried),
        }
    }

    /// The choice from a list.
    fn choose_from(&self, list: &PortList, ticket: u16, tried: &[u16], now: u64) -> Option<u16>
        ensures { result ≡ chosen_from self.now ticket tried.now now list.now }
    {
        let criteria = self.criteria_at(list, ticket, now);
        self.choose_of(list, tried, criteria)
    }

    /// What a port of a list has to meet to be free.
    fn criteria_at(&self, list: &PortList, ticket: u16, now: u64) -> Criteria
        ensures { result ≡ free_criteria self.now ticket now list.now }
    {
        let up = self.count_not_down(list.get()).min(list.available());
        Criteria {
            ticket,
            choice: Choice::Free,
            now,
            limit: self.share.of(up),
        }
    }

    /// The choice from a list: a free port, or else an unmarked one, or else any one that takes part.
    fn choose_of(&self, list: &PortList, tried: &[u16], criteria: Criteria) -> Option<u16>
        ensures { result ≡ chosen_of self.now list.now tried.now criteria }
    {
        self.first(list, tried, criteria.with(Choice::Free))
            .or(self.first(list, tried, criteria.with(Choice::Unmarked)))
            .or(self.first(list, tried, criteria.with(Choice::Any)))
    }

    /// The number of these ports that are not down.
    fn count_not_down(&self, ports: &[u16]) -> usize
        ensures { result ≡ count_not_down self.now ports.now }
    {
        ports.iter().filter(|port| !self.is_down(**port)).count()
    }

    /// The first port of a list that may be taken, from the ticket's on, wrapping round.
    fn first(&self, list: &PortList, tried: &[u16], criteria: Criteria) -> Option<u16>
        ensures { result ≡ first_by self.now list.now tried.now criteria }
    {
        self.find(list.ports_from(criteria.ticket), list, tried, criteria)
            .or(self.find(list.ports_before(criteria.ticket), list, tried, criteria))
    }

    /// The first of these ports that may be taken.
    fn find(&self, ports: &[u16], list: &PortList, tried: &[u16], criteria: Criteria) -> Option<u16>
        ensures { result ≡
            find (λ port. passes self.now list.now tried.now criteria port) ports.now }
    {
        self.found(ports, list, tried, criteria).copied()
    }

    fn found<'p>(
        &self,
        ports: &'p [u16],
        list: &PortList,
        tried: &[u16],
        criteria: Criteria,
    ) -> Option<&'p u16>
        ensures { option_copied result ≡
            find (λ port. passes self.now list.now tried.now criteria port) ports.now }
    {
        ports
            .iter()
            .find(|port| self.may_take(**port, list, tried, criteria))
    }

    /// Whether a port of a list may be taken.
    fn may_take(&self, port: u16, list: &PortList, tried: &[u16], criteria: Criteria) -> bool
        ensures { result ≡ passes self.now list.now tried.now criteria port }
    {
        !was_tried(port, tried)
            && self.lists.is_in_one_list(port)
            && self.takes_part(port, list, criteria.ticket)
            && self.is_allowed(port, criteria)
    }

    /// Whether a choice allows a port that takes part.
    fn is_allowed(&self, port: u16, criteria: Criteria) -> bool
        ensures { result ≡ allows self.now criteria criteria.choice port }
    {
        match criteria.choice {
            Choice::Any => true,
            Choice::Unmarked => self.is_unmarked(port, criteria.now),
            Choice::Free => self.is_unmarked(port, criteria.now)
                && self.state_of(port).requests < criteria.limit,
        }
    }

    /// Whether a request whose ticket has the port `ticket` may be dialled at a port of a list.
    fn takes_part(&self, port: u16, list: &PortList, ticket: u16) -> bool
        ensures { result ≡ takes_part self.now list.now ticket port }
    {
        port == ticket || list.has_slot(port) || self.is_up(port, list)
    }

    /// Whether a port of a list is one of the first that are not down, as many as endpoints are available.
    fn is_up(&self, port: u16, list: &PortList) -> bool
        ensures { result ≡ is_up self.now list.now port }
    {
        !self.is_down(port) && self.count_not_down(list.ports_before(port)) < list.available()
    }

    /// Whether a port is neither down nor marked.
    fn is_unmarked(&self, port: u16, now: u64) -> bool
        ensures { result ≡ is_healthy self.now now port }
    {
        !self.is_down(port) && self.state_of(port).marked_until <= now
    }
}

/// Forgets what is known of a port.
fn forget(states: &mut Vec<PortState>, port: u16)
    ensures { states.new.items ≡ filter (λ s. not (s.port == port)) states.old.items }
{
    states.retain(|state| state.port != port);
}

/// The ticket's port, if it was not dialled yet.
fn alone(ticket: u16, tried: &[u16]) -> Option<u16>
    ensures { result ≡ alone_choice ticket tried.now }
{
    if was_tried(ticket, tried) {
        return None;
    }
    Some(ticket)
}

/// Whether a port is one of those that were tried.
fn was_tried(port: u16, tried: &[u16]) -> bool
    ensures { result ≡ list_any (λ other. other == port) tried.now }
{
    tried.iter().any(|other| *other == port)
}

//! The lists of the revisions' ports.
ghost use Rattle.std.specs.Prelude.{◌≡◌, ◌==◌, ◌<◌, ◌≤◌, [], ◌∷◌, ◌++◌, drop, length, take, IfOk, IfSome, OnErr, OnOk};
ghost use Rattle.std.specs.List.{find, position};
ghost use Rattle.std.specs.Option.{option_copied};
ghost use Rattle.bg_endpoints.specs.Lists.{has_port, has_slot, is_in_one_list, listed, only_list, place_of, shown};

use std::alloc::{AllocError, Global};

/// The ports of one revision, in order, and how many of its endpoints are available.
#[derive(Debug, Drop)]
pub struct PortList {
    ports: Vec<u16>,
    available: usize,
}

impl PortList {
    /// A list with a copy of these ports: all those of a revision, in order. So many of its endpoints are
    /// available: requests get its first ports as their slots, as many as that. The only error is an allocation
    /// failure.
    pub fn new(alloc: Global, ports: &[u16], available: usize) -> Result<PortList, AllocError>
        ensures { IfOk result (λ list. shown list
            ≡ record { ports = ports.now; available = available }) }
    {
        let ports = ports.to_vec(alloc)?;
        Ok(PortList { ports, available })
    }

    /// Whether a port is one of them.
    pub(crate) fn has(&self, port: u16) -> bool
        ensures { result ≡ has_port port self.now }
    {
        self.ports.iter().any(|own| *own == port)
    }

    /// Whether requests get a port as their slot.
    pub(crate) fn has_slot(&self, port: u16) -> bool
        ensures { result ≡ has_slot port self.now }
    {
        self.place_of(port) < self.available
    }

    /// How many endpoints are available.
    pub(crate) fn available(&self) -> usize
        ensures { result ≡ self.now.available }
    {
        self.available
    }

    /// The ports in order.
    pub(crate) fn get(&self) -> &[u16]
        ensures { result.now ≡ self.now.ports.items }
    {
        self.ports.as_slice()
    }

    /// The ports before a port; all if it is none of them.
    pub(crate) fn ports_before(&self, port: u16) -> &[u16]
        ensures { result.now ≡ take (place_of port self.now.ports.items) self.now.ports.items }
    {
        let place = self.place_of(port);
        &self.get()[..place]
    }

    /// The ports from a port on; none if it is none of them.
    pub(crate) fn ports_from(&self, port: u16) -> &[u16]
        ensures { result.now ≡ drop (place_of port self.now.ports.items) self.now.ports.items }
    {
        let place = self.place_of(port);
        &self.get()[place..]
    }

    /// The place of a port; the number of ports if it is none of them.
    fn place_of(&self, port: u16) -> usize
        ensures place { result ≡ place_of port self.now.ports.items }
        ensures within { result ≤ length self.now.ports.items }
    {
        place_in(self.get(), port).unwrap_or(self.get().len())
    }
}

fn place_in(ports: &[u16], port: u16) -> Option<usize>
    ensures place { result ≡ position (λ p. p == port) ports.now }
    ensures within { IfSome result (λ place. place < length ports.now) }
{
    ports.iter().position(|other| *other == port)
}

/// A list of ports for each revision.
#[derive(Debug, Drop)]
pub struct PortLists {
    lists: Vec<PortList>,
}

impl PortLists {
    /// No list.
    pub fn new(alloc: Global) -> PortLists
        ensures { listed result ≡ [] }
    {
        PortLists {
            lists: Vec::new(alloc),
        }
    }

    /// Adds the list of a revision. If an allocation fails, the lists stay as they were.
    pub fn add(&mut self, list: PortList) -> Result<(), AllocError>
        ensures added { OnOk result (listed self.new ≡ listed self.old ++ list ∷ []) }
        ensures kept { OnErr result (listed self.new ≡ listed self.old) }
    {
        self.lists.push(list)?;
        Ok(())
    }

    /// The first list that has a port, if no other list has it.
    pub(crate) fn only_list(&self, port: u16) -> Option<&PortList>
        ensures { option_copied result ≡ only_list port (listed self.now) }
    {
        if !self.is_in_one_list(port) {
            return None;
        }
        self.first_list(port)
    }

    /// The first list that has a port.
    fn first_list(&self, port: u16) -> Option<&PortList>
        ensures { option_copied result ≡ find (λ l. has_port port l) (listed self.now) }
    {
        self.lists.iter().find(|list| list.has(port))
    }

    /// Whether a list has a port.
    pub(crate) fn has(&self, port: u16) -> bool {
        self.lists.iter().any(|list| list.has(port))
    }

    /// Whether exactly one list has a port.
    pub(crate) fn is_in_one_list(&self, port: u16) -> bool
        ensures { result ≡ is_in_one_list port (listed self.now) }
    {
        self.lists.iter().filter(|list| list.has(port)).count() == 1
    }
}

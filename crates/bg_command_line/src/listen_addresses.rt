//! The addresses at which the client ports listen.
ghost use Rattle.std.specs.Prelude.{◌≡◌, ◌<◌, ◌↔◌, ◌++◌, ◌∷◌, [], All, IfOk, IfErr, IsTrue, MatchOption, map};
ghost use Rattle.bg_command_line.specs.ListenAddresses.{AreInConflict, AreListenAddresses, AreOfOneFamily, IsConflictOf, IsConflictWith, IsFaultAt, IsFirstFault, IsNextAddress, IsReasonAt, listed};

use crate::addresses::address_in;
use std::fmt;
use std::net::{IpAddr, Ipv4Addr};

/// The most addresses at which the client ports listen.
const MOST_LISTEN_ADDRESSES: usize = 8;

/// The addresses at which the client ports listen, in the order of the words: 1 to 8, of which no two are the same, and none
/// is of the family of another one that is the wildcard, 0.0.0.0 or `::`. None is an IPv4-mapped IPv6 address.
#[derive(Clone, Copy, Debug, Drop, PartialEq, Eq)]
pub struct ListenAddresses {
    items: [IpAddr; MOST_LISTEN_ADDRESSES],
    /// How many of the items are listed, from the first on.
    count: usize,
}

impl ListenAddresses {
    /// No addresses.
    fn none() -> ListenAddresses
        ensures { listed result ≡ [] }
    {
        ListenAddresses {
            items: [IpAddr::V4(Ipv4Addr::LOCALHOST); MOST_LISTEN_ADDRESSES],
            count: 0,
        }
    }

    /// The addresses, in order.
    pub fn as_slice(&self) -> &[IpAddr]
        ensures { result.now ≡ listed self.now }
    {
        let count = self.count.min(MOST_LISTEN_ADDRESSES);
        &self.items[..count]
    }

    /// The same with one more address, at the end.
    fn with(self, address: IpAddr) -> ListenAddresses
        requires { self.count < 8 }
        ensures { listed result ≡ listed self ++ address ∷ [] }
    {
        let mut items = self.items;
        items[self.count] = address;
        ListenAddresses {
            items,
            count: self.count + 1,
        }
    }
}

/// Why an address is refused.
#[derive(Clone, Copy, Drop)]
pub(crate) enum ListenReason {
    /// The text writes no IPv4 and no IPv6 address.
    NoAddress,
    /// The address stands before, too.
    Twice,
    /// The address is this wildcard or of its family, and so is one before, where one of the two is the wildcard.
    BesideWildcard(IpAddr),
    /// Eight addresses stand before.
    TooMany,
}

/// The text of an address that is refused, and why it is.
#[derive(Clone, Copy, Drop)]
pub(crate) struct ListenFault<'a> {
    pub(crate) text: &'a str,
    pub(crate) reason: ListenReason,
}

impl fmt::Display for ListenFault<'_> {
    fn fmt<W: fmt::Write>(&self, f: &mut fmt::Formatter<W>) -> fmt::Result {
        let text = self.text;
        write!(f, "invalid value '{text}' for '--listen <ADDRESS>': ")?;
        match &self.reason {
            ListenReason::NoAddress => write!(f, "it is no IPv4 or IPv6 address"),
            ListenReason::Twice => write!(f, "the address is given twice"),
            ListenReason::BesideWildcard(wildcard) => write!(
                f,
                "no other address of its family can stand beside {wildcard}"
            ),
            ListenReason::TooMany => write!(f, "at most 8 addresses can be given"),
        }
    }
}

/// The addresses that these texts write, in their order, or 127.0.0.1 if there are no texts. The error is that of the first text
/// whose address is refused.
pub(crate) fn listen_addresses_in<'a>(texts: &[&'a str]) -> Result<ListenAddresses, ListenFault<'a>>
    ensures addresses { IfOk result (λ addresses. AreListenAddresses (map (λ t. t.now) texts.now) (listed addresses)) }
    ensures fault { IfErr result (IsFirstFault (map (λ t. t.now) texts.now)) }
{
    let mut addresses = ListenAddresses::none();
    if texts.is_empty() {
        return Ok(addresses.with(IpAddr::V4(Ipv4Addr::LOCALHOST)));
    }
    for text in texts {
        addresses = with_next(addresses, text)?;
    }
    Ok(addresses)
}

/// The addresses and that of one more text.
fn with_next<'a>(
    addresses: ListenAddresses,
    text: &'a str,
) -> Result<ListenAddresses, ListenFault<'a>>
    ensures more { IfOk result (λ more. (next : _) × IsNextAddress (listed addresses) text.entry.now next
        × (listed more ≡ listed addresses ++ next ∷ [])) }
    ensures fault { IfErr result (IsFaultAt (listed addresses) text.entry.now) }
{
    match next_address(&addresses, text) {
        Ok(address) => Ok(addresses.with(address)),
        Err(reason) => Err(ListenFault { text, reason }),
    }
}

/// The address that a text writes, if it may stand after these addresses.
fn next_address(addresses: &ListenAddresses, text: &str) -> Result<IpAddr, ListenReason>
    ensures address { IfOk result (λ next. IsNextAddress (listed addresses.now) text.now next × (addresses.now.count < 8)) }
    ensures reason { IfErr result (IsReasonAt (listed addresses.now) text.now) }
{
    if addresses.count >= MOST_LISTEN_ADDRESSES {
        return Err(ListenReason::TooMany);
    }
    let Some(address) = address_in(text) else {
        return Err(ListenReason::NoAddress);
    };
    match conflict_with(addresses.as_slice(), address) {
        Some(reason) => Err(reason),
        None => Ok(address),
    }
}

/// Why an address cannot stand after these, as far as that is due to them; `None` if it can.
fn conflict_with(before: &[IpAddr], address: IpAddr) -> Option<ListenReason>
    ensures { MatchOption result (All (λ other. AreInConflict other address → ⊥) before.now)
        (IsConflictWith before.now address) }
{
    for other in before {
        if let Some(reason) = conflict_of(*other, address) {
            return Some(reason);
        }
    }
    None
}

/// Why an address cannot stand after another one; `None` if it can.
fn conflict_of(other: IpAddr, address: IpAddr) -> Option<ListenReason>
    ensures { MatchOption result (AreInConflict other address → ⊥) (IsConflictOf other address) }
{
    if other == address {
        Some(ListenReason::Twice)
    } else if !are_of_one_family(other, address) {
        None
    } else if other.is_unspecified() {
        Some(ListenReason::BesideWildcard(other))
    } else if address.is_unspecified() {
        Some(ListenReason::BesideWildcard(address))
    } else {
        None
    }
}

/// Whether two addresses are of one family: both are IPv4 addresses, or both are IPv6 addresses.
pub fn are_of_one_family(one: IpAddr, other: IpAddr) -> bool
    ensures { IsTrue result ↔ AreOfOneFamily one other }
{
    match (one, other) {
        (IpAddr::V4(_), IpAddr::V4(_)) | (IpAddr::V6(_), IpAddr::V6(_)) => true,
        (IpAddr::V4(_), IpAddr::V6(_)) | (IpAddr::V6(_), IpAddr::V4(_)) => false,
    }
}

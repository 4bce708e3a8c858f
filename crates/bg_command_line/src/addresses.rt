//! The addresses among the words.
ghost use Rattle.std.specs.Prelude.{◌≡◌, IfOk, IfErr, MatchOption};
ghost use Rattle.clap.specs.Words.{found_of, rows_of};
ghost use Rattle.bg_command_line.specs.Addresses.{HasBadEndpointAddress, HasNoAddress, IsAddressText, IsDestination, IsEndpointAddress, IsEndpointFault, IsFaultOf};

use crate::arguments::argument_text;
use clap::ArgMatches;
use std::fmt;
use std::net::{IpAddr, Ipv4Addr};

/// Why a text is no address of endpoints.
#[derive(Clone, Copy, Drop)]
pub(crate) enum AddressFault<'a> {
    /// It writes no IPv4 and no IPv6 address.
    NoAddress(&'a str),
    /// It writes an address to which no connection can be opened: 0.0.0.0 or `::`.
    NoDestination(&'a str),
}

impl fmt::Display for AddressFault<'_> {
    fn fmt<W: fmt::Write>(&self, f: &mut fmt::Formatter<W>) -> fmt::Result {
        match self {
            AddressFault::NoAddress(text) => write!(
                f,
                "invalid value '{text}' for '--endpoint-address <ADDRESS>': it is no IPv4 or IPv6 address"
            ),
            AddressFault::NoDestination(text) => write!(
                f,
                "invalid value '{text}' for '--endpoint-address <ADDRESS>': no connection can be opened to it"
            ),
        }
    }
}

/// The address of the endpoints: that of `--endpoint-address`, or 127.0.0.1.
pub(crate) fn endpoint_address_of<'a>(matches: &ArgMatches<'a>) -> Result<IpAddr, AddressFault<'a>>
    ensures address { IfOk result (IsEndpointAddress (rows_of (found_of matches.now))) }
    ensures fault { IfErr result (λ _. HasBadEndpointAddress (rows_of (found_of matches.now))) }
    ensures why { IfErr result (IsEndpointFault (rows_of (found_of matches.now))) }
{
    match argument_text(matches, "endpoint-address") {
        Some(text) => destination_in(text),
        None => Ok(IpAddr::V4(Ipv4Addr::LOCALHOST)),
    }
}

/// The address that a text writes, if connections can be opened to it.
fn destination_in<'a>(text: &'a str) -> Result<IpAddr, AddressFault<'a>>
    ensures address { IfOk result (IsDestination text.entry.now) }
    ensures fault { IfErr result (IsFaultOf text.entry.now) }
{
    match address_in(text) {
        Some(address) if address.is_unspecified() => Err(AddressFault::NoDestination(text)),
        Some(address) => Ok(address),
        None => Err(AddressFault::NoAddress(text)),
    }
}

/// The address that a text writes. An IPv6 address that is IPv4-mapped stands for the IPv4 address in it.
pub(crate) fn address_in(text: &str) -> Option<IpAddr>
    ensures { MatchOption result (HasNoAddress text.now) (IsAddressText text.now) }
{
    match text.parse::<IpAddr>() {
        Ok(written) => Some(written.to_canonical()),
        Err(_) => None,
    }
}

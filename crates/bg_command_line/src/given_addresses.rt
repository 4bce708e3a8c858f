//! The addresses that the arguments of `serve` give.
ghost use Rattle.std.specs.Prelude.{IfOk, IfErr};
ghost use Rattle.clap.specs.Words.{found_of, rows_of};
ghost use Rattle.bg_command_line.specs.Addresses.{IsEndpointAddress};
ghost use Rattle.bg_command_line.specs.GivenAddresses.{HasBadAddress, IsBadAddress};
ghost use Rattle.bg_command_line.specs.ListenAddresses.{AreListenAddresses, IsFirstFault, listed, listen_texts};

use crate::addresses::{AddressFault, endpoint_address_of};
use crate::arguments::argument_texts;
use crate::listen_addresses::{ListenAddresses, ListenFault, listen_addresses_in};
use clap::ArgMatches;
use std::fmt;
use std::net::IpAddr;

/// The addresses that the arguments give.
#[derive(Clone, Copy, Drop)]
pub(crate) struct GivenAddresses {
    /// That of the endpoints.
    pub(crate) endpoint: IpAddr,
    /// Those at which the client ports listen.
    pub(crate) listen: ListenAddresses,
}

/// An address among the arguments that is refused.
#[derive(Clone, Copy, Drop)]
pub(crate) enum BadAddress<'a> {
    /// That of `--endpoint-address`.
    Endpoint(AddressFault<'a>),
    /// One of `--listen`.
    Listen(ListenFault<'a>),
}

impl fmt::Display for BadAddress<'_> {
    fn fmt<W: fmt::Write>(&self, f: &mut fmt::Formatter<W>) -> fmt::Result {
        match self {
            BadAddress::Endpoint(fault) => write!(f, "{fault}"),
            BadAddress::Listen(fault) => write!(f, "{fault}"),
        }
    }
}

/// The addresses that the arguments give. The error is the one of the endpoints, if that is refused, or else the first one of
/// those at which the client ports listen that is.
pub(crate) fn addresses_of<'a>(matches: &ArgMatches<'a>) -> Result<GivenAddresses, BadAddress<'a>>
    ensures endpoint { IfOk result (λ given. IsEndpointAddress (rows_of (found_of matches.now)) given.endpoint) }
    ensures listen { IfOk result (λ given. AreListenAddresses (listen_texts (rows_of (found_of matches.now))) (listed given.listen)) }
    ensures fault { IfErr result (λ _. HasBadAddress (rows_of (found_of matches.now))) }
    ensures why { IfErr result (IsBadAddress (rows_of (found_of matches.now))) }
{
    match endpoint_address_of(matches) {
        Ok(endpoint) => match listen_addresses_of(matches) {
            Ok(listen) => Ok(GivenAddresses { endpoint, listen }),
            Err(fault) => Err(BadAddress::Listen(fault)),
        },
        Err(fault) => Err(BadAddress::Endpoint(fault)),
    }
}

/// The addresses at which the client ports listen: those of `--listen`, or 127.0.0.1.
fn listen_addresses_of<'a>(matches: &ArgMatches<'a>) -> Result<ListenAddresses, ListenFault<'a>>
    ensures addresses { IfOk result (λ listen. AreListenAddresses (listen_texts (rows_of (found_of matches.now))) (listed listen)) }
    ensures fault { IfErr result (IsFirstFault (listen_texts (rows_of (found_of matches.now)))) }
{
    match argument_texts(matches, "listen") {
        Some(texts) => listen_addresses_in(texts),
        None => listen_addresses_in(&[]),
    }
}

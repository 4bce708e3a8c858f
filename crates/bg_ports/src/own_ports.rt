//! The ports of the switch at the address of the endpoints.
ghost use Rattle.std.specs.Prelude.{◌↔◌, Any, IsTrue};
ghost use Rattle.bg_command_line.specs.Addresses.{IsLocalhost};
ghost use Rattle.bg_ports.specs.OwnPorts.{AreOwnPorts, IsThereIf, Takes};

use bg_command_line::{ServeSettings, are_of_one_family};
use bg_endpoints::OwnPorts;
use std::net::{IpAddr, Ipv4Addr};

/// The ports at which the switch itself listens at the address of the endpoints, where `is_here` says whether that is an address
/// of this machine. The client ports are there if they listen at that address, or at all addresses of its family and it is one of
/// this machine; the control port is there if it is 127.0.0.1.
pub(crate) fn own_ports(settings: &ServeSettings, is_here: bool) -> OwnPorts
    ensures { AreOwnPorts settings.now is_here result }
{
    let address = settings.endpoint_address;
    let takes_clients = is_taken(settings.listen.as_slice(), address, is_here);
    OwnPorts {
        active: port_if(takes_clients, Some(settings.active)),
        preview: port_if(takes_clients, settings.preview),
        control: port_if(is_localhost(address), settings.control),
    }
}

/// The port, if the switch listens there.
fn port_if(is_there: bool, port: Option<u16>) -> Option<u16>
    ensures { IsThereIf (IsTrue is_there) port result }
{
    if is_there { port } else { None }
}

/// Whether one of the listeners at these addresses takes the connections to another one.
fn is_taken(listeners: &[IpAddr], address: IpAddr, is_here: bool) -> bool
    ensures { IsTrue result ↔ Any (λ own. Takes own address is_here) listeners.now }
{
    for own in listeners {
        if takes(*own, address, is_here) {
            return true;
        }
    }
    false
}

/// Whether a listener at an address takes the connections to another one: it is the same, or it is the wildcard of its family and
/// the other one is of this machine.
fn takes(own: IpAddr, address: IpAddr, is_here: bool) -> bool
    ensures { IsTrue result ↔ Takes own address is_here }
{
    own == address || is_here && own.is_unspecified() && are_of_one_family(own, address)
}

fn is_localhost(address: IpAddr) -> bool
    ensures { IsTrue result ↔ IsLocalhost address }
{
    address == IpAddr::V4(Ipv4Addr::LOCALHOST)
}

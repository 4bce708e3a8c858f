//! Listeners at addresses of this machine, and at others.

use crate::{is_of_this_machine, listen_at};
use std::net::{IpAddr, Ipv4Addr, Ipv6Addr};

/// An address of a network for documentation (RFC 5737), which no machine has.
fn elsewhere() -> IpAddr {
    IpAddr::V4(Ipv4Addr::new(192, 0, 2, 1))
}

#[test]
fn addresses_of_this_machine(rt: HostRuntime) {
    let next = IpAddr::V4(Ipv4Addr::new(127, 0, 0, 2));
    assert!(rt; is_of_this_machine(IpAddr::V4(Ipv4Addr::LOCALHOST)) && is_of_this_machine(next));
    assert!(rt; !is_of_this_machine(elsewhere()));
}

#[test]
fn listeners_at_both_wildcards_have_the_same_port(rt: HostRuntime) {
    let all = IpAddr::V4(Ipv4Addr::UNSPECIFIED);
    let Ok(first) = listen_at(all, 0) else {
        panic!(rt; "no listener at 0.0.0.0");
    };
    let Ok(address) = first.local_addr() else {
        panic!(rt; "no address");
    };
    let again = listen_at(all, address.port());
    assert!(rt; again.is_err());
    // a machine without IPv6 has no `::`
    if is_of_this_machine(IpAddr::V6(Ipv6Addr::LOCALHOST)) {
        let second = listen_at(IpAddr::V6(Ipv6Addr::UNSPECIFIED), address.port());
        assert!(rt; second.is_ok());
    }
}

#[test]
fn no_listener_elsewhere(rt: HostRuntime) {
    assert!(rt; listen_at(elsewhere(), 0).is_err());
}

//! A port with two listeners, at two addresses.

use crate::accept::Accepted;
use crate::loop_port::{LoopPort, LoopPortSettings};
use bg_sockets::listen_at;
use std::net::{IpAddr, Ipv4Addr, SocketAddr, TcpListener, TcpStream};

const SETTINGS: LoopPortSettings = LoopPortSettings {
    loops: 1,
    concurrency: 1,
    connections: None,
};

/// A port, and where its two listeners are.
#[derive(Drop)]
struct PortAtTwo {
    port: LoopPort,
    first: SocketAddr,
    second: SocketAddr,
}

/// A port with a listener at each of the addresses.
fn port_at_two(rt: &HostRuntime) -> Option<PortAtTwo> {
    let one = listen_at(IpAddr::V4(Ipv4Addr::LOCALHOST), 0).ok()?;
    let other = listen_at(IpAddr::V4(Ipv4Addr::new(127, 0, 0, 2)), 0).ok()?;
    let first = one.local_addr().ok()?;
    let second = other.local_addr().ok()?;
    let mut listeners: Vec<TcpListener> = Vec::new(rt.alloc());
    listeners.push(one).ok()?;
    listeners.push(other).ok()?;
    let port = LoopPort::new(rt, rt.alloc(), listeners, SETTINGS).ok()?;
    Some(PortAtTwo {
        port,
        first,
        second,
    })
}

fn has_accepted(port: &LoopPort, listener: usize) -> bool {
    matches!(port.accept(listener), Accepted::Stream(_))
}

#[test]
fn a_client_is_accepted_at_its_listener(rt: HostRuntime) {
    let Some(at_two) = port_at_two(&rt) else {
        panic!(rt; "no port");
    };
    let port = &at_two.port;
    assert!(rt; port.listeners() == 2);
    assert!(rt; port.descriptor(1).is_some() && port.descriptor(2).is_none());
    let other = TcpStream::connect(&rt, at_two.second);
    assert!(rt; other.is_ok());
    let at_second = [
        has_accepted(port, 0),
        has_accepted(port, 1),
        has_accepted(port, 2),
    ];
    assert_eq!(rt; at_second, [false, true, false]);
    let one = TcpStream::connect(&rt, at_two.first);
    assert!(rt; one.is_ok());
    let at_first = [has_accepted(port, 1), has_accepted(port, 0)];
    assert_eq!(rt; at_first, [false, true]);
}

#[test]
fn a_backlog_is_left_until_both_listeners_are_found_without_a_client(rt: HostRuntime) {
    let Some(at_two) = port_at_two(&rt) else {
        panic!(rt; "no port");
    };
    let port = &at_two.port;
    assert!(rt; !port.is_backlog_left());
    port.leave_backlog();
    let at_first = has_accepted(port, 0);
    assert!(rt; !at_first && port.is_backlog_left());
    let at_second = has_accepted(port, 1);
    assert!(rt; !at_second && !port.is_backlog_left());
}

#[test]
fn both_listeners_are_closed(rt: HostRuntime) {
    let Some(at_two) = port_at_two(&rt) else {
        panic!(rt; "no port");
    };
    at_two.port.close();
    let is_refused = [
        TcpStream::connect(&rt, at_two.first).is_err(),
        TcpStream::connect(&rt, at_two.second).is_err(),
    ];
    assert_eq!(rt; is_refused, [true, true]);
    assert!(rt; at_two.port.is_closed());
}

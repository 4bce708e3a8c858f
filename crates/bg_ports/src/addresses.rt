//! The addresses at which `serve` listens, and the listeners there.
ghost use Rattle.std.specs.Prelude.{◌≡◌, IfOk, length, vec_len};

use crate::bind_fault::{BindFault, Place, Reason};
use crate::ports::service_name;
use crate::socket_mode::mode_bits;
use bg_command_line::{ControlSocket, ListenAddresses, ServeSettings};
use bg_control_port::{ControlListeners, SocketFile, SocketSettings};
use bg_peers::group_number;
use bg_revisions::Service;
use bg_sockets::listen_at;
use std::alloc::Global;
use std::io;
use std::net::{IpAddr, Ipv4Addr, Net, TcpListener};
use std::os::unix::net::UnixListener;
use std::rt::Files;

/// The word of the command line that gives the control port.
const CONTROL: &str = "control";

/// The address of the control port.
const LOCALHOST: IpAddr = IpAddr::V4(Ipv4Addr::LOCALHOST);

/// The addresses of the ports, and the control socket. There is a control port, or a control socket, or both.
#[derive(Drop)]
pub struct Addresses<'a> {
    pub active: Address,
    pub preview: Option<Address>,
    /// The addresses at which these two are bound.
    listen: ListenAddresses,
    control: Option<Address>,
    socket: Option<ControlSocket<'a>>,
}

/// The listeners at the addresses.
#[derive(Drop)]
pub struct Listeners {
    /// Those of the active port, one at each address.
    pub active: Vec<TcpListener>,
    /// Those of the preview port, if there is one.
    pub preview: Option<Vec<TcpListener>>,
    pub control: ControlListeners,
    /// The file of the control socket, if there is one.
    pub socket_file: Option<SocketFile>,
}

impl<'a> Addresses<'a> {
    /// The addresses that the words of the command line give.
    pub fn of(settings: &ServeSettings<'a>) -> Addresses<'a> {
        let first = first_of(settings.listen.as_slice());
        Addresses {
            active: Address::new(service_name(Service::Active), settings.active, first),
            preview: settings.preview.map(|port| Address::new(
                service_name(Service::Preview),
                port,
                first,
            )),
            listen: settings.listen,
            control: settings
                .control
                .map(|port| Address::new(CONTROL, port, LOCALHOST)),
            socket: settings.control_socket,
        }
    }

    /// Binds the active port at each address, in their order, then so the preview port, then the control port, and then the
    /// control socket.
    pub fn listen<R: Files + Net>(
        &self,
        rt: &R,
        alloc: Global,
    ) -> Result<Listeners, BindFault<'a>> {
        let active = self.active.listen_at_each(alloc, self.listen.as_slice())?;
        let preview = match &self.preview {
            Some(preview) => Some(preview.listen_at_each(alloc, self.listen.as_slice())?),
            None => None,
        };
        let port = match &self.control {
            Some(control) => Some(control.listen()?),
            None => None,
        };
        let (socket, socket_file) = match self.socket {
            Some(socket) => {
                let (listener, file) = listen_at_socket(rt, alloc, socket)?;
                (Some(listener), Some(file))
            }
            None => (None, None),
        };
        Ok(Listeners {
            active,
            preview,
            control: ControlListeners { port, socket },
            socket_file,
        })
    }
}

/// The control port, or the control socket if there is no control port.
pub fn control_place<'a>(settings: &ServeSettings<'a>) -> Place<'a> {
    match settings.control {
        Some(port) => Place::Port {
            word: CONTROL,
            port,
            address: LOCALHOST,
        },
        None => Place::Socket(socket_path(settings)),
    }
}

/// The path of the control socket; empty if there is none.
fn socket_path<'a>(settings: &ServeSettings<'a>) -> &'a str {
    match settings.control_socket {
        Some(socket) => socket.path,
        None => "",
    }
}

/// The first of these addresses.
fn first_of(addresses: &[IpAddr]) -> IpAddr {
    match addresses.first() {
        Some(first) => *first,
        None => LOCALHOST,
    }
}

/// The address at which a port is bound.
#[derive(Clone, Copy, Drop)]
pub struct Address {
    /// The word of the command line that gives the port.
    word: &'static str,
    port: u16,
    /// The first one, if the port is bound at several.
    address: IpAddr,
}

impl Address {
    fn new(word: &'static str, port: u16, address: IpAddr) -> Address {
        Address {
            word,
            port,
            address,
        }
    }

    fn listen<'a>(&self) -> Result<TcpListener, BindFault<'a>> {
        self.or_fault(listen_at(self.address, self.port))
    }

    /// Listens at the port of each of these addresses, in their order.
    fn listen_at_each<'a>(
        &self,
        alloc: Global,
        addresses: &[IpAddr],
    ) -> Result<Vec<TcpListener>, BindFault<'a>>
        ensures { IfOk result (λ listeners. vec_len listeners ≡ length addresses.now) }
    {
        let mut listeners = Vec::new(alloc);
        for address in addresses {
            let one = Address {
                address: *address,
                ..*self
            };
            let listener = one.listen()?;
            match listeners.push(listener) {
                Ok(()) => {}
                Err(refused) => return Err(one.fault(io::Error::from(refused))),
            }
        }
        Ok(listeners)
    }

    /// The outcome, with an error that says which port cannot be bound.
    pub fn or_fault<'a, T>(&self, outcome: io::Result<T>) -> Result<T, BindFault<'a>> {
        self.place().or_fault(outcome)
    }

    /// That the port cannot be bound, for this reason.
    fn fault<'a>(&self, reason: io::Error) -> BindFault<'a> {
        self.place().fault(Reason::System(reason))
    }

    fn place<'a>(&self) -> Place<'a> {
        Place::Port {
            word: self.word,
            port: self.port,
            address: self.address,
        }
    }
}

/// Listens at the control socket.
fn listen_at_socket<'a, R: Files + Net>(
    rt: &R,
    alloc: Global,
    socket: ControlSocket<'a>,
) -> Result<(UnixListener, SocketFile), BindFault<'a>> {
    let place = Place::Socket(socket.path);
    let Some(mode) = mode_bits(socket.mode) else {
        return Err(place.fault(Reason::NoMode(socket.mode)));
    };
    let group = match socket.group {
        Some(name) => Some(group_named(alloc, place, name)?),
        None => None,
    };
    let settings = SocketSettings {
        path: socket.path,
        mode,
        group,
    };
    match SocketFile::listen(rt, alloc, &settings) {
        Ok(made) => Ok(made),
        Err(reason) => Err(place.fault(Reason::Socket(reason))),
    }
}

/// The number of the group of the control socket.
fn group_named<'a>(alloc: Global, place: Place<'a>, name: &'a str) -> Result<u32, BindFault<'a>> {
    match group_number(alloc, name) {
        Ok(Some(number)) => Ok(number),
        Ok(None) => Err(place.fault(Reason::NoGroup(name))),
        Err(refused) => Err(place.fault(Reason::System(io::Error::from(refused)))),
    }
}

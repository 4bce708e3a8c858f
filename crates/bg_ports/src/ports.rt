//! The ports at which `serve` listens.
ghost use Rattle.std.specs.Prelude.{◌≡◌};
ghost use Rattle.bg_ports.specs.ServiceNames.{name_of_service};

use crate::addresses::{Address, Addresses, control_place};
use crate::bind_fault::BindFault;
use crate::event_loops::EventLoops;
use crate::own_ports::own_ports;
use bg_command_line::{Connections, ServeSettings};
use bg_control_port::{ControlPort, SocketFile};
use bg_endpoints::OwnPorts;
use bg_loop_port::{LoopPort, LoopPortSettings};
use bg_operator::Line;
use bg_peers::Users;
use bg_revisions::Service;
use bg_sockets::is_of_this_machine;
use std::alloc::Global;
use std::net::{Net, TcpListener};
use std::rt::Files;
use std::time::Clock;

/// The client ports at the addresses of the settings, the control port at 127.0.0.1, and the control socket.
#[derive(Drop)]
pub struct Ports {
    active: LoopPort,
    preview: Option<LoopPort>,
    /// The port and the socket at which operators connect.
    pub control: ControlPort<Line>,
    /// The file of the control socket, if there is one.
    socket_file: Option<SocketFile>,
    /// Those of the ports that are at the address of the endpoints.
    pub own: OwnPorts,
}

impl Ports {
    /// Listens at the ports of the settings, which are bound in the order active, preview, control, and then at the control
    /// socket. The active port is bound at each address of the settings, in their order, and so is the preview port. The control
    /// port serves the connections of `operators`; `None` stands for all users. The error names the first
    /// port that cannot be bound, with its address, or the socket. If all are bound, it names the first one for which another system call or an
    /// allocation fails.
    pub fn bind<'a, R>(
        rt: &R,
        alloc: Global,
        settings: &ServeSettings<'a>,
        loops: EventLoops,
        operators: Option<Users>,
    ) -> Result<Ports, BindFault<'a>>
    where
        R: Files + Net + Clock,
    {
        let addresses = Addresses::of(settings);
        let listeners = addresses.listen(rt, alloc)?;
        let of_active = port_settings(settings.workers, loops.active, settings.connections);
        let active = client_port(rt, alloc, &addresses.active, listeners.active, of_active)?;
        let of_preview = port_settings(
            settings.preview_workers,
            loops.preview,
            settings.connections,
        );
        let preview = match (&addresses.preview, listeners.preview) {
            (Some(address), Some(listeners)) => {
                Some(client_port(rt, alloc, address, listeners, of_preview)?)
            }
            _ => None,
        };
        let control = ControlPort::new(rt, alloc, listeners.control, operators);
        let control = control_place(settings).or_fault(control)?;
        Ok(Ports {
            active,
            preview,
            control,
            socket_file: listeners.socket_file,
            own: own_ports(settings, is_of_this_machine(settings.endpoint_address)),
        })
    }

    /// Begins a graceful shutdown of the client ports.
    pub fn close_client_ports(&self) {
        self.active.shut_down();
        if let Some(preview) = &self.preview {
            preview.shut_down();
        }
    }

    /// Removes the file of the control socket, if there is one.
    pub fn remove_socket_file<R: Files>(&self, rt: &R) {
        if let Some(file) = &self.socket_file {
            file.remove(rt);
        }
    }

    /// The port of a service, if it has one.
    pub fn of(&self, service: Service) -> Option<&LoopPort> {
        match service {
            Service::Active => Some(&self.active),
            Service::Preview => self.preview.as_ref(),
        }
    }
}

/// The name of a service, which is also the word of the command line that gives its port.
pub fn service_name(service: Service) -> &'static str
    ensures { result.now ≡ name_of_service service }
{
    match service {
        Service::Active => "active",
        Service::Preview => "preview",
    }
}

/// The settings of a client port that forwards so many requests at a time by so many event loops, and takes so many connections
/// for each of these requests.
fn port_settings(requests: u16, loops: u32, connections: Connections) -> LoopPortSettings {
    let requests = u64::from(requests);
    LoopPortSettings {
        loops: loops as usize,
        concurrency: requests,
        connections: match connections {
            Connections::Count(count) => Some(u64::from(count).saturating_mul(requests)),
            Connections::Forever => None,
        },
    }
}

/// The client port with these listeners.
fn client_port<'a, R: Clock>(
    rt: &R,
    alloc: Global,
    address: &Address,
    listeners: Vec<TcpListener>,
    settings: LoopPortSettings,
) -> Result<LoopPort, BindFault<'a>> {
    address.or_fault(LoopPort::new(rt, alloc, listeners, settings))
}

/// The number of requests that the preview port forwards at a time; 0 if there is no such port.
pub fn preview_workers(settings: &ServeSettings) -> u32 {
    match settings.preview {
        Some(_) => u32::from(settings.preview_workers),
        None => 0,
    }
}

//! The ports of the switch itself among those that requests are dialled at.
ghost use Rattle.std.specs.Prelude.{◌≡◌};
ghost use Rattle.bg_endpoints.specs.OwnPorts.{is_own};

/// The ports at which the switch itself listens at the address of the endpoints. A request to one of them would come back to
/// the switch.
#[derive(Clone, Copy, Debug, Drop, PartialEq, Eq)]
pub struct OwnPorts {
    /// The port of the active service, if it listens there.
    pub active: Option<u16>,
    /// The port of the preview service, if there is one and it listens there.
    pub preview: Option<u16>,
    /// The control port, if there is one and it listens there.
    pub control: Option<u16>,
}

impl OwnPorts {
    /// Whether a port is one of the switch's own.
    pub fn is_own(&self, port: u16) -> bool
        ensures { result ≡ is_own self.now port }
    {
        self.active == Some(port) || self.control == Some(port) || self.preview == Some(port)
    }
}

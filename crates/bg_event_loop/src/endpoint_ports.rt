//! The ports at which requests are dialled.
ghost use Rattle.std.specs.Prelude.{◌≡◌, ◌≢◌, ℕ, [], Bool, List, true, IfNone, IfSome};
ghost use Rattle.bg_endpoints.specs.Choices.{is_new};

use bg_endpoint_side::Health;

/// The ports at which requests are dialled. All loops share them.
///
/// No method takes a handle. Ports that wait for a lock have their own handle, so that their callers see no lock.
pub trait EndpointPorts {
    /// The relation between the port of a request's ticket, the ports that were dialled for the request, and the port that
    /// is dialled next.
    ghost follows: { Self → ℕ → List ℕ → ℕ → Type 0 };

    /// Whether a port is one of the switch itself.
    ghost own: { Self → ℕ → Bool };

    /// The relation between a port and whether a revision that is not scaled down has it.
    ghost lives: { Self → ℕ → Bool → Type 0 };

    /// Chooses the port that is dialled next for a ticket's port, after those that were tried, and counts a request there.
    /// `None` if no port is left; one is left if none was tried.
    fn choose(&self, ticket: u16, tried: &[u16]) -> Option<u16>
        ensures follows { IfSome result (λ port. follows self.now ticket tried.now port) }
        ensures once { IfSome result (λ port. is_new port tried.now ≡ true) }
        ensures left { IfNone result (tried.now ≢ []) };

    /// Counts a request less at a port, and keeps how the port took it.
    fn leave(&self, port: u16, health: Health);

    /// Whether a port is one of the switch itself. It is not dialled: the request would come back to the switch.
    fn is_own(&self, port: u16) -> bool
        ensures { result ≡ own self.now port };

    /// Whether a revision that is not scaled down has a port. An idle connection to any other port is closed.
    fn is_live(&self, port: u16) -> bool
        ensures { lives self.now port result };
}

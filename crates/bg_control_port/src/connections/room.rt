//! Which connections are closed.
ghost use Rattle.std.specs.Prelude.{◌≡◌, if◌then◌else◌};
ghost use Rattle.bg_control_port.specs.Bounds.{is_given_up_in};
ghost use Rattle.bg_control_port.specs.Registers.{at, without};
ghost use Rattle.bg_control_port.specs.Turns.{is_long};

use super::Connections;
use crate::bounds::has_passed;
use crate::turn::Place;

/// The number of milliseconds of silence after which a connection may be closed because an accept failed.
const LONGEST_SILENCE: u64 = 2_000;

/// Whether a connection with this silence may be closed because an accept failed: it has no whole line, and has been silent
/// for two seconds.
pub fn is_long(silence: Place, now: u64) -> bool
    ensures { result ≡ is_long silence now }
{
    silence.is_ahead && has_passed(LONGEST_SILENCE, silence.number, now)
}

impl<L: Drop> Connections<L> {
    /// Gives up the connection of a key if it has taken nothing of a reply for ten seconds, and says whether. It leaves.
    pub fn give_up(&mut self, key: usize, now: u64) -> bool
        ensures which { result ≡ is_given_up_in now (at self.old.places key) }
        ensures new { self.new ≡ (if result then without self.old key else self.old) }
    {
        match self.get(key) {
            Some(connection) if connection.is_given_up(now) => {
                self.end(key);
                true
            }
            _ => false,
        }
    }
}

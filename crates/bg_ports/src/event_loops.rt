//! The event loops of the client ports.
ghost use Rattle.std.specs.Prelude.{◌≡◌, ◌≤◌, ◌+◌, ◌/◌, ◌%◌, max, min};

use bg_command_line::ServeSettings;
use bg_revisions::Service;
use std::thread::{Threads, available_parallelism};

/// The greatest number of event loops of the active port, if their number is that of the processors.
const MOST_LOOPS: usize = 64;

/// The number of requests at a time for which an event loop of its own pays. With far fewer, the loops take the places from one
/// another, and most of what they do is to sleep and to wake.
const REQUESTS_OF_A_LOOP: u32 = 4;

/// The number of event loops of each client port.
#[derive(Clone, Copy, PartialEq, Eq, Debug, Drop)]
pub struct EventLoops {
    /// The number of those of the active port.
    pub active: u32,
    /// The number of those of the preview port: 1, or 0 if there is no such port.
    pub preview: u32,
}

impl EventLoops {
    /// As many event loops of the active port as the settings say. If they say nothing, as many as the machine has processors,
    /// up to 64, and at most one for each four requests at a time, rounded up. It has one if the number of processors is not known.
    pub fn of<R: Threads>(rt: &R, settings: &ServeSettings) -> EventLoops {
        EventLoops {
            active: match settings.threads {
                Some(threads) => u32::from(threads),
                None => usual_loops(processors(rt), u32::from(settings.workers)),
            },
            preview: u32::from(settings.preview.is_some()),
        }
    }

    /// The number of event loops of the port of a service.
    pub fn of_service(self, service: Service) -> u32 {
        match service {
            Service::Active => self.active,
            Service::Preview => self.preview,
        }
    }

    /// The number of all event loops.
    pub fn all(self) -> u32 {
        self.active.saturating_add(self.preview)
    }
}

/// The number of event loops on so many processors that serve so many requests at a time.
fn usual_loops(processors: u32, requests: u32) -> u32
    ensures { result ≡ min processors (max 1 (requests / 4 + min 1 (requests % 4))) }
{
    processors.min(requests.div_ceil(REQUESTS_OF_A_LOOP).max(1))
}

/// The number of processors, from 1 to 64.
fn processors<R: Threads>(rt: &R) -> u32
    ensures least { 1 ≤ result }
    ensures most { result ≤ 64 }
{
    match available_parallelism(rt) {
        Ok(count) => count.get().clamp(1, MOST_LOOPS) as u32,
        Err(_) => 1,
    }
}

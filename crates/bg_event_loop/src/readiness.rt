//! What is known of a connection that is watched for changes.
ghost use Rattle.std.specs.Prelude.{◌≡◌};
ghost use Rattle.bg_event_loop.specs.Readinesses.{after_read, after_write, told_more};

use crate::events::Told;

/// What is known of a connection that is watched for changes: no event comes again for what it still says.
#[derive(Clone, Copy, Drop)]
pub(crate) struct Readiness {
    /// Whether a read may find bytes, or the end of the input.
    pub(crate) input: bool,
    /// Whether a write may take bytes.
    pub(crate) output: bool,
    /// Whether the other end has ended its input.
    pub(crate) end: bool,
    /// Whether the connection is over.
    pub(crate) reset: bool,
}

impl Readiness {
    /// The same after an event.
    pub(crate) fn note(&mut self, told: Told)
        ensures { self.new ≡ told_more self.old told }
    {
        self.input = self.input || told.input || told.end;
        self.output = self.output || told.output;
        self.end = self.end || told.end;
        self.reset = self.reset || told.reset;
    }

    /// The same after a read of at most so many bytes gave so many. One that gave fewer has emptied the socket (epoll(7)),
    /// unless the end was announced, which a further read gives.
    pub(crate) fn note_read(&mut self, count: usize, most: usize)
        ensures { self.new ≡ after_read count most self.old }
    {
        self.input = self.end || count >= most;
    }

    /// The same after a write of so many bytes took so many. One that took fewer has filled the socket.
    pub(crate) fn note_write(&mut self, count: usize, most: usize)
        ensures { self.new ≡ after_write count most self.old }
    {
        self.output = count >= most;
    }
}

//! Clients, an endpoint and a gate.

use bg_book::{EnterFault, GoOn, Left, Ticket};
use bg_forward::{ClientStream, Dial, Dialled, Gate};
use bg_http::Duplex;
use bg_ledger::{Names, Seat};
use bg_revisions::Service;
use std::alloc::Global;
use std::io;
use std::io::{ErrorKind, Read, Write};
use std::sync::atomic::{AtomicU64, Ordering};

/// The bytes that are written to a client that waits before it sends its body.
pub const CONTINUE: &str = "HTTP/1.1 100 Continue\r\n\r\n";

/// Which reads and writes of a stream are interrupted.
#[derive(Clone, Copy, Drop)]
pub enum Interruptions {
    None,
    /// Every second one, beginning with the first.
    EverySecond,
    EveryRead,
    EveryWrite,
}

/// How a stream gives and takes its bytes.
#[derive(Clone, Copy, Drop)]
pub struct Pace {
    /// The maximum number of bytes of one read or write.
    pub most: usize,
    /// The one read and the one write that fail, counted from 0.
    pub failing_read: Option<u64>,
    pub failing_write: Option<u64>,
    /// Whether flushing fails.
    pub flush_fails: bool,
    pub interruptions: Interruptions,
    /// The question from which on the peer has gone, counted from 1.
    pub goes_at: Option<u64>,
}

/// A few bytes at a time, and nothing fails.
pub const STEADY: Pace = Pace {
    most: 20,
    failing_read: None,
    failing_write: None,
    flush_fails: false,
    interruptions: Interruptions::None,
    goes_at: None,
};

/// The number of reads and writes of a stream, without the interrupted ones.
#[derive(Clone, Copy, PartialEq, Eq, Debug, Drop)]
pub struct Uses {
    pub reads: u64,
    pub writes: u64,
}

/// A stream over memory.
#[derive(Drop)]
pub struct FakeStream<'a> {
    input: &'a [u8],
    rest: &'a [u8],
    pace: Pace,
    uses: Uses,
    /// The number of times that it was asked whether the peer has gone.
    questions: u64,
    was_interrupted: bool,
    output: Vec<u8>,
}

impl<'a> FakeStream<'a> {
    pub fn new(alloc: Global, input: &'a [u8], pace: Pace) -> FakeStream<'a> {
        FakeStream::waiting(alloc, input, &[], pace)
    }

    /// A stream that ends after `input`, unless `100 Continue` was written to it: then `rest` follows.
    pub fn waiting(alloc: Global, input: &'a [u8], rest: &'a [u8], pace: Pace) -> FakeStream<'a> {
        FakeStream {
            input,
            rest,
            pace,
            uses: Uses {
                reads: 0,
                writes: 0,
            },
            questions: 0,
            was_interrupted: false,
            output: Vec::new(alloc),
        }
    }

    pub fn uses(&self) -> Uses {
        self.uses
    }

    /// The number of times that it was asked whether the peer has gone.
    pub fn questions(&self) -> u64 {
        self.questions
    }

    /// The bytes that were written so far.
    pub fn shows(&self) -> &[u8] {
        self.output.as_slice()
    }

    /// Whether this call is interrupted, because the one before was not.
    fn is_second(&mut self) -> bool {
        self.was_interrupted = !self.was_interrupted;
        self.was_interrupted
    }

    fn interrupts_read(&mut self) -> bool {
        match self.pace.interruptions {
            Interruptions::EverySecond => self.is_second(),
            Interruptions::EveryRead => true,
            _ => false,
        }
    }

    fn interrupts_write(&mut self) -> bool {
        match self.pace.interruptions {
            Interruptions::EverySecond => self.is_second(),
            Interruptions::EveryWrite => true,
            _ => false,
        }
    }
}

/// Counts a use. Returns whether it is the one that fails.
fn fails(uses: &mut u64, failing: Option<u64>) -> bool {
    let place = *uses;
    *uses = place.saturating_add(1);
    failing == Some(place)
}

impl Read for FakeStream<'_> {
    fn read(&mut self, buf: &mut [u8]) -> io::Result<usize> {
        if self.interrupts_read() {
            return Err(io::Error::from(ErrorKind::Interrupted));
        }
        if fails(&mut self.uses.reads, self.pace.failing_read) {
            return Err(io::Error::from(ErrorKind::ConnectionReset));
        }
        if self.input.is_empty() && self.shows() == CONTINUE.as_bytes() {
            self.input = self.rest;
            self.rest = &[];
        }
        let most = buf.len().min(self.pace.most);
        self.input.read(&mut buf[..most])
    }
}

impl Write for FakeStream<'_> {
    fn write(&mut self, buf: &[u8]) -> io::Result<usize> {
        if self.interrupts_write() {
            return Err(io::Error::from(ErrorKind::Interrupted));
        }
        if fails(&mut self.uses.writes, self.pace.failing_write) {
            return Err(io::Error::from(ErrorKind::BrokenPipe));
        }
        let most = buf.len().min(self.pace.most);
        self.output.write(&buf[..most])
    }

    fn flush(&mut self) -> io::Result<()> {
        if self.pace.flush_fails {
            return Err(io::Error::from(ErrorKind::BrokenPipe));
        }
        Ok(())
    }
}

impl Duplex for FakeStream<'_> {
    fn receive(&mut self, buf: &mut [u8]) -> io::Result<usize> {
        self.read(buf)
    }

    fn send(&mut self, bytes: &[u8]) -> io::Result<()> {
        self.write_all(bytes)
    }
}

impl ClientStream for FakeStream<'_> {
    fn has_gone(&mut self) -> bool {
        self.questions = self.questions.saturating_add(1);
        match self.pace.goes_at {
            Some(question) => self.questions >= question,
            None => false,
        }
    }
}

/// What an endpoint has seen.
#[derive(Drop)]
pub struct Seen {
    /// The number of connections that were opened.
    pub dialled: AtomicU64,
    /// The number of those to which exactly the expected bytes were written when they were flushed.
    pub forwarded: AtomicU64,
    /// The number of those that were dropped.
    pub dropped: AtomicU64,
    /// The numbers of their reads and writes, with the interrupted ones.
    pub reads: AtomicU64,
    pub writes: AtomicU64,
}

impl Seen {
    pub fn new() -> Seen {
        Seen {
            dialled: AtomicU64::new(0),
            forwarded: AtomicU64::new(0),
            dropped: AtomicU64::new(0),
            reads: AtomicU64::new(0),
            writes: AtomicU64::new(0),
        }
    }

    /// The numbers of reads and writes of the connections.
    pub fn uses(&self) -> Uses {
        Uses {
            reads: self.reads.load(Ordering::SeqCst),
            writes: self.writes.load(Ordering::SeqCst),
        }
    }
}

/// An endpoint at one port, which gives each connection the same answer.
#[derive(Drop)]
pub struct Endpoint<'a> {
    pub alloc: Global,
    pub port: u16,
    pub answer: &'a [u8],
    pub desired: &'a [u8],
    pub pace: Pace,
    pub seen: &'a Seen,
}

/// A connection to it.
pub struct EndpointStream<'a> {
    stream: FakeStream<'a>,
    desired: &'a [u8],
    seen: &'a Seen,
}

impl Drop for EndpointStream<'_> {
    fn drop(self) {
        let EndpointStream {
            stream: _,
            desired: _,
            seen,
        } = self;
        seen.dropped.fetch_add(1, Ordering::SeqCst);
    }
}

impl<'a> Dial for Endpoint<'a> {
    type Stream = EndpointStream<'a>;

    fn dial(&self, port: u16) -> Dialled<EndpointStream<'a>> {
        self.seen.dialled.fetch_add(1, Ordering::SeqCst);
        if port != self.port {
            return Dialled::once(port, Err(io::Error::from(ErrorKind::ConnectionRefused)));
        }
        let stream = EndpointStream {
            stream: FakeStream::new(self.alloc, self.answer, self.pace),
            desired: self.desired,
            seen: self.seen,
        };
        Dialled::once(port, Ok(stream))
    }
}

impl Read for EndpointStream<'_> {
    fn read(&mut self, buf: &mut [u8]) -> io::Result<usize> {
        self.seen.reads.fetch_add(1, Ordering::SeqCst);
        self.stream.read(buf)
    }
}

impl Write for EndpointStream<'_> {
    fn write(&mut self, buf: &[u8]) -> io::Result<usize> {
        self.seen.writes.fetch_add(1, Ordering::SeqCst);
        self.stream.write(buf)
    }

    fn flush(&mut self) -> io::Result<()> {
        if self.stream.shows() == self.desired {
            self.seen.forwarded.fetch_add(1, Ordering::SeqCst);
        }
        self.stream.flush()
    }
}

/// A gate that admits no request. A request leaves at the inner gate: only a seat's own record can change the seat.
#[derive(Drop)]
pub struct Shut<'a, G> {
    pub behind: &'a G,
}

impl<N: Names, G: Gate<N>> Gate<N> for Shut<'_, G> {
    fn enter(&self, _seat: &mut Seat<N>, _service: Service) -> Result<Ticket, EnterFault> {
        Err(EnterFault::NoEndpoints)
    }

    fn may_go_on(&self, seat: &mut Seat<N>) -> GoOn {
        self.behind.may_go_on(seat)
    }

    fn leave(&self, seat: &mut Seat<N>) -> Left {
        self.behind.leave(seat)
    }
}

/// A gate that counts the questions whether a request goes on, and gives the request up at one of them.
#[derive(Drop)]
pub struct Asked<'a, G> {
    pub behind: &'a G,
    /// The question at which it is given up, counted from 1; 0 means at none.
    pub cut_at: u64,
    pub questions: &'a AtomicU64,
}

impl<N: Names, G: Gate<N>> Gate<N> for Asked<'_, G> {
    fn enter(&self, seat: &mut Seat<N>, service: Service) -> Result<Ticket, EnterFault> {
        self.behind.enter(seat, service)
    }

    fn may_go_on(&self, seat: &mut Seat<N>) -> GoOn {
        let before = self.questions.fetch_add(1, Ordering::SeqCst);
        if before.saturating_add(1) == self.cut_at {
            return GoOn::Cut;
        }
        self.behind.may_go_on(seat)
    }

    fn leave(&self, seat: &mut Seat<N>) -> Left {
        self.behind.leave(seat)
    }
}

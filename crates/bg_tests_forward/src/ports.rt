//! Client ports, which give their workers what a test says.
ghost use Rattle.std.specs.Prelude.{Some};
ghost use Rattle.bg_forward.specs.Clients.{IsServed};
ghost use Rattle.bg_http.specs.declared.refusal.RefusalBody.TheVariants as body;

use crate::messages::{CHUNKS_ON, GET, refusal};
use bg_forward::{Accept, Arrived, RefusalBody, Served, receive_in_memory};
use bg_http::MemoryStream;
use bg_revisions::Service;
use std::alloc::Global;
use std::io;
use std::io::ErrorKind;
use std::sync::atomic::{AtomicU64, Ordering};

/// The result of an accept.
#[derive(Clone, Copy, Drop)]
pub enum NextClient {
    /// A client that sends these bytes.
    Client(&'static str),
    Fails,
    Ends,
}

/// The number of accepts of the ports, and the outcomes of their connections.
#[derive(Clone, Copy, PartialEq, Eq, Debug, Drop)]
pub struct Counts {
    pub active_accepts: u64,
    pub preview_accepts: u64,
    /// The number of ended connections whose whole request was read, and of the others.
    pub whole: u64,
    pub other: u64,
    /// The number of clients to which their answer was written, and of those to which the refusal
    /// 503 was written.
    pub answered: u64,
    pub unavailable: u64,
}

/// The same counts, while they rise.
#[derive(Drop)]
pub struct RisingCounts {
    active_accepts: AtomicU64,
    preview_accepts: AtomicU64,
    whole: AtomicU64,
    other: AtomicU64,
    answered: AtomicU64,
    unavailable: AtomicU64,
}

impl RisingCounts {
    pub fn new() -> RisingCounts {
        RisingCounts {
            active_accepts: AtomicU64::new(0),
            preview_accepts: AtomicU64::new(0),
            whole: AtomicU64::new(0),
            other: AtomicU64::new(0),
            answered: AtomicU64::new(0),
            unavailable: AtomicU64::new(0),
        }
    }

    pub fn counts(&self) -> Counts {
        Counts {
            active_accepts: self.active_accepts.load(Ordering::SeqCst),
            preview_accepts: self.preview_accepts.load(Ordering::SeqCst),
            whole: self.whole.load(Ordering::SeqCst),
            other: self.other.load(Ordering::SeqCst),
            answered: self.answered.load(Ordering::SeqCst),
            unavailable: self.unavailable.load(Ordering::SeqCst),
        }
    }
}

/// The ports of both services. Each gives these results, and after the last one clients that ask.
#[derive(Drop)]
pub struct Ports<'a> {
    pub alloc: Global,
    pub accepted: &'a [NextClient],
    pub counts: &'a RisingCounts,
}

impl Accept for Ports<'_> {
    type Stream = MemoryStream<'static>;

    type Sender = &'static [u8];

    ghost sent = { λ input. Some input.now };

    ghost refusals = { λ _. body.Empty };

    fn refusal_body(&self) -> RefusalBody {
        RefusalBody::Empty
    }

    fn accept(
        &self,
        service: Service,
    ) -> io::Result<Option<Arrived<MemoryStream<'static>, &'static [u8]>>> {
        let accepts = match service {
            Service::Active => &self.counts.active_accepts,
            Service::Preview => &self.counts.preview_accepts,
        };
        let before = accepts.fetch_add(1, Ordering::SeqCst);
        let next = match self.accepted.get(before as usize) {
            Some(next) => *next,
            None => NextClient::Client(GET),
        };
        match next {
            NextClient::Client(request) => {
                Ok(Some(receive_in_memory(self.alloc, request.as_bytes())))
            }
            NextClient::Fails => Err(io::Error::from(ErrorKind::ConnectionAborted)),
            NextClient::Ends => Ok(None),
        }
    }

    fn close(&self, client: Arrived<MemoryStream<'static>, &'static [u8]>, served: &Served)
        requires connection { IsServed body.Empty (Some client.sender.now) (Some client.stream.written.items)
            client.received served.now.entered served.now.end }
    {
        // a request that entered was read to its end
        let ended = if served.entered.is_some() {
            &self.counts.whole
        } else {
            &self.counts.other
        };
        ended.fetch_add(1, Ordering::SeqCst);
        let written = client.stream.written.as_slice();
        if written == CHUNKS_ON.as_bytes() {
            self.counts.answered.fetch_add(1, Ordering::SeqCst);
        }
        if written == refusal(503).as_bytes() {
            self.counts.unavailable.fetch_add(1, Ordering::SeqCst);
        }
    }
}

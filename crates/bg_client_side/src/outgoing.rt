//! A response that is written.
ghost use Rattle.std.specs.Prelude.{◌≡◌, [], vec_capacity};

use std::marker::Model;

/// A response: what was written of it, and what is still to be written. Together they are what was handed over.
#[derive(Drop)]
pub struct OutgoingResponse {
    bytes: Vec<u8>,
    /// The number of bytes that were written.
    written: usize,
}

impl Model for OutgoingResponse {
    ghost use Rattle.std.specs.Prelude.{◌≤◌, drop, take, vec_capacity, vec_len};
    ghost use Rattle.bg_client_side.specs.Outgoing.{Outgoing};

    ghost Value = { Outgoing };

    ghost view = { λ r. record {
      sent = take r.written r.bytes.items;
      rest = drop r.written r.bytes.items;
      weight = vec_capacity r.bytes;
    } };

    ghost invariant = { λ r. r.written ≤ vec_len r.bytes };
}

impl OutgoingResponse {
    ghost use Rattle.bg_client_side.specs.Outgoing.{with_written};

    /// A response of which nothing was written.
    pub fn new(bytes: Vec<u8>) -> OutgoingResponse
        ensures { result ≡ record {
          sent = [];
          rest = bytes.items;
          weight = vec_capacity bytes;
        } }
    {
        OutgoingResponse { bytes, written: 0 }
    }

    /// What is still to be written.
    pub fn rest(&self) -> &[u8]
        ensures { result.now ≡ self.now.rest }
    {
        match self.bytes.as_slice().get(self.written..) {
            Some(rest) => rest,
            None => &[],
        }
    }

    /// Notes that so many bytes more were written, at most the rest.
    pub fn wrote(&mut self, count: usize)
        ensures { self.new ≡ with_written self.old count }
    {
        let count = count.min(self.rest().len());
        self.written = self.written.saturating_add(count);
    }
}

//! What happens on the client's connection.
ghost use Rattle.std.specs.Prelude.{◌≡◌, Option};
ghost use Rattle.bg_client_side.specs.Clients.{Continues, Feeds, Writes, closing, discarded_at, ended, failed_at, looked};
ghost use Rattle.bg_both_sides.specs.Answers.{Answer};
ghost use Rattle.bg_both_sides.specs.ClientEvents.{ReadsSide, RefusesFault};

use crate::answering;
use crate::both_sides::BothSides;
use bg_client_side::{ClientConnection, Fed};
use std::alloc::Global;

impl BothSides {
    /// Adds bytes that came from the client. What is no request is refused at once, with the status of its fault.
    pub fn feed(&mut self, bytes: &[u8], now: u64) -> Fed
        ensures client { (answer : Option Answer) × ReadsSide (λ read.
            Feeds self.old.client bytes.now now result read) result now answer self.new.client }
        ensures endpoint { self.new.endpoint ≡ self.old.endpoint }
    {
        let fed = self.client.feed(bytes, now);
        refuse_fault(&mut self.client, self.alloc, fed, now);
        fed
    }

    /// Notes that `100 Continue` was written, and goes on with the bytes that wait.
    pub fn note_continued(&mut self, now: u64) -> Fed
        ensures client { (answer : Option Answer) × ReadsSide (λ read.
            Continues self.old.client result read) result now answer self.new.client }
        ensures endpoint { self.new.endpoint ≡ self.old.endpoint }
    {
        let fed = self.client.note_continued();
        refuse_fault(&mut self.client, self.alloc, fed, now);
        fed
    }

    /// Notes that so many bytes more of the answer were written, at most the rest.
    pub fn wrote(&mut self, count: usize, now: u64) -> Fed
        ensures client { (answer : Option Answer) × ReadsSide (λ read.
            Writes self.old.client count now result read) result now answer self.new.client }
        ensures endpoint { self.new.endpoint ≡ self.old.endpoint }
    {
        let fed = self.client.wrote(count, now);
        refuse_fault(&mut self.client, self.alloc, fed, now);
        fed
    }

    /// Notes that the client ended its input.
    pub fn end_input(&mut self)
        ensures { self.new ≡ record self.old { client = ended self.old.client } }
    {
        self.client.end_input();
    }

    /// Notes that a shutdown has begun.
    pub fn begin_closing(&mut self)
        ensures { self.new ≡ record self.old { client = closing self.old.client } }
    {
        self.client.begin_closing();
    }

    /// Notes that the client's connection was reset, that a read or a write on it failed, or that its caller closes it. If a
    /// request is inside, it may be given up ([`Self::give_up`], [`Self::refuse`]).
    pub fn fail(&mut self)
        ensures { self.new ≡ record self.old {
          client = failed_at self.old.client.stage self.old.client;
        } }
    {
        self.client.fail();
    }

    /// Notes that so many bytes were discarded in a lingering close.
    pub fn discarded(&mut self, count: u64)
        ensures { self.new ≡ record self.old {
          client = discarded_at self.old.client.stage count self.old.client;
        } }
    {
        self.client.discarded(count);
    }

    /// Lets a client's connection leave whose timeout has passed.
    pub fn look(&mut self, now: u64)
        ensures { self.new ≡ record self.old { client = looked self.old.client now } }
    {
        self.client.look(now);
    }
}

/// Refuses what was read with this result, if it is no request.
fn refuse_fault(client: &mut ClientConnection, alloc: Global, fed: Fed, now: u64)
    ensures { (answer : Option Answer) × RefusesFault fed now client.old answer client.new }
{
    if let Fed::Refused(fault) = fed {
        if let Some(status) = fault.status() {
            answering::refuse_fault(client, alloc, status, now);
        }
    }
}

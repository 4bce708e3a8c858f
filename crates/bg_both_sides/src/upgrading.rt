//! How both connections are handed over after an upgrade (RFC 9110 section 7.8).
ghost use Rattle.std.specs.Prelude.{◌≡◌, ◌++◌, IfOk, IfSome, ℕ};
ghost use Rattle.bg_upgrade.specs.HeadTexts.{acceptance_text as text_of_acceptance};
ghost use Rattle.bg_both_sides.specs.UpgradeEvents.{AcceptsUpgrade, Begins, IsAccepted};

use crate::answering::leave_unanswered;
use crate::both_sides::BothSides;
use crate::endpoint_side::EndpointSide;
use bg_http::{Request, ResponseHead};
use bg_upgrade::{Acceptance, acceptance_text, find_acceptance};
use std::alloc::{AllocError, Global};

/// The bytes with which a tunnel begins after an upgrade: what is to be written first to each peer.
#[derive(Drop)]
pub struct Upgraded {
    /// What the client sent behind its request.
    pub for_endpoint: Vec<u8>,
    /// The head of the response as the client gets it, and what the endpoint sent behind it.
    pub for_client: Vec<u8>,
}

impl BothSides {
    /// Looks whether the endpoint accepts an upgrade with these bytes, which came from it: its request was forwarded as one that asks
    /// for an upgrade, and written whole; all bytes that came on its connection begin with a response 101 that accepts the upgrade;
    /// and nothing of another response was passed on. Then both connections are the caller's: the client's connection has left
    /// without an answer, and the request has no connection any more. Otherwise, and without memory, nothing changes, and the bytes
    /// are to be given to [`Self::receive`], which refuses each 101.
    pub fn accept_upgrade(&mut self, bytes: &[u8], now: u64) -> Option<Upgraded>
        ensures { (weight : ℕ) × AcceptsUpgrade self.old bytes.now now weight result self.new }
    {
        let Ok(Some(upgraded)) = self.upgraded_by(bytes) else {
            return None;
        };
        self.endpoint = EndpointSide::NoRequest;
        leave_unanswered(&mut self.client, self.alloc, now);
        Some(upgraded)
    }

    /// What a tunnel begins with, if the endpoint accepts an upgrade with these bytes. The only error is an allocation failure.
    fn upgraded_by(&self, bytes: &[u8]) -> Result<Option<Upgraded>, AllocError>
        ensures { IfOk result (λ found. IfSome found (IsAccepted self.now bytes.now)) }
    {
        if self.client.is_passing_on() {
            return Ok(None);
        }
        let Some((request, arrived)) = self.endpoint.upgrade_asked() else {
            return Ok(None);
        };
        let came = joined(self.alloc, arrived, bytes)?;
        tunnel_after(self.alloc, request, &came, self.client.unread())
    }
}

/// What a tunnel begins with, if the bytes that came from the endpoint accept the upgrade that the request asks for, and these are
/// unread behind the request. The only error is an allocation failure.
fn tunnel_after(
    alloc: Global,
    request: &Request,
    came: &[u8],
    unread: &[u8],
) -> Result<Option<Upgraded>, AllocError>
    ensures { IfOk result (λ found. IfSome found (Begins request.now came.now unread.now)) }
{
    let Acceptance::Accepts { head, taken } = find_acceptance(alloc, request, came)? else {
        return Ok(None);
    };
    Ok(Some(Upgraded {
        for_endpoint: Vec::from_slice(alloc, unread)?,
        for_client: text_to_client(alloc, head, &came[taken..])?,
    }))
}

/// These bytes, and then those.
fn joined(alloc: Global, front: &[u8], back: &[u8]) -> Result<Vec<u8>, AllocError>
    ensures { IfOk result (λ all. all.items ≡ front.now ++ back.now) }
{
    let mut all = Vec::from_slice(alloc, front)?;
    all.extend_from_slice(back)?;
    Ok(all)
}

/// The text with which the client is told that the upgrade is accepted, and then these bytes.
fn text_to_client(alloc: Global, head: ResponseHead, behind: &[u8]) -> Result<Vec<u8>, AllocError>
    ensures { IfOk result (λ text. text.items ≡ text_of_acceptance head ++ behind.now) }
{
    let mut text = acceptance_text(alloc, head)?;
    text.extend_from_slice(behind)?;
    Ok(text)
}

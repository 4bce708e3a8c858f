//! Whether an endpoint accepts an upgrade.
ghost use Rattle.std.specs.Prelude.{◌≡◌, IfOk};
ghost use Rattle.bg_upgrade.specs.Acceptances.{FindsAcceptance, judgement};

use crate::upgrade::accepts_upgrade;
use bg_http::{Request, ResponseFault, ResponseHead};
use bg_http_read::find_response_head;
use std::alloc::{AllocError, Global};

/// What the bytes that came from an endpoint say about an upgrade.
#[derive(Drop)]
pub enum Acceptance {
    /// The first head is not complete, and fewer than 16,384 bytes came: more bytes are needed.
    More,
    /// The endpoint accepts the upgrade. Behind the head its connection carries the other protocol.
    Accepts {
        /// The head of the response 101.
        head: ResponseHead,
        /// The length of the head in bytes, with its empty line. The bytes behind it belong to the other protocol.
        taken: usize,
    },
    /// The bytes do not begin with a head that accepts the upgrade, whatever follows: it is an ordinary response, or no head within
    /// the limits. The caller gives them to a reader of responses, from the first byte on.
    Other,
}

/// The answer for bytes that begin with the head, which has this length.
fn judge(request: &Request, head: ResponseHead, taken: usize) -> Acceptance
    ensures { result ≡ judgement request.now head taken }
{
    if accepts_upgrade(request, &head) {
        return Acceptance::Accepts { head, taken };
    }
    Acceptance::Other
}

/// Whether the first head that came from an endpoint accepts the upgrade that was forwarded to it for `request` (RFC 9110 section
/// 7.8). `bytes` are all bytes that came since. If the answer is `More`, the caller asks again with more of them. The only error is
/// an allocation failure.
///
/// A head has at most 16,384 bytes and 64 fields; bytes that begin with a larger one are `Other`. So are those that begin with an
/// interim response: a reader of responses skips it, and refuses a 101 behind it.
pub fn find_acceptance(
    alloc: Global,
    request: &Request,
    bytes: &[u8],
) -> Result<Acceptance, AllocError>
    ensures { IfOk result (FindsAcceptance request.now bytes.now) }
{
    bg_http_read::laws::an_input_has_one_head();
    match find_response_head(alloc, bytes) {
        Ok(Some((head, taken))) => Ok(judge(request, head, taken)),
        Ok(None) => Ok(Acceptance::More),
        Err(fault) => match fault {
            ResponseFault::OutOfMemory => Err(AllocError),
            _ => Ok(Acceptance::Other),
        },
    }
}

//! Requests that are already in memory.
ghost use Rattle.std.specs.Prelude.{IfErr, IfOk, List, ℕ};
ghost use Rattle.bg_http_read.specs.Requests.{ReadsRequest, RequestFails};

use crate::request_read::read_request;
use bg_http::{MemoryStream, Request, RequestFault};
use std::alloc::Global;

/// Reads the request at the front of bytes, as `read_request` does. A `100 Continue` goes to memory
/// and is dropped; the fault is WriteFailed if the allocation for it fails.
pub fn request_in(alloc: Global, bytes: &[u8]) -> Result<Request, RequestFault>
    ensures request { IfOk result (λ request.
        (rest : List ℕ) × ReadsRequest bytes.now request rest) }
    ensures fault { IfErr result (λ fault. RequestFails bytes.now fault) }
{
    let mut stream = MemoryStream::new(alloc, bytes);
    read_request(alloc, &mut stream)
}

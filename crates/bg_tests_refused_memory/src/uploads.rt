//! The calls of `bg_upload`.

use crate::asking::made;
use crate::stop::Stop;
use bg_endpoint_side::ForwardFault;
use bg_http::{RequestFault, ResponseFault};
use bg_upload::{Upload, UploadFault, UploadTerms, find_large_request};
use std::alloc::Global;
use std::str;

const HEAD: &[u8] = b"POST /a HTTP/1.1\r\nHost: x\r\nTransfer-Encoding: chunked\r\n\r\n";

const RESPONSE: &[u8] = b"HTTP/1.1 200 A\r\nTransfer-Encoding: chunked\r\n\r\n2\r\nok\r\n0\r\n\r\n";

/// After a refusal an upload is of no use, so each repetition begins anew.
pub fn make_calls<R: AllocGlobal + Print + Eprint>(rt: &R) -> Result<(), Stop> {
    let sent = made(rt, "Upload::client_sent", || request_sent(rt.alloc()))?;
    show_text(rt, &sent)?;
    let given = made(rt, "Upload::endpoint_sent", || response_given(rt.alloc()))?;
    show_text(rt, &given)
}

/// An upload of which nothing was passed on.
fn new_upload(alloc: Global) -> Result<Upload, Stop> {
    let large = match find_large_request(alloc, HEAD, 100) {
        Ok(Some(large)) => large,
        Ok(None) => return Err(Stop::OtherFault),
        Err(RequestFault::OutOfMemory) => return Err(Stop::OutOfMemory),
        Err(_) => return Err(Stop::OtherFault),
    };
    let terms = UploadTerms {
        port: 8081,
        owes_continue: false,
        window: 100,
        most_body: 100,
        most_response: 100,
        silence_millis: 1_000,
    };
    // its only error is an allocation failure
    match Upload::new(alloc, &large.request, large.framing, terms, 0) {
        Ok(upload) => Ok(upload),
        Err(_) => Err(Stop::OutOfMemory),
    }
}

/// What is to be written to the endpoint once a body came of which a part waits.
fn request_sent(alloc: Global) -> Result<Vec<u8>, Stop> {
    let mut upload = new_upload(alloc)?;
    passed(upload.endpoint_took(1_000, 1))?;
    passed(upload.client_sent(b"3\r\nabc\r", 1))?;
    passed(upload.client_sent(b"\n0\r\n\r\n", 1))?;
    Ok(Vec::from_slice(alloc, upload.to_endpoint())?)
}

/// What is to be written to the client once a response came.
fn response_given(alloc: Global) -> Result<Vec<u8>, Stop> {
    let mut upload = new_upload(alloc)?;
    passed(upload.endpoint_sent(RESPONSE, 1))?;
    Ok(upload.into_rest(alloc)?)
}

/// What a call came to: it fails only without memory.
fn passed(came_to: Result<(), UploadFault>) -> Result<(), Stop> {
    match came_to {
        Ok(()) => Ok(()),
        Err(
            UploadFault::Request(RequestFault::OutOfMemory)
            | UploadFault::Forward(ForwardFault::Response(ResponseFault::OutOfMemory)),
        ) => Err(Stop::OutOfMemory),
        Err(_) => Err(Stop::OtherFault),
    }
}

fn show_text<R: Print>(rt: &R, text: &[u8]) -> Result<(), Stop> {
    match str::from_utf8(text) {
        Ok(text) => println!(rt; "{text:?}")?,
        Err(_) => println!(rt; "no text")?,
    }
    Ok(())
}

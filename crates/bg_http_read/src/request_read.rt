//! A request, read from a stream.
ghost use Rattle.std.specs.Prelude.{◌≡◌, ◌++◌, [], false, true, List, ℕ, None, Option, IfErr, IfNone, IfOk, IfSome, IsTrue, OnOk};
ghost use Rattle.std.specs.Io.KnownBytes.{Appends, Keeps};
ghost use Rattle.bg_http_read.specs.Requests.{ReadsRequest, RequestFails, WritesContinue, WroteFor};
ghost use Rattle.bg_http_read.specs.Requests.{continue_text};
ghost use Rattle.bg_http_read.specs.RequestPieces.{OwesIf, PieceTo};
ghost use Rattle.bg_http_read.specs.RequestStates.{IsReadAsked, IsRefusedAsked};
ghost use Rattle.bg_http.specs.declared.request_fault.RequestFault.TheVariants as request_fault;

use crate::arrival::Arrival;
use crate::request_parser::RequestParser;
use crate::request_step::RequestStep;
use bg_http::{Duplex, MOST_TURNS, Request, RequestFault};
use std::alloc::Global;

/// The number of bytes of a request that one read asks for. Most heads are shorter, and each request sets
/// this many bytes to zero.
const PIECE: usize = 4096;

/// Writes `100 Continue`.
fn send_continue<S: Duplex>(stream: &mut S) -> Result<(), RequestFault>
    ensures written { OnOk result (Appends (S.contents stream.old) (S.contents stream.new)
        continue_text) }
    ensures fault { IfErr result (λ fault. fault ≡ request_fault.WriteFailed) }
    ensures left { Keeps (S.remaining stream.old) (S.remaining stream.new) }
{
    match stream.send(b"HTTP/1.1 100 Continue\r\n\r\n") {
        Ok(()) => Ok(()),
        Err(_) => Err(RequestFault::WriteFailed),
    }
}

/// Continues with the body after `100 Continue` was written.
fn go_on(parser: &mut RequestParser) -> Result<Option<Request>, RequestFault>
    requires is_open { IsTrue parser.old.is_open }
    requires asked { IsTrue parser.old.asked }
    ensures request { IfOk result (λ found. IfSome found (λ request.
        IsReadAsked true request parser.old.seen)) }
    ensures none_yet { IfOk result (λ found. IfNone found (parser.new ≡ parser.old)) }
    ensures refused { IfErr result (λ fault. IsRefusedAsked true fault parser.old.seen) }
{
    match parser.feed(&[]) {
        Ok(RequestStep::Whole(request)) => Ok(Some(request)),
        Ok(RequestStep::More) => Ok(None),
        Ok(RequestStep::Continue) => Ok(None),
        Err(fault) => Err(fault),
    }
}

/// Feeds a piece, and writes `100 Continue` if it is owed before the body is parsed.
fn feed_piece<S: Duplex>(
    stream: &mut S,
    parser: &mut RequestParser,
    bytes: &[u8],
) -> Result<Option<Request>, RequestFault>
    requires { IsTrue parser.old.is_open }
    ensures answer { (first : Option (List ℕ))
        → WritesContinue parser.old.asked first (S.contents stream.old)
        → OwesIf parser.old.asked parser.old.seen
        → PieceTo (parser.old.seen ++ bytes.now) first (S.contents stream.new) result parser.new }
    ensures left { Keeps (S.remaining stream.old) (S.remaining stream.new) }
{
    match parser.feed(bytes) {
        Ok(RequestStep::Whole(request)) => Ok(Some(request)),
        Ok(RequestStep::More) => Ok(None),
        Ok(RequestStep::Continue) => match send_continue(stream) {
            Ok(()) => go_on(parser),
            Err(fault) => Err(fault),
        },
        Err(fault) => Err(fault),
    }
}

/// Reads a request as `read_request` does, with a parser that was fed nothing.
fn read_with<S: Duplex>(parser: &mut RequestParser, stream: &mut S) -> Result<Request, RequestFault>
    requires { parser.old ≡ record { seen = []; asked = false; is_open = true; refused = None } }
    ensures request { IfOk result (λ request. IfSome (S.remaining stream.old)
        (λ input. (rest : List ℕ) × ReadsRequest input request rest)) }
    ensures fault { IfErr result (λ fault. IfSome (S.remaining stream.old)
        (λ input. RequestFails input fault)) }
    ensures written { WroteFor (S.remaining stream.old) (S.contents stream.old)
        (S.contents stream.new) result }
{
    let mut piece = [0; PIECE];
    for _ in 0..MOST_TURNS {
        let Some(arrival) = parser.read_more(stream, &mut piece) else {
            return Err(RequestFault::ReadFailed);
        };
        let Arrival::Piece(count) = arrival else {
            return parser.finish();
        };
        match feed_piece(stream, parser, &piece[..count]) {
            Ok(Some(request)) => return Ok(request),
            Ok(None) => {}
            Err(fault) => return Err(fault),
        }
    }
    Err(RequestFault::ReadFailed)
}

/// Reads a request with its whole body (RFC 9112). Bytes after the request may be read, and are
/// dropped. An interrupted read is repeated.
///
/// If `owes_continue` says so, writes `100 Continue` before it reads the body (RFC 9110 section
/// 10.1.1). It writes nothing else.
///
/// The first faulty place in the input decides which fault is given. For the head: Bad if no
/// continuation of the first 16,384 bytes begins with a head; HeadTooLarge if they hold a head of
/// more than 64 fields, or no complete head; Closed if the input ends before the end of the head;
/// the fault of `judge_request` for the first rule that the head breaks. For the body: Bad if the
/// line of a chunk, the CR LF after its data or the trailers cannot come within their limits;
/// TooLarge if the size of a chunk brings the body above 1,048,576 bytes; Closed if the input ends
/// before the end of the body. The other faults are ReadFailed, also after 16,777,216 pieces or
/// interruptions of one read; WriteFailed, if `100 Continue` is owed; and OutOfMemory.
pub fn read_request<S: Duplex>(alloc: Global, stream: &mut S) -> Result<Request, RequestFault>
    ensures request { IfOk result (λ request. IfSome (S.remaining stream.old)
        (λ input. (rest : List ℕ) × ReadsRequest input request rest)) }
    ensures fault { IfErr result (λ fault. IfSome (S.remaining stream.old)
        (λ input. RequestFails input fault)) }
    ensures written { WroteFor (S.remaining stream.old) (S.contents stream.old)
        (S.contents stream.new) result }
{
    let mut parser = RequestParser::new(alloc);
    read_with(&mut parser, stream)
}

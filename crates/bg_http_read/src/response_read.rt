//! A response, read from a stream.
ghost use Rattle.std.specs.Prelude.{◌≡◌, [], IfErr, IfOk, IfSome, IsTrue};
ghost use Rattle.bg_http_read.specs.Responses.{ReadsResponse, ResponseFails};

use crate::arrival::Arrival;
use crate::intake::PIECE;
use crate::one_way::OneWay;
use crate::response_parser::ResponseParser;
use bg_http::{Duplex, MOST_TURNS, Request, Response, ResponseFault};
use std::alloc::Global;
use std::io::Read;

/// Reads the response with its whole body, with a parser that was fed nothing. Writes nothing to the stream.
fn read_with<S: Duplex>(
    parser: &mut ResponseParser,
    stream: &mut S,
) -> Result<Response, ResponseFault>
    requires seen { parser.old.seen ≡ [] }
    requires is_open { IsTrue parser.old.is_open }
    ensures response { IfOk result (λ response. IfSome (S.remaining stream.old)
        (λ input. ReadsResponse parser.old.request response input)) }
    ensures fault { IfErr result (λ fault. IfSome (S.remaining stream.old)
        (λ input. ResponseFails parser.old.request input fault)) }
{
    let mut piece = [0; PIECE];
    for _ in 0..MOST_TURNS {
        let Some(arrival) = parser.read_more(stream, &mut piece) else {
            return Err(ResponseFault::ReadFailed);
        };
        let Arrival::Piece(count) = arrival else {
            return parser.finish();
        };
        if let Some(response) = parser.feed(&piece[..count])? {
            return Ok(response);
        }
    }
    Err(ResponseFault::ReadFailed)
}

/// Reads the response to `request` with its whole body (RFC 9112). Reads and drops up to 16 interim
/// responses before it (RFC 9110 section 15.2). Bytes after the response may be read, and are
/// dropped. An interrupted read is repeated.
///
/// The first faulty place in the input decides which fault is given. For each head: Bad if no
/// continuation of its first 16,384 bytes begins with a head; HeadTooLarge if they hold a head of
/// more than 64 fields, or no complete head; Closed if the input ends before the end of the head;
/// Bad for a 17th interim response; the fault of `judge_response` for the first rule that the head
/// breaks. For the body: Bad if the line of a chunk, the CR LF after its data or the trailers
/// cannot come within their limits; TooLarge if the size of a chunk, or the bytes before the end of
/// the input, bring the body above 4,194,304 bytes; Closed if the input ends before the end of the
/// body. The other faults are ReadFailed, also after 16,777,216 pieces or interruptions of one
/// read, and OutOfMemory.
pub fn read_response<R: Read>(
    alloc: Global,
    request: &Request,
    reader: &mut R,
) -> Result<Response, ResponseFault>
    ensures response { IfOk result (λ response. IfSome (R.remaining reader.old)
        (λ input. ReadsResponse request.now response input)) }
    ensures fault { IfErr result (λ fault. IfSome (R.remaining reader.old)
        (λ input. ResponseFails request.now input fault)) }
{
    let mut stream = OneWay { reader };
    let mut parser = ResponseParser::new(alloc, request);
    read_with(&mut parser, &mut stream)
}

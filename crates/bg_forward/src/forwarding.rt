//! Handles a request that entered, and answers its client.
ghost use Rattle.std.specs.Prelude.{◌≡◌, ◌<◌, ◌⊎◌, ◌++◌, [], false, length, IfErr, IfOk, IfSome, IsTrue, None, OnOk, Ok};
ghost use Rattle.std.specs.Io.KnownBytes.{Appends, Keeps};
ghost use Rattle.bg_http.specs.RefusalPages.{refusal_page, refused_text};
ghost use Rattle.bg_http.specs.Statuses.{is_refusal};
ghost use Rattle.bg_http.specs.Texts.{request_text, response_text};
ghost use Rattle.bg_http.specs.declared.refusal.RefusalBody.{RefusalBody};
ghost use Rattle.bg_http_read.specs.Responses.{ReadsResponse};
ghost use Rattle.bg_forward.specs.Buffers.{held, stream_of};
ghost use Rattle.bg_forward.specs.Causes.{IsFound, IsFoundAt};
ghost use Rattle.bg_forward.specs.Connections.{IsGatewayStatus, MayBeRefused, MayEndInside, ReadOutcome};
ghost use Rattle.bg_forward.specs.Connections.{WroteLast};
ghost use Rattle.bg_forward.specs.Reasons.{TellsWhy, reason_status};
ghost use Rattle.bg_forward.specs.ResponseReads.{IsTaken};
ghost use Rattle.bg_forward.specs.declared.serving.End.TheVariants as end;

use crate::buffered::Buffered;
use crate::gate::Gate;
use crate::reason::Reason;
use crate::serving::{End, Worker};
use crate::streams::ClientStream;
use bg_book::GoOn;
use bg_dial::{Dial, Dialled};
use bg_http::{
    MOST_TURNS, Persistence, RefusalBody, RefusalPage, Request, Response, write_refusal_with,
    write_request, write_response,
};
use bg_http_read::ResponseParser;
use bg_ledger::{Names, Seat};
use std::io;
use std::io::{ErrorKind, Read, Write};

/// The number of bytes that the first read of a response asks for. A buffer is zeroed before it is used, so a small one
/// costs less time, and suffices for a small response.
const FIRST_PIECE: usize = 2048;

/// The number of bytes that each further read asks for.
const PIECE: usize = 16_384;

/// The outcome of a request that entered.
#[derive(Clone, Copy, PartialEq, Eq, Drop)]
pub(crate) struct ForwardOutcome {
    pub(crate) end: End,
    /// Why the client was refused.
    pub(crate) reason: Option<Reason>,
}

/// What a read made of a response.
#[derive(Drop)]
pub(crate) enum Taken {
    /// The response is whole.
    Whole(Response),
    /// More bytes are needed, or the end of the input.
    More,
    /// The input has ended.
    End,
}

/// A request that is answered.
#[derive(Clone, Copy, Drop)]
pub(crate) struct Asked<'a> {
    pub(crate) request: &'a Request,
    /// What its client gets as the body of a refusal.
    pub(crate) refusal_body: RefusalBody,
}

/// Forwards a request over the connection that a dial gave, and answers its client with the response or a
/// refusal. If the dial gave no connection, the answer is 502.
pub(crate) fn forward_and_answer<N: Names, G: Gate<N>, S: ClientStream, D: Dial>(
    worker: &Worker<G, D>,
    seat: &mut Seat<N>,
    asked: &Asked<'_>,
    dialled: Dialled<D::Stream>,
    client: &mut Buffered<S>,
) -> ForwardOutcome
    requires within { 0 < seat.old.number }
    requires empty { held client.old ≡ [] }
    ensures seat { seat.new ≡ seat.old }
    ensures may_end { MayEndInside result.end }
    ensures why { TellsWhy result.end result.reason }
    ensures found { IsFoundAt (G.gives_up worker.now.gate.now seat.old) ((s : S) × S.gone s)
        result.end result.reason }
    ensures wrote { WroteLast asked.now.refusal_body (S.contents (stream_of client.old))
        (S.contents (stream_of client.new)) (Ok asked.now.request.now) result.end }
{
    let request = asked.request;
    match forward(worker, seat, request, dialled, &mut client.stream) {
        Ok(response) => answer(request, &response, client),
        Err(reason) => ForwardOutcome {
            end: refuse(
                reason.status(),
                asked.refusal_body.page_for(request),
                client,
            ),
            reason: Some(reason),
        },
    }
}

/// Forwards a request over the connection that a dial gave, and reads the response. An error is the reason
/// why the client is refused: with 503 if the request is given up, its client has gone, or an allocation fails
/// while the response is read, and with 502 otherwise (RFC 9110 sections 15.6.3 and 15.6.4). Writes nothing to the
/// client.
fn forward<N: Names, G: Gate<N>, S: ClientStream, D: Dial>(
    worker: &Worker<G, D>,
    seat: &mut Seat<N>,
    request: &Request,
    dialled: Dialled<D::Stream>,
    client: &mut S,
) -> Result<Response, Reason>
    requires { 0 < seat.old.number }
    ensures status { IfErr result (λ reason. IsGatewayStatus (reason_status reason)) }
    ensures found { IfErr result
        (IsFound (G.gives_up worker.now.gate.now seat.old) ((s : S) × S.gone s)) }
    ensures seat { seat.new ≡ seat.old }
    ensures client { Keeps (S.contents client.old) (S.contents client.new) }
{
    let Dialled { route, stream } = dialled;
    let stream = match stream {
        Ok(stream) => stream,
        Err(error) => return Err(Reason::of_dial(&error)),
    };
    if worker.gate.may_go_on(seat) == GoOn::Cut {
        return Err(Reason::GivenUp);
    }
    let mut upstream = Buffered::new(worker.alloc, stream);
    if let Err(error) = send_request(request, route.port, &mut upstream) {
        return Err(Reason::of_stream(&error));
    }
    receive(worker, seat, request, client, &mut upstream.stream)
}

/// Writes a request and flushes it.
fn send_request<S: Write>(
    request: &Request,
    port: u16,
    upstream: &mut Buffered<S>,
) -> io::Result<()>
    requires { held upstream.old ≡ [] }
    ensures { OnOk result (Appends (S.contents (stream_of upstream.old))
        (S.contents (stream_of upstream.new)) (request_text false request.now port)) }
{
    write_request(request, port, Persistence::Close, upstream)?;
    upstream.flush()
}

/// Why a request ends before its response, if it does: its gate gives it up, or its client has gone.
fn ends_early<N: Names, G: Gate<N>, S: ClientStream>(
    gate: &G,
    seat: &mut Seat<N>,
    client: &mut S,
) -> Option<Reason>
    requires { 0 < seat.old.number }
    ensures status { IfSome result (λ reason. reason_status reason ≡ 503) }
    ensures found { IfSome result
        (IsFound (G.gives_up gate.now seat.old) ((s : S) × S.gone s)) }
    ensures seat { seat.new ≡ seat.old }
    ensures client { Keeps (S.contents client.old) (S.contents client.new) }
{
    if gate.may_go_on(seat) == GoOn::Cut {
        return Some(Reason::GivenUp);
    }
    if client.has_gone() {
        return Some(Reason::ClientGone);
    }
    None
}

/// Reads the response to a request, and asks before each read whether the request ends early. An
/// interrupted read is repeated. The errors are those of `forward`.
fn receive<N: Names, G: Gate<N>, S: ClientStream, D: Dial, R: Read>(
    worker: &Worker<G, D>,
    seat: &mut Seat<N>,
    request: &Request,
    client: &mut S,
    reader: &mut R,
) -> Result<Response, Reason>
    requires { 0 < seat.old.number }
    ensures response { IfOk result (λ response. IfSome (R.remaining reader.old)
        (λ input. ReadsResponse request.now response input)) }
    ensures status { IfErr result (λ reason. IsGatewayStatus (reason_status reason)) }
    ensures found { IfErr result
        (IsFound (G.gives_up worker.now.gate.now seat.old) ((s : S) × S.gone s)) }
    ensures seat { seat.new ≡ seat.old }
    ensures client { Keeps (S.contents client.old) (S.contents client.new) }
{
    if let Some(reason) = ends_early(worker.gate, seat, client) {
        return Err(reason);
    }
    let mut parser = ResponseParser::new(worker.alloc, request);
    let mut piece = [0; FIRST_PIECE];
    match take_piece(reader, &mut parser, &mut piece)? {
        Taken::Whole(response) => Ok(response),
        Taken::More => receive_rest(worker.gate, seat, client, reader, parser),
        Taken::End => end_response(parser),
    }
}

/// Reads the rest of a response, whose first bytes the parser has seen, as `receive` does.
fn receive_rest<N: Names, G: Gate<N>, S: ClientStream, R: Read>(
    gate: &G,
    seat: &mut Seat<N>,
    client: &mut S,
    reader: &mut R,
    mut parser: ResponseParser,
) -> Result<Response, Reason>
    requires number { 0 < seat.old.number }
    requires is_open { IsTrue parser.is_open }
    ensures response { IfOk result (λ response. IfSome (R.remaining reader.old)
        (λ input. ReadsResponse parser.request response (parser.seen ++ input))) }
    ensures status { IfErr result (λ reason. IsGatewayStatus (reason_status reason)) }
    ensures found { IfErr result
        (IsFound (G.gives_up gate.now seat.old) ((s : S) × S.gone s)) }
    ensures seat { seat.new ≡ seat.old }
    ensures client { Keeps (S.contents client.old) (S.contents client.new) }
{
    let mut piece = [0; PIECE];
    for _ in 0..MOST_TURNS {
        if let Some(reason) = ends_early(gate, seat, client) {
            return Err(reason);
        }
        match take_piece(reader, &mut parser, &mut piece)? {
            Taken::Whole(response) => return Ok(response),
            Taken::More => {}
            Taken::End => return end_response(parser),
        }
    }
    Err(Reason::ResponseTimeout)
}

/// Makes one read, and feeds the parser the bytes that came. An interrupted read gives `More`.
fn take_piece<R: Read>(
    reader: &mut R,
    parser: &mut ResponseParser,
    piece: &mut [u8],
) -> Result<Taken, Reason>
    requires is_open { IsTrue parser.old.is_open }
    requires room { 0 < length piece.old }
    ensures taken { IfOk result
        (IsTaken parser.old parser.new (R.remaining reader.old) (R.remaining reader.new)) }
    ensures status { IfErr result (λ reason. IsGatewayStatus (reason_status reason)) }
    ensures found { IfErr result (IsFound ⊥ ⊥) }
    ensures size { length piece.new ≡ length piece.old }
{
    match reader.read(piece) {
        Ok(0) => Ok(Taken::End),
        Ok(count) => match parser.feed(&piece[..count.min(piece.len())]) {
            Ok(Some(response)) => Ok(Taken::Whole(response)),
            Ok(None) => Ok(Taken::More),
            Err(fault) => Err(Reason::of_response(fault)),
        },
        Err(error) => {
            if error.kind() == ErrorKind::Interrupted {
                Ok(Taken::More)
            } else {
                Err(Reason::of_stream(&error))
            }
        }
    }
}

/// The response in an input that ended.
fn end_response(parser: ResponseParser) -> Result<Response, Reason>
    requires { IsTrue parser.is_open }
    ensures response { IfOk result (λ response. ReadsResponse parser.request response parser.seen) }
    ensures status { IfErr result (λ reason. IsGatewayStatus (reason_status reason)) }
    ensures found { IfErr result (IsFound ⊥ ⊥) }
{
    match parser.end() {
        Ok(response) => Ok(response),
        Err(fault) => Err(Reason::of_response(fault)),
    }
}

/// Answers a client with a response. If the client does not take it, the reason is that it has gone.
fn answer<S: Write>(
    request: &Request,
    response: &Response,
    client: &mut Buffered<S>,
) -> ForwardOutcome
    requires { held client.old ≡ [] }
    ensures end { ((result.end ≡ end.Answered response.now.code) × (result.reason ≡ None))
        ⊎ (result.end ≡ end.WriteFailed) }
    ensures reason { IfSome result.reason (λ reason. reason ≡ Reason.ClientGone) }
    ensures wrote { (body : RefusalBody) → WroteLast body (S.contents (stream_of client.old))
        (S.contents (stream_of client.new)) (Ok request.now) result.end }
{
    match send_response(request, response, client) {
        Ok(()) => ForwardOutcome {
            end: End::Answered(response.code),
            reason: None,
        },
        Err(error) => ForwardOutcome {
            end: End::WriteFailed,
            reason: Reason::of_client(&error),
        },
    }
}

/// Writes a response and flushes it.
fn send_response<S: Write>(
    request: &Request,
    response: &Response,
    client: &mut Buffered<S>,
) -> io::Result<()>
    requires { held client.old ≡ [] }
    ensures { OnOk result (Appends (S.contents (stream_of client.old))
        (S.contents (stream_of client.new)) (response_text false request.now response.now)) }
{
    write_response(request, response, Persistence::Close, client)?;
    client.flush()
}

/// Answers a client with a refusal, which has this page or an empty body.
pub(crate) fn refuse<S: Write>(
    status: u16,
    page: Option<RefusalPage>,
    client: &mut Buffered<S>,
) -> End
    requires status { IsTrue (is_refusal status) }
    requires empty { held client.old ≡ [] }
    ensures end { MayBeRefused status result }
    ensures wrote { (body : RefusalBody) (outcome : ReadOutcome) → page ≡ refusal_page body outcome
        → WroteLast body (S.contents (stream_of client.old)) (S.contents (stream_of client.new))
        outcome result }
{
    match send_refusal(status, page, client) {
        Ok(()) => End::Refused(status),
        Err(_) => End::WriteFailed,
    }
}

/// Writes a refusal and flushes it.
fn send_refusal<S: Write>(
    status: u16,
    page: Option<RefusalPage>,
    client: &mut Buffered<S>,
) -> io::Result<()>
    requires status { IsTrue (is_refusal status) }
    requires empty { held client.old ≡ [] }
    ensures { OnOk result (Appends (S.contents (stream_of client.old))
        (S.contents (stream_of client.new)) (refused_text page status)) }
{
    write_refusal_with(status, page, client)?;
    client.flush()
}

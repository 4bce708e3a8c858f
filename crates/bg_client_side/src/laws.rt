//! The laws of a client's connection, over all calls of it.
ghost use Rattle.std.specs.Prelude.{[], List, ℕ};
ghost use Rattle.bg_http.specs.declared.request.Request.{Request};
ghost use Rattle.bg_client_side.specs.Clients.{Client};
ghost use Rattle.bg_client_side.specs.Laws.{GivesTheSequence, GoesForward, IdleHasAnswered, IdleHasNone};
ghost use Rattle.bg_client_side.specs.Laws.{IsAnsweredOnce, IsWrittenInSequence, LeavesByAnswer, PassesOnAlone, StaysLeft};
ghost use Rattle.bg_client_side.specs.Runs.{ClientCall};
ghost use Rattle.bg_client_side.specs.declared.facts.ClientSettings.{ClientSettings};

/// What was written to a connection, and what is left of the answer at hand, are in their sequence the answers that were
/// given for this connection. A response that is passed on is such an answer: its bytes are given as they are written, and
/// the rest of it with its end. A part of an answer is cut off only if the connection has left.
pub fn answers_are_written_in_sequence()
    ensures { (calls : List ClientCall) (old new : Client) → IsWrittenInSequence old calls new }
{}

/// Each request of a connection, and each refusal, is answered once; a response that is cut counts as an answer. Only a
/// request that waits or is inside, or a refusal that is to be given, is not yet answered; and one of them never is, if the
/// connection has left.
pub fn each_request_is_answered_once()
    ensures { (calls : List ClientCall) (old new : Client) → IsAnsweredOnce old calls new }
{}

/// The pair of the number of answered requests and the stage only grows, in the order of pairs.
pub fn a_connection_goes_forward()
    ensures { (calls : List ClientCall) (old new : Client) → GoesForward old calls new }
{}

/// A connection that has left stays so, reads no request and writes nothing. One whose request is inside leaves only by the
/// answer to that request, or as its response is cut.
pub fn a_connection_leaves_once()
    ensures stays { (calls : List ClientCall) (old new : Client) → StaysLeft old calls new }
    ensures inside { (old new : Client) (call : ClientCall) → LeavesByAnswer old call new }
{}

/// While a response is passed on, nothing else is written, no byte is read, and no request becomes whole. The response is
/// passed on until it is answered or cut, and what its head told of the connection stays.
pub fn a_response_is_passed_on_alone()
    ensures { (calls : List ClientCall) (old new : Client) → PassesOnAlone old calls new }
{}

/// An idle connection has no request that waits or is inside, so it holds no seat, and it has answered all that came to it.
pub fn an_idle_connection_has_no_request()
    ensures none { (c : Client) → IdleHasNone c }
    ensures answered { (settings : ClientSettings) (now : ℕ) (calls : List ClientCall) (new : Client)
        → IdleHasAnswered settings now calls new }
{}

/// The requests of a connection are the sequence of the bytes that came, in whatever pieces they came. This holds of a
/// connection that was accepted, with no request and no byte, and all calls keep it while the connection may go on.
pub fn the_requests_are_those_of_the_bytes()
    ensures { (calls : List ClientCall) (old new : Client) (requests : List Request) (came : List ℕ)
        → GivesTheSequence old calls new requests came }
{
    bg_http_read::laws::a_stream_gives_the_sequence();
}

//! The laws of a response that is passed on, for every input and output that it stands for.
ghost use Rattle.std.specs.Prelude.{List, ℕ, Option};
ghost use Rattle.bg_http.specs.declared.request.Request.{Request};
ghost use Rattle.bg_streams.specs.Laws.{Always, BeginsAnswer, GivesAnswer, GivesHead, GivesNoBody, IsClosedInHead, IsDrainedAnswer, KeepsLimit, WaitsShortly};
ghost use Rattle.bg_streams.specs.declared.passing.Passing.{Passing};
ghost use Rattle.bg_streams.specs.declared.response_relay.ResponseRelay.{ResponseRelay};

/// At every moment, also after a cut, what was written and what is to be written is the text of the head, and then a front of the
/// body that the input has: nothing is added, nothing is lost, and the order is kept. A reader of the output, whatever follows it,
/// reads a body that begins with these bytes.
pub fn a_client_gets_the_head_and_a_front_of_the_body()
    ensures { Always BeginsAnswer }
{
    bg_relay::laws::what_was_passed_on_begins_the_body();
}

/// Once the response is whole, the input is its heads and one body, and what was written and is to be written is the text of the
/// head and the same body in the framing of the output. A reader of the output reads this body, and leaves nothing.
pub fn a_client_gets_the_whole_body()
    ensures { Always GivesAnswer }
{
    bg_relay::laws::a_whole_body_is_passed_on();
}

/// Before the response is whole, and for ever after a cut, what was written and is to be written ends before the end of a body, if
/// the framing of the output has an end of its own. In the framing that goes to the end of the connection each output is a body: so
/// the caller resets that connection.
pub fn a_cut_response_has_no_end()
    ensures { Always GivesNoBody }
{
    bg_relay::laws::a_part_is_no_body();
}

/// Of a body in chunks, with its chunk lines and trailers, and of one that goes to the end of the input, at most as many bytes are
/// taken as the terms allow. A head that tells a greater length is refused.
pub fn a_body_is_taken_within_its_limit()
    ensures { Always KeepsLimit }
{
    bg_relay::laws::no_more_is_taken_than_the_limit();
}

/// Whatever follows the text of the head, a client reads it as the head that was written, and then what follows. If the body is in
/// chunks, it judges the head as one of a chunked body.
pub fn a_client_reads_the_head_as_it_was_written()
    ensures { Always GivesHead }
{
    bg_http_read::laws::a_client_reads_the_head_that_was_written();
}

/// A connection that is drained carried one response, and nothing behind it: whatever follows, the parser of `bg_http_read` reads
/// this response, and then what follows, if the body is within the limit of that parser. So the responses on a connection that
/// goes back are its sequence (`a_drained_connection_continues_its_sequence` of `bg_http_read`).
pub fn a_drained_connection_carried_the_response()
    ensures { Always IsDrainedAnswer }
{
    bg_relay::laws::a_whole_body_is_passed_on();
    bg_http_read::laws::a_limit_refuses_only_a_longer_body();
}

/// If there is room, fewer than 16,384 bytes are not taken. So a buffer of 16,384 bytes is enough to feed a relay.
pub fn what_waits_is_short()
    ensures { (passing : Option Passing) (bytes : List ℕ) → WaitsShortly passing bytes }
{
    bg_relay::laws::what_waits_is_short();
}

/// An input that ends before the head of the response is whole has the fault Closed, as `read_response` gives it.
pub fn an_input_that_ends_in_a_head_is_closed()
    ensures { (relay : ResponseRelay) (request : Request) (input written bytes : List ℕ)
        → IsClosedInHead relay request input written bytes }
{}

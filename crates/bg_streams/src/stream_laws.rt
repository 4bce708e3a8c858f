//! The laws of a response that is passed on with the bytes that wait, for all bytes that came and that the client took.
ghost use Rattle.std.specs.Prelude.{List, ℕ};
ghost use Rattle.bg_http.specs.declared.request.Request.{Request};
ghost use Rattle.bg_streams.specs.Laws.{BeginsAnswer, GivesAnswer, GivesNoBody, KeepsLimit};
ghost use Rattle.bg_streams.specs.ResponseStreams.{AlwaysOnStreams, DrainsWhole, WaitsShortly};
ghost use Rattle.bg_streams.specs.declared.passing.Passing.{Passing};
ghost use Rattle.bg_streams.specs.declared.response_stream.ResponseStream.{ResponseStream};

/// What the client took and is still to take is the text of the head, and then a front of the body that came. Once the response is
/// whole, it is the text of the head and the whole body. No more of a body is taken than its limit allows.
pub fn a_client_takes_the_head_and_the_body()
    ensures front { AlwaysOnStreams BeginsAnswer }
    ensures whole { AlwaysOnStreams GivesAnswer }
    ensures cut { AlwaysOnStreams GivesNoBody }
    ensures limit { AlwaysOnStreams KeepsLimit }
{
    crate::laws::a_client_gets_the_head_and_a_front_of_the_body();
    crate::laws::a_client_gets_the_whole_body();
    crate::laws::a_cut_response_has_no_end();
    crate::laws::a_body_is_taken_within_its_limit();
}

/// A connection that is drained carried the one response that came, and nothing behind it.
pub fn a_drained_stream_carried_the_response()
    ensures { (stream : ResponseStream) (passing : Passing) (request : Request) (came passed : List ℕ)
        → DrainsWhole stream passing request came passed }
{
    crate::laws::a_drained_connection_carried_the_response();
}

/// While a stream wants input, fewer than 16,384 bytes wait. So if its caller gives it pieces of at most P bytes, and only while it
/// wants input, at most 16,383 + P bytes wait ever.
pub fn what_waits_is_short()
    ensures { (stream : ResponseStream) (request : Request) (came passed : List ℕ)
        → WaitsShortly stream request came passed }
{
    crate::laws::what_waits_is_short();
}

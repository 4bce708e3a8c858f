//! The laws of the endpoints' side, for every request and every connection.
ghost use Rattle.std.specs.Prelude.{Bool, List, ℕ};
ghost use Rattle.bg_http.specs.declared.request.Request.{Request};
ghost use Rattle.bg_http.specs.declared.response.Response.{Response};
ghost use Rattle.bg_endpoint_side.specs.Dialing.{Dialing, Forwarded};
ghost use Rattle.bg_endpoint_side.specs.KeptLists.{Kept};
ghost use Rattle.bg_endpoint_side.specs.KeptRuns.{KeptCall, LosesNone};
ghost use Rattle.bg_endpoint_side.specs.Laws.{Continues, GoesBackDrained, ReadsAlike, RepeatsOnlySafely};
ghost use Rattle.bg_endpoint_side.specs.Laws.{StaysOnNew, StreamGoesBackDrained, TextBegins, TextStays};
ghost use Rattle.bg_endpoint_side.specs.Streaming.{Streamed};

/// What was written of a text and what is left of it are the text, in its order, whatever happens on the connection. A new
/// connection, and one that was kept, begins with nothing written and no byte that came; a request that is sent again has
/// its whole text.
pub fn a_text_is_written_in_its_order()
    ensures begins { (is_kept : Bool) (d : Dialing) (now : ℕ) → TextBegins is_kept d now }
    ensures stays { (f : Forwarded) (bytes : List ℕ) (count now : ℕ) → TextStays f bytes count now }
{}

/// A connection goes back for another request only if the whole text was written, the response ended where the bytes that
/// came ended, it began with the version that keeps a connection, and neither side ends the connection.
pub fn a_connection_goes_back_drained()
    ensures { (f : Forwarded) (came left : List ℕ) (response : Response) → GoesBackDrained f came left response }
{}

/// A connection whose response is passed on goes back only if the same holds. All bytes that came on it are that response, as the
/// parser of `bg_http_read` reads it, if its body is within the limit of that parser.
pub fn a_streamed_connection_goes_back_drained()
    ensures { (s : Streamed) (passed : List ℕ) → StreamGoesBackDrained s passed }
{
    bg_streams::stream_laws::a_drained_stream_carried_the_response();
}

/// The responses on a connection that goes back are those to its requests, one for each, in their order: no byte of one
/// response is read as a part of another one.
pub fn a_connection_that_goes_back_continues_its_sequence()
    ensures { (requests : List Request) (responses : List Response) (before : List ℕ) (f : Forwarded)
        (came left : List ℕ) (response : Response) → Continues requests responses before f came left response }
{
    bg_http_read::laws::a_drained_connection_continues_its_sequence();
}

/// A request is sent again only after a connection that was kept, on which no byte of a response came, and only if its
/// method is idempotent or nothing of it was written (RFC 9110 section 9.2.2, RFC 9112 section 9.3.1). It is on a new
/// connection then, and a request on a new connection is not sent again.
pub fn a_request_is_sent_again_at_most_once()
    ensures safely { (f : Forwarded) (now : ℕ) → RepeatsOnlySafely f now }
    ensures once { (f : Forwarded) → StaysOnNew f }
{}

/// Of a request, only whether its method is HEAD decides how its response is read. So its caller may lend
/// `DialingRequest::new` another request for which this is the same, such as one that outlives it.
pub fn the_method_decides_how_a_response_is_read()
    ensures { (one other : Request) (input : List ℕ) (response : Response) (rest : List ℕ)
        → ReadsAlike one other input response rest }
{}

/// No connection that is kept is lost, and none is given twice. Over all calls of a `KeptConnections`, a key that was there
/// or was put is there at the end, or was given, as often. Its caller puts no connection that is there.
pub fn no_kept_connection_is_lost()
    ensures { (key : ℕ) (calls : List KeptCall) (old new : Kept) → LosesNone old calls new key }
{}

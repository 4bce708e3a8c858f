//! The laws of reading, for every input: of the faults, of the ends of messages, and of the messages
//! of a connection.
ghost use Rattle.std.specs.Prelude.{Bool, List, ℕ, [], ◌++◌};
ghost use Rattle.bg_http.specs.Elements.{Field};
ghost use Rattle.bg_http.specs.declared.body_end.BodyEnd.{BodyEnd};
ghost use Rattle.bg_http.specs.declared.request.Request.{Request};
ghost use Rattle.bg_http.specs.declared.request.RequestHead.{RequestHead};
ghost use Rattle.bg_http.specs.declared.request_fault.RequestFault.{RequestFault};
ghost use Rattle.bg_http.specs.declared.request_rules.Framing.{Framing};
ghost use Rattle.bg_http.specs.declared.response.Response.{Response};
ghost use Rattle.bg_http.specs.declared.response.ResponseHead.{ResponseHead};
ghost use Rattle.bg_http.specs.declared.response_fault.ResponseFault.{ResponseFault};
ghost use Rattle.bg_http.specs.declared.response_rules.ResponseFraming.{ResponseFraming};
ghost use Rattle.bg_http_read.specs.AnsweredRequests.{Answering, AreReadAsAnswered};
ghost use Rattle.bg_http_read.specs.FramedHeads.{IsJudgedAsFramed, IsJudgedWithin, IsReadBeforeBody};
ghost use Rattle.bg_http_read.specs.ForwardedRequests.{AreReadAsForwarded, Forwarding, via_field};
ghost use Rattle.bg_http_read.specs.Laws.{HasOneFault, HasOneResponseFault, StaysAtFault};
ghost use Rattle.bg_http_read.specs.Laws.{RequestExcludesFaults, ResponseExcludesFaults};
ghost use Rattle.bg_http_read.specs.PlainHeads.{HasOneHead, HasPlainRequestFields, HasPlainResponseFields};
ghost use Rattle.bg_http_read.specs.PlainHeads.{IsPlainField, IsPlainOfWords, IsReadWithFields, IsResponseReadWithFields};
ghost use Rattle.bg_http_read.specs.PlainHeads.{NeverHasHeadAt};
ghost use Rattle.bg_http_read.specs.RequestStates.{FailsAsked};
ghost use Rattle.bg_http_read.specs.Requests.{ReadsRequest, RequestFails};
ghost use Rattle.bg_http_read.specs.ResponseHeads.{AreHeadsAlso};
ghost use Rattle.bg_http_read.specs.Responses.{ReadsResponseThen};
ghost use Rattle.bg_http_read.specs.Sequences.{AddsRequest, AddsResponse, AreRequestsOf, AreResponsesOf};
ghost use Rattle.bg_http_read.specs.Sequences.{HasOneEnd, HasOneSequence, HasOneSequenceOfAnswers};
ghost use Rattle.bg_http_read.specs.Sequences.{WaitsBehind};
ghost use Rattle.bg_http_read.specs.WrittenHeads.{IsJudgedInChunks, IsReadAsWritten};

/// An input that begins with a request has no faults other than those of reading, writing and
/// allocation.
pub fn a_request_has_no_fault()
    ensures { (input rest : List ℕ) (request : Request) (fault : RequestFault)
        → RequestExcludesFaults input rest request fault }
{}

/// An input has at most one fault of a request, apart from faults of reading, writing and
/// allocation. There are two exceptions: an input of which the end, or the end of the first 16,384
/// bytes, lies within the target of the head, and which cannot become a request, because its target
/// is not UTF-8; and an input that ends within trailers of which more than 64 are begun. `httparse`
/// does not specify when it checks either.
pub fn a_request_has_one_fault()
    ensures { (input : List ℕ) (one other : RequestFault) → HasOneFault input one other }
{}

/// A fault of a request other than Closed holds for every continuation of the input. So no
/// continuation of it is a request, unless it is a fault of reading, writing or allocation.
pub fn a_fault_stays()
    ensures { (input more : List ℕ) (fault : RequestFault) → StaysAtFault input more fault }
{}

/// An input that begins with the response to a request has no faults other than those of reading
/// and allocation.
pub fn a_response_has_no_fault()
    ensures { (request : Request) (input : List ℕ) (response : Response) (fault : ResponseFault)
        → ResponseExcludesFaults request input response fault }
{}

/// An input has at most one fault of the response to a request, apart from faults of reading and
/// allocation. The exception is an input that ends within trailers of which more than 64 are begun.
pub fn a_response_has_one_fault()
    ensures { (request : Request) (input : List ℕ) (one other : ResponseFault)
        → HasOneResponseFault request input one other }
{}

/// An input begins with at most one head of a response, whatever follows: a head that is complete is the head of each continuation,
/// and what is left behind it is what was left, and then what follows. An input whose head is malformed or too large begins with no
/// head, whatever follows.
pub fn an_input_has_one_head()
    ensures one { (input more : List ℕ) (head other : ResponseHead) (rest left : List ℕ)
        → HasOneHead input more head other rest left }
    ensures none { (input more : List ℕ) (fault : ResponseFault) (head : ResponseHead) (rest : List ℕ)
        → NeverHasHeadAt input more fault head rest }
{}

/// The fields of each head that is read are plain (`IsPlainField`), whatever the white space around their values was.
pub fn a_head_has_plain_fields()
    ensures requests { (input : List ℕ) (head : RequestHead) (rest : List ℕ)
        → HasPlainRequestFields input head rest }
    ensures responses { (input : List ℕ) (head : ResponseHead) (rest : List ℕ)
        → HasPlainResponseFields input head rest }
{}

/// The fields that are written here are plain: the Via of a request that is forwarded, and each field whose name and value are
/// letters and digits.
pub fn written_fields_are_plain()
    ensures via { (request : Request) → IsPlainField (via_field request) }
    ensures words { (name value : List ℕ) → IsPlainOfWords name value }
{}

/// A head that was read, and is written in version 1.1 with any plain fields in place of its own, is read as it is written, whatever
/// follows: as exactly this head, and as no other, and then what follows. The code of a response is at least 100, since it is
/// written without zeros at its front.
pub fn a_head_with_plain_fields_is_read_as_it_is_written()
    ensures requests { (input : List ℕ) (head : RequestHead) (rest : List ℕ) (fields : List Field) (more : List ℕ)
        → IsReadWithFields input head rest fields more }
    ensures responses { (input : List ℕ) (head : ResponseHead) (rest : List ℕ) (fields : List Field) (more : List ℕ)
        → IsResponseReadWithFields input head rest fields more }
{}

/// An input begins with at most one request, and the request has one end.
pub fn a_request_has_one_end()
    ensures { (input : List ℕ) (one other : Request) (rest left : List ℕ)
        → HasOneEnd ReadsRequest input one other rest left }
{}

/// An input begins with at most one response to a request, and the response has one end. Interim
/// responses before it are a part of what is read.
pub fn a_response_has_one_end()
    ensures { (request : Request) (input : List ℕ) (one other : Response) (rest left : List ℕ)
        → HasOneEnd (ReadsResponseThen request) input one other rest left }
{}

/// A connection has one sequence of requests, each from the byte after the end of the one before: of
/// two sequences that its bytes begin with, the one that is not longer begins the other, and what is
/// left behind it is the rest of the other. So two sequences that are as long as each other are
/// equal, and so are the bytes behind them.
pub fn a_connection_has_one_sequence()
    ensures { (some all : List Request) (input rest left : List ℕ)
        → HasOneSequence ReadsRequest some all input rest left }
{}

/// The requests that a `RequestStream` gives are the sequence of the bytes that came, in whatever
/// pieces they came. This holds before the first byte; bytes that come keep it; and a request that
/// the stream gives makes the sequence longer by one.
pub fn a_stream_gives_the_sequence()
    ensures first { AreRequestsOf [] [] [] }
    ensures bytes { (requests : List Request) (came since more : List ℕ)
        → AreRequestsOf requests came since → AreRequestsOf requests (came ++ more) (since ++ more) }
    ensures request { (asked : Bool) (requests : List Request) (request : Request)
        (came since left : List ℕ) → AddsRequest asked requests request came since left }
{}

/// A fault that a parser or a stream gives at the end of its input, whether `100 Continue` was asked
/// for or not, is one that `read_request` gives for the same bytes. So the end of a connection means
/// one thing, in whatever pieces its bytes came: no fault of the input if they begin with a request
/// (`a_request_has_no_fault`), and otherwise at most one (`a_request_has_one_fault`).
pub fn the_end_gives_a_fault_of_the_input()
    ensures { (asked : Bool) (input : List ℕ) (fault : RequestFault)
        → FailsAsked asked input fault → RequestFails input fault }
{}

/// What waits behind a request is an end of the bytes that came after the parser or stream last said
/// that the request is not complete. So no more bytes wait than came since then.
pub fn what_waits_came_since_more()
    ensures { (asked : Bool) (request : Request) (before fresh left : List ℕ)
        → WaitsBehind asked request before fresh left }
{}

/// The responses to a list of requests are a function of the bytes of their connection.
pub fn a_connection_has_one_sequence_of_responses()
    ensures { (requests : List Request) (one other : List Response) (input rest left : List ℕ)
        → HasOneSequenceOfAnswers ReadsResponseThen requests one other input rest left }
{}

/// The responses that parsers give on a connection are the sequence of its bytes, if each parser but
/// the first begins where nothing is left behind the response before
/// (`ReceivedResponse::is_drained`).
pub fn a_drained_connection_continues_its_sequence()
    ensures first { AreResponsesOf [] [] [] [] }
    ensures response { (requests : List Request) (request : Request) (responses : List Response)
        (response : Response) (came seen left : List ℕ)
        → AddsResponse requests request responses response came seen left }
{}

/// What is written to one connection of an endpoint for a list of requests (`write_request` of
/// bg_http; on a connection that is kept, without the line `Connection: close`) is read, by the
/// grammar and the rules, as exactly these requests as they are forwarded, in order. Each list of
/// requests that it begins with is a front of them, and what is left behind the list is what was
/// written for the others. So no byte of one request is read as a part of another one (RFC 9112
/// section 11.2).
pub fn an_endpoint_reads_the_requests_that_were_forwarded()
    ensures { (port : ℕ) (forwardings : List Forwarding) (others : List Request) (rest : List ℕ)
        → AreReadAsForwarded port forwardings others rest }
{
    bg_http::laws::only_one_length_goes_on();
}

/// What is written of the head of a request before its body is whole (`write_framed_request_head` of bg_http) is read, whatever
/// follows, as exactly this head and as no other, and then what follows: with the fields that are kept, and with the field that tells
/// how the body ends. This holds of a head that was read. If that head passed the rules, the one that is written passes them, and is
/// judged to have the framing in which it was written. A length that is judged so is within its limit.
pub fn an_endpoint_reads_the_head_before_a_body()
    ensures head { (keeps : Bool) (named : Framing) (request : Request) (port : ℕ) (input rest more : List ℕ)
        → IsReadBeforeBody keeps named request port input rest more }
    ensures framing { (keeps : Bool) (named : Framing) (request : Request) (port own : ℕ) (came : Framing) (most : ℕ)
        → IsJudgedAsFramed keeps named request port own came most }
    ensures within { (most : ℕ) (head : RequestHead) (named : Framing) → IsJudgedWithin most head named }
{
    bg_http::laws::only_one_length_goes_on();
}

/// Heads that are judged within one limit on the length of the body are judged so within every other
/// one that their length keeps. So a response that was passed on under any limit is one that the
/// parser of whole responses reads, if its body is within the limit of that parser.
pub fn a_limit_refuses_only_a_longer_body()
    ensures { (most other : ℕ) (request : Request) (input : List ℕ) (head : ResponseHead)
        (named : ResponseFraming) → AreHeadsAlso most other request input head named }
{}

/// What is written of the head of a response before its body is whole (`write_response_head` of bg_http) is read, whatever
/// follows, as exactly this head, and then what follows: with the fields that are kept, and with the field that tells how the body
/// ends. This holds of a head that was read, with the length of its body or the one that it gives (`IsLengthOf`). Before chunks, the head that is read is judged as
/// one of a chunked body, unless the response has none.
pub fn a_client_reads_the_head_that_was_written()
    ensures head { (keeps : Bool) (named : BodyEnd) (request : Request) (response : Response) (more : List ℕ)
        → IsReadAsWritten keeps named request response more }
    ensures chunks { (keeps : Bool) (request : Request) (response : Response)
        → IsJudgedInChunks keeps request response }
{
    bg_http::laws::only_one_length_goes_on();
}

/// What is written to one client for its requests (`write_response`, `write_refusal` and
/// `write_error_page` of bg_http, with `100 Continue` before an answer or without it; on a connection
/// that is kept, a response has no line `Connection: close`) is read, by the grammar and the rules, as
/// exactly these answers, in order, and as no other list of responses to these requests; and nothing
/// is left behind them. So no byte of one answer is read as a part of another one.
pub fn a_client_reads_the_answers_that_were_written()
    ensures { (answerings : List Answering) (others : List Response) (rest : List ℕ)
        → AreReadAsAnswered answerings others rest }
{
    bg_http::laws::only_one_length_goes_on();
}

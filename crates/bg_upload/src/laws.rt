//! The laws of a request that is passed on as it comes.
ghost use Rattle.std.specs.Prelude.{List, ℕ};
ghost use Rattle.bg_upload.specs.Laws.{HasNoEnd, IsReadAsItself, IsWholeRequest, SendsFront};
ghost use Rattle.bg_upload.specs.declared.large_request.LargeRequest.{LargeRequest};

use crate::outgoing_request::OutgoingRequest;

/// At every moment, also after a fault, what was written to the endpoint, and what is to be written, is the text of the head, and then
/// a front of the body that came from the client: nothing is added, nothing is lost, and the order is kept. A reader of it, whatever
/// follows, reads a body that begins with these bytes.
pub fn an_endpoint_gets_a_front_of_the_body(request: &OutgoingRequest)
    ensures { SendsFront request.now }
{
    request.is_sound();
    bg_relay::laws::what_was_passed_on_begins_the_body();
}

/// Once the request is whole, what came of it begins with one body, and what was written and is to be written is the text of the head
/// and this body. A reader of it reads this body, and leaves nothing.
pub fn a_whole_request_has_its_body(request: &OutgoingRequest)
    ensures { IsWholeRequest request.now }
{
    request.is_sound();
    bg_relay::laws::a_whole_body_is_passed_on();
}

/// Before the request is whole, and for ever after its body was cut off or had a fault, what was written and is to be written ends
/// before the end of a body. So its endpoint can tell that it has no whole request, whatever follows.
pub fn a_cut_request_has_no_end(request: &OutgoingRequest)
    ensures { HasNoEnd request.now }
{
    request.is_sound();
    bg_relay::laws::a_part_is_no_body();
}

/// The head of a large request, as it is written to its endpoint, is read there, whatever follows, as exactly this head and as no other:
/// with the fields that are kept and the one that tells how the body ends. It passes the rules, and is judged to have the framing of
/// the body that is written behind it. So the endpoint reads the body where it begins, and to its end.
pub fn an_endpoint_reads_the_head()
    ensures { (most : ℕ) (bytes : List ℕ) (large : LargeRequest) (port : ℕ) (more : List ℕ)
        → IsReadAsItself most bytes large port more }
{
    bg_http_read::laws::an_endpoint_reads_the_head_before_a_body();
}

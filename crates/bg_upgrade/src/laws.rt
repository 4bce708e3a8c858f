//! The laws of upgrades, for every request and for all bytes of an endpoint.
ghost use Rattle.std.specs.Prelude.{Bool, List, ℕ, codes};
ghost use Rattle.bg_http.specs.Elements.{Field};
ghost use Rattle.bg_http.specs.Laws.{StaysHere};
ghost use Rattle.bg_http.specs.declared.request.Request.{Request};
ghost use Rattle.bg_http.specs.declared.response.ResponseHead.{ResponseHead};
ghost use Rattle.bg_upgrade.specs.Laws.{AcceptanceTakesAsked, DiffersAtEnd, HasOneAnswer, IsDecidedByHead, IsNoResponse};
ghost use Rattle.bg_upgrade.specs.Laws.{IsReadAsAcceptance, IsReadAsUpgrade, SpeaksOf, StaysWhereNamed, StillAccepts, StillAsks};
ghost use Rattle.bg_upgrade.specs.SentHeads.{fields_to_client, fields_to_endpoint};
ghost use Rattle.bg_upgrade.specs.declared.acceptance.Acceptance.{Acceptance};

/// No Upgrade field is kept in an ordinary request or response. So such a field is forwarded only by `upgrade_text`, which gives a
/// text only for a request that asks for an upgrade, and by `acceptance_text`.
pub fn only_an_upgrade_says_upgrade()
    ensures { (fields : List Field) → StaysHere fields (codes "upgrade") }
{
    bg_http::laws::fields_of_one_connection_stay();
}

/// The head of an upgrade is the one that `write_request_head` of bg_http writes on a connection that is kept, but for the lines
/// Upgrade and Connection before its empty line.
pub fn an_upgrade_differs_at_its_end()
    ensures { (request : Request) (port : ℕ) → DiffersAtEnd request port }
{}

/// Of the fields that came, no field that an element of a Connection field names is forwarded with an upgrade, except Host and
/// Upgrade (RFC 9110 section 7.6.1).
pub fn named_fields_stay()
    ensures { (fields : List Field) (name : List ℕ) → StaysWhereNamed fields name }
{
    bg_http::laws::named_fields_stay();
}

/// What is written of a request that was read and asks for an upgrade is read by the endpoint, whatever follows, as this head and
/// as no other, and then what follows. Its fields name the protocols that the request named, in order; its Connection names Upgrade
/// and nothing else; it has neither Content-Length nor Transfer-Encoding, so it has no body (RFC 9112 section 6.3); and it asks for
/// an upgrade.
pub fn an_endpoint_reads_the_upgrade()
    ensures head { (request : Request) (more : List ℕ) → IsReadAsUpgrade request more }
    ensures fields { (request : Request) → SpeaksOf request.fields (fields_to_endpoint request) }
    ensures asks { (request : Request) → StillAsks request }
{
    bg_http::laws::fields_of_one_connection_stay();
    bg_http_read::laws::a_head_has_plain_fields();
    bg_http_read::laws::written_fields_are_plain();
    bg_http_read::laws::a_head_with_plain_fields_is_read_as_it_is_written();
}

/// What is written of a head that accepts an upgrade is read by the client, whatever follows, as this head and as no other, and
/// then what follows. Its fields name the protocols that the endpoint named, in order; its Connection names Upgrade and nothing
/// else; it has neither Content-Length nor Transfer-Encoding; and it accepts the upgrade.
pub fn a_client_reads_the_acceptance()
    ensures head { (request : Request) (bytes : List ℕ) (head : ResponseHead) (rest more : List ℕ)
        → IsReadAsAcceptance request bytes head rest more }
    ensures fields { (head : ResponseHead) → SpeaksOf head.fields (fields_to_client head) }
    ensures accepts { (request : Request) (head : ResponseHead) → StillAccepts request head }
{
    bg_http::laws::fields_of_one_connection_stay();
    bg_http_read::laws::a_head_has_plain_fields();
    bg_http_read::laws::written_fields_are_plain();
    bg_http_read::laws::a_head_with_plain_fields_is_read_as_it_is_written();
}

/// Nothing but a 101 of the endpoint is an acceptance: its Connection names Upgrade, it names a protocol, and the request named each
/// protocol that it names (RFC 9110 section 7.8).
pub fn an_acceptance_takes_a_protocol_that_was_asked()
    ensures { (request : Request) (bytes : List ℕ) (head : ResponseHead) (taken : ℕ)
        → AcceptanceTakesAsked request bytes head taken }
{}

/// The rules of ordinary responses refuse each head that accepts an upgrade. So no bytes are both an acceptance and an ordinary
/// response.
pub fn an_acceptance_is_no_response()
    ensures { (most : ℕ) (to_head : Bool) (request : Request) (head : ResponseHead)
        → IsNoResponse most to_head request head }
{}

/// Bytes that begin with a complete head within the limits have one answer: an acceptance of exactly this head, with its length, if
/// the head accepts the upgrade, and otherwise `Other`. In bytes without a complete head, `More` and `Other` can both be right: both
/// hold of a head that has begun with the code 200.
pub fn a_head_has_one_answer()
    ensures { (request : Request) (bytes : List ℕ) (head : ResponseHead) (rest : List ℕ) (found : Acceptance)
        → HasOneAnswer request bytes head rest found }
{
    bg_http_read::laws::an_input_has_one_head();
}

/// An acceptance is decided by the bytes of its head alone. Whatever follows them, the answer is the same, and the bytes behind the
/// length that it gives are exactly what follows. So each byte of the endpoint belongs either to the head or to the other protocol.
pub fn an_acceptance_is_decided_by_its_head()
    ensures { (request : Request) (bytes : List ℕ) (head : ResponseHead) (taken : ℕ) (behind : List ℕ)
        → IsDecidedByHead request bytes head taken behind }
{}

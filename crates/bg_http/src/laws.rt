//! The laws of the rules and of the writers, for every message.
ghost use Rattle.std.specs.Prelude.{List, ℕ, codes};
ghost use Rattle.bg_http.specs.Elements.{Field};
ghost use Rattle.bg_http.specs.Laws.{IsFramedOnce, StaysHere, StaysIfOfConnection, StaysWhereNamed};
ghost use Rattle.bg_http.specs.declared.request.RequestHead.{RequestHead};
ghost use Rattle.bg_http.specs.declared.request_rules.Framing.{Framing};

/// A request that `judge_request` accepts never has both Transfer-Encoding and Content-Length.
pub fn framed_once()
    ensures { (head : RequestHead) (framing : Framing) → IsFramedOnce head framing }
{}

/// No field that concerns one connection only, or the end of a body, is forwarded: none of that name, in any case of its letters
/// (RFC 9110 section 7.6.1). These are Connection, Keep-Alive, Proxy-Connection, TE, Transfer-Encoding, Upgrade, Trailer and
/// Content-Length.
pub fn fields_of_one_connection_stay()
    ensures { (fields : List Field) (field : Field) → StaysIfOfConnection fields field }
{}

/// No field that gives the end of a body is forwarded, and no Connection field. So the only such
/// fields are those that the writers write.
pub fn only_one_length_goes_on()
    ensures codings { (fields : List Field) → StaysHere fields (codes "transfer-encoding") }
    ensures lengths { (fields : List Field) → StaysHere fields (codes "content-length") }
    ensures connections { (fields : List Field) → StaysHere fields (codes "connection") }
{
    fields_of_one_connection_stay();
}

/// No field that an element of a Connection field names is forwarded, except Host (RFC 9110 section
/// 7.6.1).
pub fn named_fields_stay()
    ensures { (fields : List Field) (name : List ℕ) → StaysWhereNamed fields name }
{}

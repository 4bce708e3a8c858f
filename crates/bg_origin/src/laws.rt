//! The laws of the fields that tell where a request comes from, for every request.
ghost use Rattle.std.specs.Prelude.{Bool, List, Option, ℕ};
ghost use Rattle.std.specs.declared.net.ip_addr.IpAddr.{IpAddr};
ghost use Rattle.bg_http.specs.Elements.{Field};
ghost use Rattle.bg_origin.specs.Laws.{AllAreForwarded, TellsNothing};

/// All fields of [`crate::origin_fields`] are forwarded: no Connection field of the client takes one of them away.
pub fn all_are_forwarded()
    ensures { (trusts : Bool) (client : Option IpAddr) (id : List ℕ) (fields : List Field) → AllAreForwarded trusts client id fields }
{}

/// If the client is not trusted, none of its own fields tells the endpoint where the request comes from.
pub fn a_client_tells_nothing()
    ensures { (fields : List Field) → TellsNothing fields }
{}

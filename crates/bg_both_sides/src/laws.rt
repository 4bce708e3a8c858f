//! The laws of both sides of a client's connection, over all calls.
ghost use Rattle.std.specs.Prelude.{Bool, List, Option, ℕ};
ghost use Rattle.bg_http.specs.declared.persistence.Persistence.{Persistence};
ghost use Rattle.bg_http.specs.declared.request.Request.{Request};
ghost use Rattle.bg_client_side.specs.declared.facts.ClientSettings.{ClientSettings};
ghost use Rattle.bg_endpoint_side.specs.Dialing.{Dialing, Forwarded};
ghost use Rattle.bg_both_sides.specs.Answers.{Reply};
ghost use Rattle.bg_endpoint_side.specs.Streaming.{Streamed};
ghost use Rattle.bg_both_sides.specs.Laws.{AnswersByItsResponse, BeginsTunnel, GoesBackWhole, GoesElsewhereUnsent, HasNoneWithoutRequest, LosesItsConnection};
ghost use Rattle.bg_both_sides.specs.Laws.{EndsByItsClient, EndsByItsEndpoint, PassesOnItsResponse, StreamGoesBackWhole};
ghost use Rattle.bg_both_sides.specs.Laws.{StreamLosesItsConnection, StreamRepeatsOnlyByRule, StreamsItsRequest, TakenGoesBackWhole, TakenLosesItsConnection};
ghost use Rattle.bg_both_sides.specs.Laws.{RepeatsOnce, RepeatsOnlyByRule, RunsItsClient, SendsItsRequest, WritesItsAnswers};
ghost use Rattle.bg_both_sides.specs.Runs.{EndpointEvent, SidesCall};
ghost use Rattle.bg_both_sides.specs.Sides.{Sides};
ghost use Rattle.bg_both_sides.specs.StreamedEvents.{Telling};
ghost use Rattle.bg_both_sides.specs.declared.endpoint_step.Ending.{Ending};
ghost use Rattle.bg_both_sides.specs.declared.endpoint_step.EndpointStep.{EndpointStep};
ghost use Rattle.bg_both_sides.specs.declared.route.Route.{Route};
ghost use Rattle.bg_both_sides.specs.declared.upgrading.Upgraded.{Upgraded};

/// All calls make calls of the client's connection alone, so each law of bg_client_side holds of it; and the two
/// sides stay together: a request is at an endpoint only while it is inside, with the text in which it is forwarded.
pub fn the_clients_side_runs()
    ensures { (calls : List SidesCall) (old new : Sides) → RunsItsClient old calls new }
{
    bg_endpoint_side::laws::a_text_is_written_in_its_order();
}

/// What was written to the client, and what is left of the answer at hand, are in their sequence the texts of the answers
/// that were given. A part of an answer is cut off only if the connection has left.
pub fn answers_are_written_in_sequence()
    ensures { (calls : List SidesCall) (old new : Sides) → WritesItsAnswers old calls new }
{
    bg_client_side::laws::answers_are_written_in_sequence();
    bg_endpoint_side::laws::a_text_is_written_in_its_order();
}

/// The answer to a request whose response was read is the text of what the bytes that came on its own connection to an
/// endpoint are read as, or a refusal.
pub fn each_answer_is_that_of_its_request()
    ensures { (old new : Sides) (bytes : List ℕ) (now : ℕ) (step : EndpointStep) (reply : Reply)
        → AnswersByItsResponse old bytes now step reply new }
{}

/// What was written to the connection of a request is the beginning of the text of that request as it is forwarded, and the
/// whole of it if the connection goes back. What came on it is what came since it became the request's.
pub fn an_endpoint_gets_its_request()
    ensures text { (settings : ClientSettings) (now : ℕ) (calls : List SidesCall) (new : Sides) (request : Request)
        (forwarded : Forwarded) → SendsItsRequest settings now calls new request forwarded }
    ensures whole { (old new : Sides) (event : EndpointEvent) (now : ℕ) (ending : Ending) (reply : Option Reply)
        → GoesBackWhole old event now ending reply new }
{
    bg_endpoint_side::laws::a_text_is_written_in_its_order();
    bg_endpoint_side::laws::a_connection_goes_back_drained();
}

/// A response that is passed on is that of its own request: it stands for all bytes that came on the connection since that became the
/// request's, and for all bytes that the client took of it. So the laws of bg_streams hold of it. The connection got the beginning of
/// the text of that request. What is given as the rest of a response is what is left of a whole one, behind what the client took.
pub fn a_response_is_passed_on_to_its_request()
    ensures text { (settings : ClientSettings) (now : ℕ) (calls : List SidesCall) (new : Sides) (request : Request)
        (streamed : Streamed) → StreamsItsRequest settings now calls new request streamed }
    ensures response { (settings : ClientSettings) (now : ℕ) (calls : List SidesCall) (new : Sides) (request : Request)
        (streamed : Streamed) → PassesOnItsResponse settings now calls new request streamed }
    ensures endpoint { (settings : ClientSettings) (now : ℕ) (calls : List SidesCall) (old : Sides) (event : EndpointEvent) (at : ℕ)
        (told : EndpointStep) (text : List ℕ) (weight : ℕ) (persistence : Persistence) (new : Sides)
        → EndsByItsEndpoint settings now calls old event at told text weight persistence new }
    ensures client { (settings : ClientSettings) (now : ℕ) (calls : List SidesCall) (old : Sides) (bytes : List ℕ) (at : ℕ)
        (told : EndpointStep) (text : List ℕ) (weight : ℕ) (persistence : Persistence) (new : Sides)
        → EndsByItsClient settings now calls old bytes at told text weight persistence new }
{
    bg_endpoint_side::laws::a_text_is_written_in_its_order();
}

/// The connection of a request whose response is passed on goes back only after the whole text of that request was written to it.
pub fn a_streamed_connection_goes_back_whole()
    ensures endpoint { (old new : Sides) (event : EndpointEvent) (now : ℕ) (ending : Ending) (telling : Telling)
        → StreamGoesBackWhole old event now ending telling new }
    ensures client { (old new : Sides) (bytes : List ℕ) (now : ℕ) (ending : Ending) (telling : Telling)
        → TakenGoesBackWhole old bytes now ending telling new }
{}

/// A connection to an endpoint belongs to a request that is inside. A request that is answered has none, and so has a
/// client's connection that is idle or has left.
pub fn a_connection_belongs_to_a_request()
    ensures inside { (settings : ClientSettings) (now : ℕ) (calls : List SidesCall) (new : Sides)
        → HasNoneWithoutRequest settings now calls new }
    ensures answered { (old new : Sides) (event : EndpointEvent) (now : ℕ) (ending : Ending) (reply : Option Reply)
        → LosesItsConnection old event now ending reply new }
    ensures streamed { (old new : Sides) (event : EndpointEvent) (now : ℕ) (ending : Ending) (telling : Telling)
        → StreamLosesItsConnection old event now ending telling new }
    ensures taken { (old new : Sides) (passed : Bool) (bytes : List ℕ) (now : ℕ) (ending : Ending) (telling : Telling)
        → TakenLosesItsConnection old passed bytes now ending telling new }
{
    bg_endpoint_side::laws::a_text_is_written_in_its_order();
}

/// A request is sent again at most once, and only by the rule of bg_endpoint_side.
pub fn a_request_is_sent_again_at_most_once()
    ensures once { (calls : List SidesCall) (old new : Sides) → RepeatsOnce old calls new }
    ensures rule { (old new : Sides) (event : EndpointEvent) (now : ℕ) (reply : Option Reply)
        → RepeatsOnlyByRule old event now reply new }
    ensures streamed_rule { (old new : Sides) (event : EndpointEvent) (now : ℕ) (telling : Telling)
        → StreamRepeatsOnlyByRule old event now telling new }
{}

/// A request is dialled for at another endpoint only if no byte of it was written to any.
pub fn a_request_goes_elsewhere_unsent()
    ensures { (settings : ClientSettings) (now : ℕ) (calls : List SidesCall) (old : Sides) (request : Request)
        (dialing : Dialing) (route : Route) (at : ℕ) (new : Sides)
        → GoesElsewhereUnsent settings now calls old request dialing route at new }
{}

/// A tunnel begins only after its endpoint has accepted an upgrade that the client asked for. The whole request was written to its
/// connection, as one that asks for an upgrade, and nothing else. All bytes that came there begin with a response 101 that accepts
/// the upgrade, and the client gets that head as it is forwarded, and then each byte behind it. No byte of the client behind its
/// request was written to the endpoint before, and the tunnel begins with all of them.
pub fn a_tunnel_follows_an_acceptance()
    ensures { (settings : ClientSettings) (now : ℕ) (calls : List SidesCall) (old : Sides) (bytes : List ℕ) (at weight : ℕ)
        (upgraded : Upgraded) (new : Sides) → BeginsTunnel settings now calls old bytes at weight upgraded new }
{
    bg_endpoint_side::laws::a_text_is_written_in_its_order();
}

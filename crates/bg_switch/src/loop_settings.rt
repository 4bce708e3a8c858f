//! The settings of the event loops of a port.
ghost use Rattle.std.specs.Prelude.{◌≡◌, ◌*◌, ◌<◌, ◌^◌, if◌then◌else◌, IfSome, None, Some, is_some, true, unwrap_or};
ghost use Rattle.bg_command_line.specs.MessageTimeout.{seconds_of};
ghost use Rattle.bg_switch.specs.StreamLimits.{AreStreamLimits, AreUploadLimits};

use crate::context::ServeContext;
use bg_both_sides::StreamLimits;
use bg_client_side::ClientSettings;
use bg_command_line::{KeepAlive, MessageTimeout, ServeSettings};
use bg_endpoint_side::Timeouts;
use bg_endpoints::ResponseTimeout;
use bg_event_loop::{EndpointSettings, KeptSettings, LoopSettings, OriginSettings, UploadSettings};
use bg_load::LoadSettings;
use bg_ports::bounds_of;
use bg_revisions::Service;

/// How many bytes of a response may wait for a client before no more are read from the endpoint, and of a request the other way round.
const STREAM_WINDOW: usize = 65_536;

/// How many bytes of a request are held before it is passed on, if the words do not say so.
const USUAL_BUFFER: u32 = 65_536;

/// The settings of the event loops of a port. The bounds are those of the port. The gate is asked whether requests go on if the
/// strategy has a drain limit.
pub fn settings_of<R>(context: &ServeContext<R>, service: Service) -> LoopSettings
    ensures drains { result.limits_drains ≡ is_some context.now.strategy.now.drain_limit }
    ensures address { result.endpoints.address ≡ context.now.words.now.endpoint_address }
    ensures stream { is_some result.endpoints.stream ≡ context.now.words.now.stream }
    ensures limits { IfSome result.endpoints.stream (AreStreamLimits context.now.words.now.max_response_body) }
    ensures uploads { is_some result.endpoints.uploads ≡ context.now.words.now.stream }
    ensures upload_limits { IfSome result.endpoints.uploads (AreUploadLimits context.now.words.now.buffer
        context.now.words.now.max_request_body context.now.words.now.max_response_body) }
    ensures arriving { result.clients.keeps_arriving ≡ context.now.words.now.stream }
    ensures duration { context.now.words.now.stream ≡ true → result.endpoints.timeouts.response ≡ 18446744073709551615 }
    ensures silence { context.now.words.now.stream ≡ true → seconds_of context.now.timeout < 2 ^ 32
        → result.endpoints.timeouts.idle ≡ unwrap_or context.now.words.now.silence (seconds_of context.now.timeout) * 1000 }
    ensures upgrades { is_some result.endpoints.tunnel_millis ≡ context.now.words.now.upgrade }
    ensures tunnels { seconds_of context.now.timeout < 2 ^ 32 → IfSome result.endpoints.tunnel_millis
        (λ millis. millis ≡ unwrap_or context.now.words.now.silence (seconds_of context.now.timeout) * 1000) }
    ensures origin { result.origin ≡ (if context.now.words.now.forwarded then Some (record {
      trusts_clients = context.now.words.now.trust_forwarded;
      run = context.now.run;
      number_offset = context.now.number_offset;
    }) else None) }
    ensures grace { result.grace_millis ≡ context.now.words.now.shutdown_grace * 1000 }
    ensures closing { result.closing_millis ≡ context.now.words.now.shutdown_timeout * 1000 }
{
    let usual = kept_or_closed(context, service).with_refusal_body(context.refusal_body);
    let bounds = bounds_of(context.words, context.loops);
    LoopSettings {
        clients: ClientSettings {
            request_millis: millis(context.timeout.seconds()),
            keeps_arriving: context.words.stream,
            ..usual.clients
        },
        endpoints: EndpointSettings {
            address: context.words.endpoint_address,
            timeouts: timeouts_of(context.timeout, context.words.silence, context.words.stream),
            stream: stream_limits(context.words.stream, context.words.max_response_body),
            uploads: upload_settings(context.words),
            tunnel_millis: tunnel_millis(context),
            ..usual.endpoints
        },
        origin: origin_of(context),
        loads: LoadSettings {
            loops: u64::from(context.loops.of_service(service)),
            ..bounds
        },
        most_waiting: bounds.connections as usize,
        aborts_on_close: context.words.abort_on_close,
        limits_drains: context.strategy.drain_limit.is_some(),
        grace_millis: millis(u64::from(context.words.shutdown_grace)),
        closing_millis: millis(u64::from(context.words.shutdown_timeout)),
        ..usual
    }
}

/// How requests tell their endpoints where they come from, if the words say so.
fn origin_of<R>(context: &ServeContext<R>) -> Option<OriginSettings>
    ensures { result ≡ (if context.now.words.now.forwarded then Some (record {
      trusts_clients = context.now.words.now.trust_forwarded;
      run = context.now.run;
      number_offset = context.now.number_offset;
    }) else None) }
{
    if !context.words.forwarded {
        return None;
    }
    Some(OriginSettings {
        trusts_clients: context.words.trust_forwarded,
        run: context.run,
        number_offset: context.number_offset,
    })
}

/// The limits of responses that are passed on as they come, if they are. Without a limit their bodies may have any length.
fn stream_limits(is_streamed: bool, most_body: Option<u64>) -> Option<StreamLimits>
    ensures stream { is_some result ≡ is_streamed }
    ensures limits { IfSome result (AreStreamLimits most_body) }
{
    if !is_streamed {
        return None;
    }
    Some(StreamLimits {
        window: STREAM_WINDOW,
        most_body: most_bytes(most_body),
    })
}

/// The limits of requests that are passed on before they are whole, and of their responses, if they are. Without a limit their bodies
/// may have any length.
fn upload_settings(words: &ServeSettings<'_>) -> Option<UploadSettings>
    ensures uploads { is_some result ≡ words.now.stream }
    ensures limits { IfSome result (AreUploadLimits words.now.buffer words.now.max_request_body words.now.max_response_body) }
{
    if !words.stream {
        return None;
    }
    Some(UploadSettings {
        most_held: words.buffer.unwrap_or(USUAL_BUFFER) as usize,
        most_body: most_bytes(words.max_request_body),
        window: STREAM_WINDOW,
        most_response: most_bytes(words.max_response_body),
    })
}

/// The most bytes of a body, any number of 64 bits if the words do not say it.
fn most_bytes(most: Option<u64>) -> usize
    ensures { result ≡ unwrap_or most 18446744073709551615 }
{
    most.unwrap_or(u64::MAX) as usize
}

/// The time for which a tunnel may be silent; `None` if no upgrade is passed on.
fn tunnel_millis<R>(context: &ServeContext<R>) -> Option<u64>
    ensures upgrades { is_some result ≡ context.now.words.now.upgrade }
    ensures millis { seconds_of context.now.timeout < 2 ^ 32 → IfSome result
        (λ millis. millis ≡ unwrap_or context.now.words.now.silence (seconds_of context.now.timeout) * 1000) }
{
    if !context.words.upgrade {
        return None;
    }
    Some(millis(silence_seconds(context.timeout, context.words.silence)))
}

/// The usual settings of a service, with connections that are kept if the words say so.
fn kept_or_closed<R>(context: &ServeContext<R>, service: Service) -> LoopSettings {
    let usual = LoopSettings::usual(service);
    match context.words.keep_alive {
        Some(keep_alive) => usual.with_kept_connections(kept_settings(
            keep_alive,
            most_kept_endpoints(context, service),
        )),
        None => usual,
    }
}

/// The settings of connections that are kept, of which so many are to endpoints.
fn kept_settings(keep_alive: KeepAlive, most_endpoints: usize) -> KeptSettings
    ensures { result ≡ record {
      most_requests = keep_alive.requests;
      client_millis = keep_alive.seconds * 1000;
      most_endpoints = most_endpoints;
      endpoint_millis = keep_alive.endpoint_seconds * 1000;
    } }
{
    KeptSettings {
        most_requests: u64::from(keep_alive.requests),
        client_millis: millis(u64::from(keep_alive.seconds)),
        most_endpoints,
        endpoint_millis: millis(u64::from(keep_alive.endpoint_seconds)),
    }
}

/// The most connections to endpoints that a loop keeps without a request: all loops together have about as many as requests may
/// be inside, and each has at least one.
fn most_kept_endpoints<R>(context: &ServeContext<R>, service: Service) -> usize {
    let requests = match service {
        Service::Active => u32::from(context.words.workers),
        Service::Preview => context.previews,
    };
    (requests / context.loops.of_service(service).max(1)).max(1) as usize
}

/// The timeouts of a request at its endpoint. Of a response that is passed on as it comes, only silence is limited: it may last
/// for any time.
fn timeouts_of(timeout: MessageTimeout, silence: Option<u16>, is_streamed: bool) -> Timeouts
    ensures response { is_streamed ≡ true → result.response ≡ 18446744073709551615 }
    ensures idle { is_streamed ≡ true → seconds_of timeout < 2 ^ 32
        → result.idle ≡ unwrap_or silence (seconds_of timeout) * 1000 }
{
    if is_streamed {
        return Timeouts {
            response: u64::MAX,
            idle: millis(silence_seconds(timeout, silence)),
        };
    }
    let response = ResponseTimeout {
        seconds: timeout.seconds(),
        is_given: matches!(timeout, MessageTimeout::Given(_)),
    };
    Timeouts {
        response: millis(response.seconds),
        idle: millis(response.idle_seconds()),
    }
}

/// For how many seconds an endpoint may be silent whose response is passed on as it comes.
fn silence_seconds(timeout: MessageTimeout, silence: Option<u16>) -> u64
    ensures value { result ≡ unwrap_or silence (seconds_of timeout) }
    ensures range { seconds_of timeout < 2 ^ 32 → result < 2 ^ 32 }
{
    match silence {
        Some(seconds) => u64::from(seconds),
        None => timeout.seconds(),
    }
}

fn millis(seconds: u64) -> u64
    ensures { seconds < 2 ^ 32 → result ≡ seconds * 1000 }
{
    seconds.saturating_mul(1_000)
}

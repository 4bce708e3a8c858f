//! Runs of a few calls, each with the answers that follow from RFC 9110 section 7.8 and from the rules of a tunnel.

use crate::peer::Peer;
use crate::tunnel::{Tunnel, WINDOW};
use crate::tunnel_end::TunnelEnd;
use std::alloc::{AllocError, Global};

/// A call, with what it is to give.
enum Step {
    /// These bytes come from a peer, at a moment.
    Feed(Peer, &'static [u8], u64),
    /// As many bytes as this come from a peer, at moment 0.
    FeedMany(Peer, usize),
    /// A peer takes so many bytes, at a moment.
    Take(Peer, usize, u64),
    EndInput(Peer),
    NoteShut(Peer),
    Fail(Peer),
    Look(u64),
    /// These bytes are to be written to a peer.
    Rest(Peer, &'static [u8]),
    WantsInput(Peer, bool),
    IsToShut(Peer, bool),
    IsShut(Peer, bool),
    Passed(Peer, u64),
    Ending(Option<TunnelEnd>),
}

struct Run {
    name: &'static str,
    steps: &'static [Step],
}

/// The timeout of each tunnel. The client has sent `ping` behind its request, and the endpoint `101` as its head.
const TIMEOUT_MILLIS: u64 = 1_000;

fn feed_many(alloc: Global, tunnel: &mut Tunnel, peer: Peer, count: usize) -> bool {
    let Ok(bytes) = vec![in alloc; 0u8; count] else {
        return false;
    };
    tunnel.feed(peer, &bytes, 0).is_ok()
}

fn rest_is(tunnel: &Tunnel, peer: Peer, bytes: &[u8]) -> bool {
    tunnel.rest(peer) == bytes
}

/// Makes a call, and returns whether it gives what it is to give.
fn holds(alloc: Global, tunnel: &mut Tunnel, step: &Step) -> bool {
    match step {
        Step::Feed(peer, bytes, now) => return tunnel.feed(*peer, bytes, *now).is_ok(),
        Step::FeedMany(peer, count) => return feed_many(alloc, tunnel, *peer, *count),
        Step::Take(peer, count, now) => tunnel.took(*peer, *count, *now),
        Step::EndInput(peer) => tunnel.end_input(*peer),
        Step::NoteShut(peer) => tunnel.note_shut(*peer),
        Step::Fail(peer) => tunnel.fail(*peer),
        Step::Look(now) => tunnel.look(*now),
        Step::Rest(peer, bytes) => return rest_is(tunnel, *peer, bytes),
        Step::WantsInput(peer, wants) => return tunnel.wants_input(*peer) == *wants,
        Step::IsToShut(peer, is_to_shut) => return tunnel.is_to_shut(*peer) == *is_to_shut,
        Step::IsShut(peer, is_shut) => return tunnel.is_shut(*peer) == *is_shut,
        Step::Passed(peer, count) => return tunnel.passed(*peer) == *count,
        Step::Ending(ending) => {
            return tunnel.ending() == *ending && tunnel.is_over() == ending.is_some();
        }
    }
    true
}

/// A tunnel at moment 0.
fn begin(alloc: Global) -> Result<Tunnel, AllocError> {
    let for_endpoint = Vec::from_slice(alloc, b"ping")?;
    let for_client = Vec::from_slice(alloc, b"101")?;
    Ok(Tunnel::new(alloc, for_endpoint, for_client, TIMEOUT_MILLIS, 0))
}

/// The name of the first run with a call that gives something else than it is to give, and the number of this call.
fn first_wrong(alloc: Global, runs: &[Run]) -> Result<Option<(&'static str, usize)>, AllocError> {
    for run in runs {
        let mut tunnel = begin(alloc)?;
        for (number, step) in run.steps.iter().enumerate() {
            if !holds(alloc, &mut tunnel, step) {
                return Ok(Some((run.name, number)));
            }
        }
    }
    Ok(None)
}

static RUNS: [Run; 4] = [
    Run {
        name: "both directions, and both ends",
        steps: &[
            Step::Rest(Peer::Endpoint, b"ping"),
            Step::Rest(Peer::Client, b"101"),
            Step::Take(Peer::Client, 3, 1),
            Step::Take(Peer::Endpoint, 2, 1),
            Step::Feed(Peer::Client, b"!", 2),
            Step::Rest(Peer::Endpoint, b"ng!"),
            Step::Feed(Peer::Endpoint, b"pong", 3),
            Step::EndInput(Peer::Endpoint),
            Step::Feed(Peer::Endpoint, b"late", 4),
            Step::IsToShut(Peer::Client, false),
            Step::WantsInput(Peer::Endpoint, false),
            Step::WantsInput(Peer::Client, true),
            Step::NoteShut(Peer::Client),
            Step::Take(Peer::Client, 9, 5),
            Step::IsToShut(Peer::Client, true),
            Step::IsShut(Peer::Client, false),
            Step::NoteShut(Peer::Client),
            Step::IsToShut(Peer::Client, false),
            Step::IsShut(Peer::Client, true),
            Step::IsShut(Peer::Endpoint, false),
            Step::Ending(None),
            Step::EndInput(Peer::Client),
            Step::Take(Peer::Endpoint, 3, 6),
            Step::IsToShut(Peer::Endpoint, true),
            Step::NoteShut(Peer::Endpoint),
            Step::Ending(Some(TunnelEnd::Whole)),
            Step::Passed(Peer::Client, 7),
            Step::Passed(Peer::Endpoint, 5),
            Step::Fail(Peer::Client),
            Step::Ending(Some(TunnelEnd::Whole)),
        ],
    },
    Run {
        name: "a peer that takes nothing",
        steps: &[
            Step::FeedMany(Peer::Client, WINDOW - 5),
            Step::WantsInput(Peer::Client, true),
            Step::FeedMany(Peer::Client, 1),
            Step::WantsInput(Peer::Client, false),
            Step::WantsInput(Peer::Endpoint, true),
            Step::Take(Peer::Endpoint, 1, 0),
            Step::WantsInput(Peer::Client, true),
            Step::Passed(Peer::Endpoint, 1),
        ],
    },
    Run {
        name: "a failure",
        steps: &[
            Step::Fail(Peer::Endpoint),
            Step::Ending(Some(TunnelEnd::Failed(Peer::Endpoint))),
            Step::Rest(Peer::Client, b""),
            Step::WantsInput(Peer::Client, false),
            Step::Feed(Peer::Client, b"more", 1),
            Step::Take(Peer::Endpoint, 4, 1),
            Step::Passed(Peer::Endpoint, 0),
            Step::EndInput(Peer::Client),
            Step::IsToShut(Peer::Endpoint, false),
            Step::Look(5_000),
            Step::Ending(Some(TunnelEnd::Failed(Peer::Endpoint))),
        ],
    },
    Run {
        name: "a timeout",
        steps: &[
            Step::Feed(Peer::Client, b"a", 600),
            Step::Look(1_599),
            Step::Ending(None),
            Step::Take(Peer::Client, 1, 1_500),
            Step::Feed(Peer::Endpoint, b"", 2_000),
            Step::EndInput(Peer::Endpoint),
            Step::Look(2_499),
            Step::Ending(None),
            Step::Look(2_500),
            Step::Ending(Some(TunnelEnd::Silent)),
        ],
    },
];

#[test]
fn runs_give_what_follows_from_the_rules(rt: HostRuntime) {
    assert_eq!(rt; first_wrong(rt.alloc(), &RUNS), Ok(None));
}

//! Each read and write of a connection fails in turn. Each fails only once, so a second try would succeed.

use crate::connections::{SOUND, Setting};
use crate::fakes::{CONTINUE, Pace, STEADY, Uses};
use crate::messages::{
    CHUNKS_ON, EXPECTS, EXPECTS_ANSWERED, EXPECTS_ON, EXPECTS_REFUSED, Expected, ends, expect,
    refusal,
};
use bg_forward::{End, Reason};
use std::alloc::Global;
use std::process::Abort;
use std::sync::Wait;
use std::test::Fail;

/// A connection, and the bytes that are written to its client if nothing fails, and if the endpoint
/// fails.
#[derive(Clone, Copy, Drop)]
struct ExpectedConnection {
    setting: Setting<'static>,
    answered: &'static str,
    refused: &'static str,
    /// The number of bytes that are written to the client before its request enters.
    before: usize,
}

fn expected_connections() -> [ExpectedConnection; 2] {
    let plain = ExpectedConnection {
        setting: SOUND,
        answered: CHUNKS_ON,
        refused: refusal(502),
        before: 0,
    };
    let waiting = ExpectedConnection {
        setting: Setting {
            request: EXPECTS,
            forwarded: EXPECTS_ON,
            ..SOUND
        },
        answered: EXPECTS_ANSWERED,
        refused: EXPECTS_REFUSED,
        before: CONTINUE.len(),
    };
    [plain, waiting]
}

/// A kind of call, one of which fails.
#[derive(Clone, Copy, Debug, Drop)]
enum FailingCall {
    ReadOfClient,
    WriteToClient,
    ReadOfEndpoint,
    WriteToEndpoint,
}

const FAILING_CALLS: [FailingCall; 4] = [
    FailingCall::ReadOfClient,
    FailingCall::WriteToClient,
    FailingCall::ReadOfEndpoint,
    FailingCall::WriteToEndpoint,
];

/// The pace at which the read at this place fails.
fn failing_read(place: u64) -> Pace {
    Pace {
        failing_read: Some(place),
        ..STEADY
    }
}

/// The pace at which the write at this place fails.
fn failing_write(place: u64) -> Pace {
    Pace {
        failing_write: Some(place),
        ..STEADY
    }
}

impl FailingCall {
    /// The connection on which the call at this place fails.
    fn setting(self, sound: &Setting<'static>, place: u64) -> Setting<'static> {
        let (client, endpoint) = match self {
            FailingCall::ReadOfClient => (failing_read(place), sound.endpoint),
            FailingCall::WriteToClient => (failing_write(place), sound.endpoint),
            FailingCall::ReadOfEndpoint => (sound.client, failing_read(place)),
            FailingCall::WriteToEndpoint => (sound.client, failing_write(place)),
        };
        Setting {
            client,
            endpoint,
            ..*sound
        }
    }

    /// The number of such calls.
    fn count(self, client: Uses, endpoint: Uses) -> u64 {
        match self {
            FailingCall::ReadOfClient => client.reads,
            FailingCall::WriteToClient => client.writes,
            FailingCall::ReadOfEndpoint => endpoint.reads,
            FailingCall::WriteToEndpoint => endpoint.writes,
        }
    }
}

/// Whether a connection on which the call at this place fails ends as it should.
fn ends_as_expected<R: Abort + Wait>(
    rt: &R,
    alloc: Global,
    expected: &ExpectedConnection,
    call: FailingCall,
    place: u64,
) -> Result<bool, Fail> {
    let setting = call.setting(&expected.setting, place);
    match call {
        FailingCall::ReadOfClient => {
            let outcome = ends(rt, alloc, &setting, End::ReadFailed, expected.answered)?;
            Ok(
                outcome.client.reads == place.saturating_add(1)
                    && (outcome.written == 0 || outcome.written == expected.before)
                    && !outcome.entered
                    && outcome.dialled == 0,
            )
        }
        FailingCall::WriteToClient => {
            let outcome = ends(rt, alloc, &setting, End::WriteFailed, expected.answered)?;
            // a client that does not take its response has gone
            let reason = if outcome.entered {
                Some(Reason::ClientGone)
            } else {
                None
            };
            Ok(
                outcome.client.writes == place.saturating_add(1)
                    && outcome.written < expected.answered.len()
                    && outcome.reason == reason
                    && outcome.entered == (outcome.written >= expected.before),
            )
        }
        FailingCall::ReadOfEndpoint => {
            let refused = Expected::entered(End::Refused(502), expected.refused);
            let outcome = expect(rt, alloc, &setting, refused)?;
            Ok(outcome.endpoint.reads == place.saturating_add(1) && outcome.forwarded == 1)
        }
        FailingCall::WriteToEndpoint => {
            let refused = Expected::entered(End::Refused(502), expected.refused);
            let outcome = expect(rt, alloc, &setting, refused)?;
            Ok(outcome.endpoint.writes == place.saturating_add(1) && outcome.endpoint.reads == 0)
        }
    }
}

#[test]
fn each_call_fails_once(rt: HostRuntime) -> Result<(), Fail> {
    for expected in expected_connections() {
        let sound = ends(
            &rt,
            rt.alloc(),
            &expected.setting,
            End::Answered(200),
            expected.answered,
        )?;
        for call in FAILING_CALLS {
            let count = call.count(sound.client, sound.endpoint);
            assert!(rt; count > 2);
            for place in 0..count {
                let is_expected = ends_as_expected(&rt, rt.alloc(), &expected, call, place)?;
                assert!(rt; is_expected, "{call:?} {place}");
            }
        }
    }
    Ok(())
}

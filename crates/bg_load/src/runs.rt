//! Runs of a few calls, each with the answers that follow from the rules.

use crate::accept_fault::AcceptFault;
use crate::activity::Activity;
use crate::among::Among;
use crate::loads::Loads;
use crate::settings::LoadSettings;
use crate::totals::Totals;
use std::alloc::Global;

/// A hundred connections over four loops; requests of 8 MiB, and responses of 1 MiB.
const SETTINGS: LoadSettings = LoadSettings {
    loops: 4,
    connections: 100,
    request_bytes: 1 << 23,
    response_bytes: 1 << 20,
};

/// A call, with what it is to give.
enum Step {
    /// A connection is accepted at a key and a moment.
    Accept(usize, u64, Result<(), AcceptFault>),
    /// Connections are accepted at the keys from 0 up to this one, at moment 0.
    AcceptAll(usize),
    /// The connection of a key does this at a moment.
    See(usize, Activity, u64),
    /// Those of the keys from the first up to the second one do.
    SeeAll(usize, usize, Activity, u64),
    Leave(usize),
    /// The connections of the other loops come to this.
    Others(Totals),
    /// `regulate` is called at a moment until it finds nothing; then so many requests are paused.
    Regulate(u64, u64),
    IsPaused(usize, bool),
    HasPaused(bool),
    IsFull(bool),
    IsFullOfResponses(bool),
    ResponsesTakeMoreThan(u64, bool),
    /// The memory of requests, and of those that wait.
    Requests(u64, u64),
    Slowest(Among, u64, Option<usize>),
    StuckFrom(usize, u64, Option<usize>),
    Stalled(u64, Option<usize>),
    StillestResponse(Option<usize>),
    OldestIdle(Option<usize>),
}

struct Run {
    name: &'static str,
    steps: &'static [Step],
}

fn accept_all(loads: &mut Loads, end: usize) -> bool {
    for key in 0..end {
        if loads.accept(key, 0).is_err() {
            return false;
        }
    }
    true
}

fn regulate(loads: &mut Loads, now: u64, paused: u64) -> bool {
    for _ in 0..1_000 {
        if loads.regulate(now).is_none() {
            return loads.totals().paused == paused;
        }
    }
    false
}

/// Makes a call, and returns whether it gives what it is to give.
fn holds(loads: &mut Loads, step: &Step) -> bool {
    match step {
        Step::Accept(key, now, result) => loads.accept(*key, *now) == *result,
        Step::AcceptAll(end) => accept_all(loads, *end),
        Step::See(key, activity, now) => {
            loads.observe(*key, *activity, *now);
            true
        }
        Step::SeeAll(from, end, activity, now) => {
            for key in *from..*end {
                loads.observe(key, *activity, *now);
            }
            true
        }
        Step::Leave(key) => {
            loads.leave(*key);
            true
        }
        Step::Others(others) => {
            loads.note_others(*others);
            true
        }
        Step::Regulate(now, paused) => regulate(loads, *now, *paused),
        Step::IsPaused(key, is_paused) => loads.is_paused(*key) == *is_paused,
        Step::HasPaused(has_paused) => loads.has_paused() == *has_paused,
        Step::IsFull(is_full) => loads.is_full() == *is_full,
        Step::IsFullOfResponses(is_full) => loads.is_full_of_responses() == *is_full,
        Step::ResponsesTakeMoreThan(bytes, more) => {
            loads.responses_take_more_than(*bytes) == *more
        }
        Step::Requests(taken, waiting) => {
            let totals = loads.totals();
            totals.request_bytes == *taken && totals.waiting_bytes == *waiting
        }
        Step::Slowest(among, now, key) => loads.slowest(*among, *now) == *key,
        Step::StuckFrom(from, now, key) => loads.stuck_from(*from, *now) == *key,
        Step::Stalled(now, key) => loads.stalled(*now) == *key,
        Step::StillestResponse(key) => loads.stillest_response() == *key,
        Step::OldestIdle(key) => loads.oldest_idle() == *key,
    }
}

/// The name of the first run with a call that gives something else than it is to give, and the number of this call.
fn first_wrong(alloc: Global, runs: &[Run]) -> Option<(&'static str, usize)> {
    for run in runs {
        let mut loads = Loads::new(alloc, SETTINGS);
        for (number, step) in run.steps.iter().enumerate() {
            if !holds(&mut loads, step) {
                return Some((run.name, number));
            }
        }
    }
    None
}

static RUNS: [Run; 18] = [
    Run {
        name: "a hundred uploads: eight go on, and once they are inside, the next eight",
        steps: &[
            Step::AcceptAll(100),
            Step::SeeAll(0, 100, Activity::Arriving(40_000), 10),
            Step::Requests(8_000_000, 0),
            Step::Regulate(10, 0),
            Step::SeeAll(0, 100, Activity::Arriving(50_000), 20),
            Step::Requests(10_000_000, 0),
            Step::Regulate(20, 92),
            Step::IsPaused(7, false),
            Step::IsPaused(8, true),
            Step::IsPaused(99, true),
            Step::SeeAll(0, 8, Activity::Waiting(50_000), 30),
            Step::Requests(10_000_000, 800_000),
            Step::Regulate(30, 84),
            Step::IsPaused(15, false),
            Step::IsPaused(16, true),
            Step::SeeAll(0, 8, Activity::Inside, 40),
            Step::Regulate(40, 84),
            // until requests take less than 6,291,456 bytes
            Step::SeeAll(8, 37, Activity::Inside, 50),
            Step::Requests(6_300_000, 0),
            Step::Regulate(50, 55),
            Step::See(37, Activity::Inside, 60),
            Step::Requests(6_200_000, 0),
            Step::Regulate(60, 0),
            Step::IsPaused(99, false),
        ],
    },
    Run {
        name: "all are paused while those that wait take more than half",
        steps: &[
            Step::AcceptAll(10),
            Step::SeeAll(0, 3, Activity::Waiting(700_000), 10),
            Step::SeeAll(3, 10, Activity::Arriving(400_000), 10),
            Step::Requests(9_800_000, 4_200_000),
            Step::Regulate(10, 7),
            Step::See(0, Activity::Inside, 20),
            Step::Requests(8_400_000, 2_800_000),
            Step::Regulate(20, 0),
        ],
    },
    Run {
        name: "a small request is never paused, and a pause stays while it is observed",
        steps: &[
            Step::AcceptAll(11),
            Step::SeeAll(0, 9, Activity::Arriving(1_000_000), 10),
            Step::See(9, Activity::Arriving(32_767), 10),
            Step::See(10, Activity::Arriving(32_768), 10),
            Step::Regulate(10, 2),
            Step::IsPaused(8, true),
            Step::IsPaused(9, false),
            Step::IsPaused(10, true),
            Step::See(10, Activity::Arriving(40_000), 20),
            Step::See(10, Activity::Arriving(40_000), 30),
            Step::IsPaused(10, true),
            // a paused request is not slow
            Step::See(9, Activity::Waiting(32_767), 4_000),
            Step::SeeAll(0, 8, Activity::Arriving(1_100_000), 4_000),
            Step::Slowest(Among::All, 5_000, None),
            // another request at the same key begins anew
            Step::See(10, Activity::Arriving(100), 5_000),
            Step::IsPaused(10, false),
        ],
    },
    Run {
        name: "the oldest is that which was accepted first, whatever its key",
        steps: &[
            Step::Accept(20, 0, Ok(())),
            Step::AcceptAll(9),
            Step::SeeAll(0, 9, Activity::Arriving(500_000), 10),
            Step::See(20, Activity::Arriving(500_000), 10),
            Step::Regulate(10, 2),
            Step::IsPaused(20, false),
            Step::IsPaused(6, false),
            Step::IsPaused(7, true),
            Step::Leave(20),
            Step::Regulate(20, 1),
            Step::IsPaused(7, false),
            Step::IsPaused(8, true),
        ],
    },
    Run {
        name: "a further request of a kept connection goes behind those that began before it",
        steps: &[
            Step::AcceptAll(9),
            Step::SeeAll(0, 9, Activity::Arriving(500_000), 10),
            Step::Regulate(10, 1),
            Step::IsPaused(8, true),
            Step::See(0, Activity::Inside, 20),
            Step::See(0, Activity::Idle, 30),
            Step::See(0, Activity::Arriving(500_000), 40),
            Step::Regulate(40, 1),
            Step::IsPaused(8, false),
            Step::IsPaused(0, true),
            // one that goes on arriving keeps its turn
            Step::See(1, Activity::Arriving(600_000), 50),
            Step::Regulate(50, 1),
            Step::IsPaused(1, false),
        ],
    },
    Run {
        name: "a client that is silent, one that drips, and one that sends well",
        steps: &[
            Step::AcceptAll(3),
            Step::Slowest(Among::All, 999, None),
            Step::Slowest(Among::All, 1_000, Some(0)),
            Step::SeeAll(0, 3, Activity::Arriving(100), 500),
            Step::Slowest(Among::All, 2_499, None),
            Step::See(1, Activity::Arriving(200), 2_400),
            Step::See(2, Activity::Arriving(4_196), 2_400),
            Step::Slowest(Among::All, 2_500, Some(0)),
            Step::Leave(0),
            Step::Slowest(Among::All, 2_500, None),
            Step::See(1, Activity::Arriving(300), 4_400),
            Step::Slowest(Among::All, 4_399, None),
            Step::Slowest(Among::All, 4_499, Some(2)),
            Step::See(2, Activity::Arriving(8_292), 4_399),
            Step::Slowest(Among::All, 4_500, Some(1)),
            Step::Slowest(Among::Responses, 4_500, None),
        ],
    },
    Run {
        name: "the client that takes nothing of its response for the longest time",
        steps: &[
            Step::AcceptAll(3),
            Step::See(
                0,
                Activity::Answering {
                    weight: 400_000,
                    written: 0,
                },
                100,
            ),
            Step::See(1, Activity::Lingering { moved: 10 }, 50),
            Step::See(2, Activity::Inside, 0),
            Step::Slowest(Among::Responses, 299, None),
            Step::Slowest(Among::Responses, 300, Some(1)),
            Step::See(1, Activity::Lingering { moved: 131_082 }, 300),
            Step::Slowest(Among::Responses, 349, None),
            Step::Slowest(Among::Responses, 350, Some(0)),
            Step::Slowest(Among::All, 9_000, Some(0)),
        ],
    },
    Run {
        name: "uploads that stand still, while the younger are paused for them",
        steps: &[
            Step::AcceptAll(10),
            Step::SeeAll(0, 10, Activity::Arriving(500_000), 100),
            Step::StuckFrom(0, 9_000, None),
            Step::Stalled(9_000, None),
            Step::Regulate(100, 2),
            Step::See(5, Activity::Arriving(600_000), 200),
            Step::Stalled(949, None),
            Step::Stalled(950, Some(0)),
            Step::StuckFrom(0, 2_099, None),
            Step::StuckFrom(0, 2_100, Some(0)),
            Step::StuckFrom(5, 2_100, Some(6)),
            Step::StuckFrom(9, 2_100, Some(9)),
            Step::StuckFrom(10, 2_100, None),
            Step::Leave(0),
            Step::Stalled(950, Some(1)),
        ],
    },
    Run {
        name: "a full table, and connections that hold seats",
        steps: &[
            Step::AcceptAll(99),
            Step::IsFull(false),
            Step::Accept(200, 0, Ok(())),
            Step::IsFull(true),
            Step::See(3, Activity::Inside, 10),
            Step::IsFull(false),
            Step::See(3, Activity::Idle, 20),
            Step::IsFull(true),
            Step::Leave(200),
            Step::Leave(200),
            Step::IsFull(false),
        ],
    },
    Run {
        name: "responses that take too much",
        steps: &[
            Step::AcceptAll(2),
            Step::See(
                0,
                Activity::Answering {
                    weight: 2_097_153,
                    written: 0,
                },
                10,
            ),
            Step::IsFull(false),
            Step::See(
                1,
                Activity::Answering {
                    weight: 1,
                    written: 0,
                },
                10,
            ),
            Step::IsFull(true),
            Step::See(0, Activity::Lingering { moved: 2_097_153 }, 20),
            Step::IsFull(false),
        ],
    },
    Run {
        name: "the connections of other loops",
        steps: &[
            Step::AcceptAll(40),
            Step::IsFull(false),
            Step::Others(Totals {
                connections: 60,
                ..Totals::NONE
            }),
            Step::IsFull(true),
            Step::Others(Totals {
                connections: 61,
                inside: 2,
                ..Totals::NONE
            }),
            Step::IsFull(false),
            Step::Others(Totals {
                connections: u64::MAX,
                ..Totals::NONE
            }),
            Step::IsFull(true),
            Step::Others(Totals {
                connections: u64::MAX,
                inside: u64::MAX,
                ..Totals::NONE
            }),
            Step::IsFull(false),
        ],
    },
    Run {
        name: "the requests of other loops: the loop lets its own eight oldest go on",
        steps: &[
            Step::AcceptAll(10),
            Step::SeeAll(0, 10, Activity::Arriving(40_000), 10),
            Step::Others(Totals {
                request_bytes: 7_588_608,
                ..Totals::NONE
            }),
            Step::Regulate(10, 0),
            Step::HasPaused(false),
            Step::Others(Totals {
                request_bytes: 7_588_609,
                ..Totals::NONE
            }),
            Step::Regulate(10, 2),
            Step::HasPaused(true),
            Step::IsPaused(7, false),
            Step::IsPaused(8, true),
            // the requests of all loops that wait take more than half
            Step::Others(Totals {
                request_bytes: 7_588_609,
                waiting_bytes: 4_194_305,
                ..Totals::NONE
            }),
            Step::Regulate(10, 10),
            Step::Others(Totals {
                request_bytes: u64::MAX,
                waiting_bytes: 4_194_304,
                ..Totals::NONE
            }),
            Step::Regulate(10, 2),
            Step::Requests(800_000, 0),
            // three quarters
            Step::Others(Totals {
                request_bytes: 5_491_456,
                ..Totals::NONE
            }),
            Step::StuckFrom(0, 2_010, Some(0)),
            Step::Regulate(10, 2),
            Step::Others(Totals {
                request_bytes: 5_491_455,
                ..Totals::NONE
            }),
            Step::StuckFrom(0, 2_010, None),
            // one quarter
            Step::Others(Totals {
                request_bytes: 1_297_153,
                ..Totals::NONE
            }),
            Step::Stalled(760, Some(0)),
            Step::Others(Totals {
                request_bytes: 1_297_152,
                ..Totals::NONE
            }),
            Step::Stalled(760, None),
            Step::Regulate(10, 0),
            Step::HasPaused(false),
        ],
    },
    Run {
        name: "a loop that is stalled gives its own requests up, down to its part of a quarter",
        steps: &[
            Step::AcceptAll(10),
            Step::SeeAll(0, 10, Activity::Arriving(40_000), 10),
            Step::Others(Totals {
                request_bytes: 7_588_609,
                ..Totals::NONE
            }),
            Step::Regulate(10, 2),
            Step::SeeAll(8, 10, Activity::Arriving(0), 10),
            Step::SeeAll(0, 8, Activity::Arriving(32_768), 10),
            Step::Requests(524_288, 0),
            Step::Stalled(760, None),
            Step::See(9, Activity::Arriving(1), 10),
            Step::Stalled(759, None),
            Step::Stalled(760, Some(0)),
        ],
    },
    Run {
        name: "the responses of other loops",
        steps: &[
            Step::AcceptAll(1),
            Step::See(
                0,
                Activity::Answering {
                    weight: 500_000,
                    written: 0,
                },
                10,
            ),
            Step::ResponsesTakeMoreThan(499_999, true),
            Step::ResponsesTakeMoreThan(500_000, false),
            Step::Others(Totals {
                response_bytes: 1_597_153,
                ..Totals::NONE
            }),
            Step::ResponsesTakeMoreThan(2_097_152, true),
            Step::ResponsesTakeMoreThan(2_097_153, false),
            Step::IsFullOfResponses(false),
            Step::IsFull(false),
            Step::Others(Totals {
                response_bytes: 1_597_154,
                ..Totals::NONE
            }),
            Step::IsFullOfResponses(true),
            Step::IsFull(true),
            Step::Others(Totals {
                response_bytes: u64::MAX,
                ..Totals::NONE
            }),
            Step::ResponsesTakeMoreThan(u64::MAX, true),
            Step::IsFullOfResponses(true),
        ],
    },
    Run {
        name: "the response that has made no progress for the longest time, while responses take too much",
        steps: &[
            Step::Others(Totals {
                response_bytes: 697_154,
                ..Totals::NONE
            }),
            Step::AcceptAll(6),
            Step::SeeAll(
                0,
                3,
                Activity::Answering {
                    weight: 400_000,
                    written: 0,
                },
                100,
            ),
            Step::See(3, Activity::Lingering { moved: 0 }, 20),
            Step::See(4, Activity::Idle, 10),
            // 1,897,154 bytes
            Step::StillestResponse(None),
            Step::See(
                5,
                Activity::Answering {
                    weight: 200_000,
                    written: 0,
                },
                90,
            ),
            Step::IsFullOfResponses(true),
            // none is slow
            Step::Slowest(Among::Responses, 110, None),
            Step::StillestResponse(Some(5)),
            Step::See(
                5,
                Activity::Answering {
                    weight: 200_000,
                    written: 131_072,
                },
                110,
            ),
            Step::StillestResponse(Some(0)),
            // fewer bytes are no progress
            Step::See(
                0,
                Activity::Answering {
                    weight: 400_000,
                    written: 131_071,
                },
                120,
            ),
            Step::StillestResponse(Some(0)),
            Step::Leave(0),
            Step::IsFullOfResponses(false),
            Step::StillestResponse(None),
        ],
    },
    Run {
        name: "a loop drops responses down to its part of what all may take",
        steps: &[
            Step::Others(Totals {
                response_bytes: 4_000_000,
                ..Totals::NONE
            }),
            Step::AcceptAll(2),
            Step::See(
                0,
                Activity::Answering {
                    weight: 262_145,
                    written: 0,
                },
                100,
            ),
            Step::See(
                1,
                Activity::Answering {
                    weight: 262_143,
                    written: 0,
                },
                50,
            ),
            Step::IsFullOfResponses(true),
            Step::StillestResponse(None),
            Step::See(
                1,
                Activity::Answering {
                    weight: 262_144,
                    written: 0,
                },
                50,
            ),
            Step::StillestResponse(Some(1)),
            Step::Leave(1),
            Step::StillestResponse(None),
        ],
    },
    Run {
        name: "the connection that has been idle for the longest time",
        steps: &[
            Step::AcceptAll(4),
            Step::OldestIdle(None),
            Step::See(0, Activity::Idle, 30),
            Step::See(1, Activity::Idle, 10),
            Step::See(2, Activity::Idle, 20),
            Step::OldestIdle(Some(1)),
            Step::See(1, Activity::Idle, 40),
            Step::OldestIdle(Some(1)),
            Step::See(1, Activity::Arriving(5), 50),
            Step::OldestIdle(Some(2)),
            Step::See(1, Activity::Idle, 60),
            Step::Leave(2),
            Step::OldestIdle(Some(0)),
        ],
    },
    Run {
        name: "keys that are too great or in use",
        steps: &[
            Step::Accept(1 << 20, 0, Err(AcceptFault::KeyTooGreat)),
            Step::Accept(5, 0, Ok(())),
            Step::Accept(5, 0, Err(AcceptFault::KeyInUse)),
            Step::Leave(5),
            Step::Accept(5, 0, Ok(())),
            Step::See(6, Activity::Idle, 10),
            Step::OldestIdle(None),
        ],
    },
];

#[test]
fn runs_give_what_follows_from_the_rules(rt: HostRuntime) {
    assert_eq!(rt; first_wrong(rt.alloc(), &RUNS), None);
}

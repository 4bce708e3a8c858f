//! Two loops that note what their connections come to.

use crate::loads_of_loops::LoadsOfLoops;
use bg_load::Totals;

/// Three connections, of which one holds a seat, one is paused, and one takes its response.
const THREE: Totals = Totals {
    connections: 3,
    inside: 1,
    request_bytes: 80_000,
    waiting_bytes: 0,
    response_bytes: 500,
    paused: 1,
};

/// Two connections whose requests wait.
const TWO: Totals = Totals {
    connections: 2,
    inside: 0,
    request_bytes: 600,
    waiting_bytes: 600,
    response_bytes: 0,
    paused: 0,
};

#[test]
fn each_loop_is_given_what_the_other_one_has_noted(rt: HostRuntime) {
    let loads = LoadsOfLoops::new();
    assert_eq!(rt; loads.others(Totals::NONE), Totals::NONE);
    loads.note(Totals::NONE, THREE);
    assert_eq!(rt; loads.others(THREE), Totals::NONE);
    assert_eq!(rt; loads.others(Totals::NONE), THREE);
    loads.note(Totals::NONE, TWO);
    assert_eq!(rt; loads.others(THREE), TWO);
    assert_eq!(rt; loads.others(TWO), THREE);
    loads.note(THREE, TWO);
    loads.note(TWO, THREE);
    assert_eq!(rt; loads.others(THREE), TWO);
    assert_eq!(rt; loads.others(TWO), THREE);
    loads.note(THREE, Totals::NONE);
    assert_eq!(rt; loads.others(TWO), Totals::NONE);
    assert_eq!(rt; loads.others(Totals::NONE), TWO);
}

#[test]
fn a_loop_that_has_not_noted_its_connections_is_given_none_of_others(rt: HostRuntime) {
    let loads = LoadsOfLoops::new();
    loads.note(Totals::NONE, TWO);
    assert_eq!(rt;
        loads.others(THREE),
        Totals {
            waiting_bytes: 600,
            ..Totals::NONE
        }
    );
}

//! Which loop is woken for a place that is free.

use crate::admission::Admission;
use bg_sockets::{EpollSet, Watched};
use libc::net::{EPOLLET, EPOLLIN};
use os::EpollEvent;
use std::thread::{Threads, join};

/// The number of requests of each loop that take turns.
const TURNS: u64 = 2_000;

/// The time, in milliseconds, after which nobody ends a wait any more.
const LATE_MILLIS: i32 = 10_000;

/// No event.
const NO_EVENT: EpollEvent = EpollEvent { events: 0, data: 0 };

/// Loops of which all sleep. Those of the numbers 0 to 2 have a request that waits, and that of 2 waits longest but for 0.
fn asleep(rt: &HostRuntime) -> Option<Admission> {
    let admission = Admission::new(rt.alloc(), 1, 4).ok()?;
    for (number, since) in [(0, Some(50)), (1, Some(200)), (2, Some(100)), (3, None)] {
        admission.note_waiting(number, since);
        admission.note_asleep(number, true);
    }
    Some(admission)
}

#[test]
fn the_longest_waiting_loop_is_woken_if_it_sleeps(rt: HostRuntime) {
    let Some(admission) = asleep(&rt) else {
        panic!(rt; "no memory");
    };
    let woken = [
        admission.wake_next(0),
        admission.wake_next(0),
        wake_after(&admission, 2, 0),
        wake_after(&admission, 1, 0),
        admission.wake_next(3),
        admission.wake_next(3),
    ];
    assert_eq!(rt; woken, [Some(2), None, Some(1), None, Some(0), None]);
}

/// Wakes the next loop after the request of a loop waits no more.
fn wake_after(admission: &Admission, entered: usize, number: usize) -> Option<usize> {
    admission.note_waiting(entered, None);
    admission.wake_next(number)
}

#[test]
fn no_loop_is_woken_while_no_place_is_free(rt: HostRuntime) {
    let Some(admission) = asleep(&rt) else {
        panic!(rt; "no memory");
    };
    let enters = admission.enter(0, 50);
    let full = admission.wake_next(0);
    admission.leave(0);
    let freed = admission.wake_next(0);
    assert_eq!(rt; (enters, full, freed), (true, None, Some(2)));
}

#[test]
fn the_signal_of_the_loop_alone_is_posted(rt: HostRuntime) {
    let (Some(admission), Ok(set)) = (asleep(&rt), EpollSet::new()) else {
        panic!(rt; "no memory");
    };
    for number in 0..4 {
        watch(&set, &admission, number);
    }
    let before = posted(&set);
    admission.wake_next(0);
    let first = posted(&set);
    admission.wake_next(0);
    let awake = posted(&set);
    admission.note_asleep(2, true);
    admission.wake_next(0);
    let again = posted(&set);
    assert_eq!(rt;
        [before, first, awake, again],
        [None, Some(2), None, Some(2)]
    );
}

/// Watches the signal of a loop.
fn watch(set: &EpollSet, admission: &Admission, number: usize) {
    if let Some(descriptor) = admission.descriptor(number) {
        let watched = set.add(Watched {
            descriptor,
            events: EPOLLIN | EPOLLET,
            number: number as u64,
        });
        // what is not watched is never posted
        let _ = watched;
    }
}

/// The loop whose signal was posted since the last call, if it is one.
fn posted(set: &EpollSet) -> Option<u64> {
    let mut events = [NO_EVENT; 4];
    if set.wait(&mut events, 0) == 1 {
        Some(events[0].data)
    } else {
        None
    }
}

#[test]
fn a_place_that_is_freed_after_the_last_look_wakes_the_loop(rt: HostRuntime) {
    let Ok(admission) = Admission::new(rt.alloc(), 1, 2) else {
        panic!(rt; "no memory");
    };
    let enters = admission.enter(0, 10);
    admission.note_waiting(1, Some(10));
    let mut woken = None;
    let is_asleep = admission.falls_asleep_unless(1, || {
        let may_enter = admission.may_enter(1, 10);
        admission.leave(0);
        woken = admission.wake_next(0);
        may_enter
    });
    assert_eq!(rt; (enters, is_asleep, woken), (true, true, Some(1)));
}

#[test]
fn a_loop_whose_request_may_enter_stays_awake(rt: HostRuntime) {
    let Ok(admission) = Admission::new(rt.alloc(), 1, 2) else {
        panic!(rt; "no memory");
    };
    admission.note_waiting(1, Some(10));
    let is_asleep = admission.falls_asleep(1, 10);
    let woken = admission.wake_next(0);
    assert_eq!(rt; (is_asleep, woken), (false, None));
}

#[test]
fn no_loop_sleeps_for_good_while_its_request_may_enter(rt: HostRuntime) {
    let Ok(admission) = Admission::new(rt.alloc(), 1, 2) else {
        panic!(rt; "no memory");
    };
    assert_eq!(rt; are_late(&rt, &admission), (false, false));
}

/// Whether each of two loops has waited although nobody ended its wait.
fn are_late<R: Threads + Sync>(rt: &R, admission: &Admission) -> (bool, bool) {
    join(
        rt,
        || takes_turns_late(admission, 0),
        || takes_turns_late(admission, 1),
    )
}

/// Lets the requests of a loop enter and leave, one after the other, until nobody ends a wait. Gives whether that happened.
fn takes_turns_late(admission: &Admission, number: usize) -> bool {
    let Ok(set) = EpollSet::new() else {
        return true;
    };
    watch(&set, admission, number);
    for turn in 0..TURNS {
        admission.note_waiting(number, Some(turn));
        if enters_late(admission, &set, number, turn) {
            return true;
        }
        admission.note_waiting(number, None);
        admission.wake_next(number);
        admission.leave(number);
        admission.wake_next(number);
    }
    false
}

/// Lets a request enter as soon as it may, if nobody fails to end a wait for that. Gives whether somebody does.
fn enters_late(admission: &Admission, set: &EpollSet, number: usize, since: u64) -> bool {
    for _ in 0..u64::MAX {
        if admission.enter(number, since) {
            return false;
        }
        if admission.falls_asleep(number, since) && set.wait(&mut [NO_EVENT; 1], LATE_MILLIS) == 0 {
            return true;
        }
        admission.note_asleep(number, false);
    }
    true
}

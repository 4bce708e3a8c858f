//! Requests that enter, with the answers that follow from the rule.

use crate::admission::Admission;

#[test]
fn the_longest_waiting_enters_first_but_for_the_tolerance(rt: HostRuntime) {
    let Ok(admission) = Admission::new(rt.alloc(), 2, 2) else {
        panic!(rt; "no memory");
    };
    admission.note_waiting(0, Some(100));
    admission.note_waiting(1, Some(121));
    let later_is_refused = !admission.may_enter(1, 121) && !admission.enter(1, 121);
    admission.note_waiting(0, Some(101));
    let later_enters = admission.may_enter(1, 121) && admission.enter(1, 121);
    admission.note_waiting(1, None);
    let first_enters = admission.enter(0, 101);
    admission.note_waiting(0, Some(102));
    let third_is_refused = !admission.may_enter(0, 102) && !admission.enter(0, 102);
    admission.leave(1);
    let third_enters = admission.may_enter(0, 102) && admission.enter(0, 102);
    assert_eq!(rt;
        (later_is_refused, later_enters, first_enters),
        (true, true, true)
    );
    assert_eq!(rt; (third_is_refused, third_enters), (true, true));
}

#[test]
fn a_loop_with_its_share_leaves_a_place_to_one_with_less(rt: HostRuntime) {
    let Ok(admission) = Admission::new(rt.alloc(), 4, 2) else {
        panic!(rt; "no memory");
    };
    admission.note_waiting(0, Some(100));
    let takes_more_than_its_share = (0..3).all(|_| admission.enter(0, 100));
    admission.note_waiting(1, Some(120));
    admission.note_asleep(1, true);
    let leaves_it = !admission.may_enter(0, 100) && !admission.enter(0, 100);
    let woken = admission.wake_next(0);
    let takes_it = admission.enter(1, 120);
    admission.leave(1);
    admission.note_waiting(1, Some(121));
    let has_waited_longer = admission.may_enter(0, 100);
    admission.note_waiting(1, None);
    let takes_what_nobody_wants = admission.enter(0, 100);
    assert_eq!(rt;
        (takes_more_than_its_share, leaves_it, woken, takes_it),
        (true, true, Some(1), true)
    );
    assert_eq!(rt; (has_waited_longer, takes_what_nobody_wants), (true, true));
}

#[test]
fn a_loop_with_its_share_takes_a_place_if_there_is_one_for_each_loop(rt: HostRuntime) {
    let Ok(admission) = Admission::new(rt.alloc(), 4, 2) else {
        panic!(rt; "no memory");
    };
    admission.note_waiting(0, Some(100));
    let takes_its_share = admission.enter(0, 100) && admission.enter(0, 100);
    admission.note_waiting(1, Some(100));
    let takes_one_of_two = admission.may_enter(0, 100) && admission.enter(0, 100);
    let leaves_the_last = !admission.may_enter(0, 100) && !admission.enter(0, 100);
    assert_eq!(rt;
        (takes_its_share, takes_one_of_two, leaves_the_last),
        (true, true, true)
    );
}

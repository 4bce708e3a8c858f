//! Which request of a port enters next.
ghost use Rattle.std.specs.Prelude.{◌≡◌, ◌+◌, ◌/◌, max, nat_le, not};

use crate::longest_waiting::LongestWaiting;
use crate::waiting_loop::{NONE_WAITS, WaitingLoop};
use std::alloc::Global;
use std::io;
use std::os::fd::RawFd;
use std::sync::atomic::{AtomicU64, Ordering};

/// A request may enter before one of another loop that has waited for at most so many milliseconds longer. Without that, each
/// free place would have to wait until the loop whose turn it is has been woken.
const TOLERANCE_MILLIS: u64 = 20;

/// The requests of a port that are inside, and since when those of each loop wait. Moments are milliseconds from the start of
/// the port.
///
/// A loop that is awake looks in each round whether a request of it may enter, so only a loop that sleeps is woken, and the one
/// alone whose request has waited longest. No request waits for good while a place is free, since all steps are in one order
/// (`SeqCst`):
///
/// - Before it sleeps, a loop notes since when its request waits, then that it is asleep, and only then looks whether a place is
///   free ([`Admission::falls_asleep`]). Who frees a place first counts the request less, then reads since when requests wait,
///   and then whether the loop is asleep. So if the loop finds no place, the place is freed later, and who frees it finds the
///   loop asleep.
/// - A loop whose request enters or waits no more, or waits since another moment, looks for the next loop in the same way
///   ([`Admission::wake_next`]). So if several places are free, the loops wake one another in turn, and a loop that found a
///   place free but the request of another loop before its own is woken after that one.
///
/// Each loop has a share of the places, so that loops work side by side: one that has its share leaves a free place to a loop
/// that has less, if the request there began to wait at most 20 milliseconds later, and if fewer places are free than there are
/// loops. Of the loops whose turn it is, the one whose request has waited longest leaves a place only to another of them, so a
/// free place is always left to one that takes it.
#[derive(Drop)]
pub(crate) struct Admission {
    inside: AtomicU64,
    most: u64,
    /// How many of these requests each loop may have before it leaves free places to others.
    share: u64,
    loops: Vec<WaitingLoop>,
}

impl Admission {
    /// No request is inside, and none waits at any of so many loops, which are awake. At most `most` requests may be inside. An
    /// error if a system call or an allocation fails.
    pub(crate) fn new(alloc: Global, most: u64, count: usize) -> io::Result<Admission> {
        let mut loops = Vec::with_capacity(alloc, count)?;
        for _ in 0..count {
            loops.push(WaitingLoop::new()?)?;
        }
        Ok(Admission {
            inside: AtomicU64::new(0),
            most,
            share: share_of(most, count as u64),
            loops,
        })
    }

    /// Notes since when the request waits that has waited longest at the loop of this number, if one waits.
    pub(crate) fn note_waiting(&self, number: usize, since: Option<u64>) {
        if let Some(waiting) = self.loops.get(number) {
            waiting.note_since(since);
        }
    }

    /// Notes that the loop of this number is asleep, unless its request may enter, which waits since this moment. Gives whether
    /// it is asleep.
    pub(crate) fn falls_asleep(&self, number: usize, since: u64) -> bool {
        self.falls_asleep_unless(number, || self.may_enter(number, since))
    }

    /// Notes that the loop of this number is asleep, and only then asks whether its request may enter: so who frees a place after
    /// the answer finds the loop asleep. Gives whether it is asleep: it is not if its request may enter.
    pub(crate) fn falls_asleep_unless<F: FnOnce() -> bool>(
        &self,
        number: usize,
        may_enter: F,
    ) -> bool
        requires { F.pre may_enter }
        ensures { F.post may_enter (not result) }
    {
        self.note_asleep(number, true);
        if may_enter() {
            self.note_asleep(number, false);
            false
        } else {
            true
        }
    }

    /// Notes whether the loop of this number is asleep.
    pub(crate) fn note_asleep(&self, number: usize, is_asleep: bool) {
        if let Some(waiting) = self.loops.get(number) {
            waiting.note_asleep(is_asleep);
        }
    }

    /// The descriptor that is readable after the loop of this number was woken, if there is such a loop.
    pub(crate) fn descriptor(&self, number: usize) -> Option<RawFd> {
        match self.loops.get(number) {
            Some(waiting) => Some(waiting.descriptor()),
            None => None,
        }
    }

    /// Whether a request of the loop of this number may enter now that waits since this moment.
    pub(crate) fn may_enter(&self, number: usize, since: u64) -> bool {
        self.has_place() && self.is_turn_of(number, since)
    }

    /// Counts a request of the loop of this number that enters, if it may.
    pub(crate) fn enter(&self, number: usize, since: u64) -> bool {
        let most = self.most;
        let enters = self.is_turn_of(number, since)
            && self
                .inside
                .fetch_update(Ordering::SeqCst, Ordering::SeqCst, |inside| {
                    if inside < most {
                        inside.checked_add(1)
                    } else {
                        None
                    }
                })
                .is_ok();
        if enters && let Some(entered) = self.loops.get(number) {
            entered.note_entered();
        }
        enters
    }

    /// Counts a request of the loop of this number less.
    pub(crate) fn leave(&self, number: usize) {
        if let Some(left) = self.loops.get(number) {
            left.note_left();
        }
        self.inside.fetch_sub(1, Ordering::SeqCst);
    }

    /// Whether a free place is for a request of this loop that waits since this moment.
    fn is_turn_of(&self, number: usize, since: u64) -> bool {
        is_next(since, self.earliest()) && !self.leaves_place(number, since)
    }

    /// Whether a loop leaves a free place to another one: it has its share of the requests inside, the other one has less, the
    /// request of the other one comes next after its own, which waits since this moment, and there is not a place for each loop.
    fn leaves_place(&self, number: usize, since: u64) -> bool {
        self.loops
            .get(number)
            .is_some_and(|own| own.inside() >= self.share)
            && !self.has_place_for_each()
            && self.loops.iter().enumerate().any(|(other, waiting)| other != number
                && waiting.inside() < self.share
                && is_next(waiting.since(), since))
    }

    /// If fewer than the most requests are inside, looks for the loop whose request may enter next, other than that of this
    /// number, and wakes it if it is asleep. Gives the loop that was woken.
    pub(crate) fn wake_next(&self, number: usize) -> Option<usize> {
        if !self.has_place() {
            return None;
        }
        let next = self.next_loop(number)?;
        if self.loops.get(next)?.wake() {
            Some(next)
        } else {
            None
        }
    }

    /// The loop whose request may enter next, other than that of this number, if a request waits at one: of those whose turn it
    /// is and that have less than their share inside, or else of all, the one whose request has waited longest.
    fn next_loop(&self, number: usize) -> Option<usize> {
        let earliest = self.earliest();
        let mut below_share = LongestWaiting::none(number);
        let mut of_all = LongestWaiting::none(number);
        for (other, waiting) in self.loops.iter().enumerate() {
            let since = waiting.since();
            of_all = of_all.or(other, since);
            if waiting.inside() < self.share && is_next(since, earliest) {
                below_share = below_share.or(other, since);
            }
        }
        below_share.found().or(of_all.found())
    }

    fn has_place(&self) -> bool {
        self.inside.load(Ordering::SeqCst) < self.most
    }

    /// Whether at least as many places are free as there are loops.
    fn has_place_for_each(&self) -> bool {
        self.most.saturating_sub(self.inside.load(Ordering::SeqCst)) >= self.loops.len() as u64
    }

    /// Since when the request waits that has waited longest of all.
    fn earliest(&self) -> u64 {
        let mut earliest = NONE_WAITS;
        for waiting in self.loops.iter() {
            earliest = earliest.min(waiting.since());
        }
        earliest
    }
}

/// Whether a request that waits since a moment may enter before all others: none of them waits longer, but for the tolerance.
fn is_next(since: u64, earliest: u64) -> bool
    ensures { result ≡ nat_le since (earliest + 20) }
{
    since.saturating_sub(earliest) <= TOLERANCE_MILLIS
}

/// The part of a loop in the most requests that may be inside, at least one.
fn share_of(most: u64, loops: u64) -> u64
    ensures { result ≡ max 1 (most / max 1 loops) }
{
    (most / loops.max(1)).max(1)
}

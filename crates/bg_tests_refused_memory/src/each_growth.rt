//! Rows of rows/, played over a book whose growths fail: by a call for each line, and by one run.

use crate::asking::{compare, refuse_all, refuse_none, repeated, say_made, say_refused, show};
use crate::books::{Desk, Opening, Visit, enter, leave, visit_book};
use crate::desks::make_deploy;
use crate::page::Page;
use crate::stop::Stop;
use crate::strategies::{BASE, strategy_of};
use bg_book::{Call, Control, OpenBook, Reply};
use bg_ledger::Names;
use bg_revisions::Service;
use bg_strategy::Strategy;

const BY_CALLS: &str = "each_growth by calls";

const BY_RUN: &str = "each_growth by one run";

const BY_HAND_WITH_PREVIEW: &str =
    "{\"spec\": {\"replicas\": 2, \"strategy\": {\"blueGreen\": {\"activeService\": \"web\", \"autoPromotionEnabled\": false, \"previewService\": \"web-preview\"}}}}";

const REVISION_LIMIT_ONE: &str =
    "{\"spec\": {\"replicas\": 2, \"strategy\": {\"blueGreen\": {\"activeService\": \"web\", \"scaleDownDelayRevisionLimit\": 1}}}}";

const NO_OLD_REVISIONS: &str =
    "{\"spec\": {\"replicas\": 2, \"strategy\": {\"blueGreen\": {\"activeService\": \"web\"}}, \"revisionHistoryLimit\": 0}}";

pub fn make_calls<R: AllocGlobal + Print + Eprint>(rt: &R) -> Result<(), Stop> {
    drains_before_scaling_down(rt)?;
    manual_promotion_with_preview(rt)?;
    revision_limit_one(rt)?;
    removes_when_the_last_request_leaves(rt)
}

fn drains_before_scaling_down<R: AllocGlobal + Print + Eprint>(rt: &R) -> Result<(), Stop> {
    let second = make_deploy(rt, "v2", &[9101, 9102])?;
    let calls = draining(second);
    play(rt, "drains_before_scaling_down", BASE, &calls)
}

/// The row's two requests leave after its last line.
fn manual_promotion_with_preview<R: AllocGlobal + Print + Eprint>(rt: &R) -> Result<(), Stop> {
    let second = make_deploy(rt, "v2", &[9101, 9102])?;
    let calls = [
        available(1),
        Call::Control(second),
        available(2),
        enter(0, Service::Active),
        enter(1, Service::Preview),
        Call::Control(Control::Promote),
        Call::Control(Control::Promote),
        Call::Control(Control::Abort),
        Call::Control(Control::Retry),
        leave(0),
        leave(1),
    ];
    play(
        rt,
        "manual_promotion_with_preview",
        BY_HAND_WITH_PREVIEW,
        &calls,
    )
}

fn revision_limit_one<R: AllocGlobal + Print + Eprint>(rt: &R) -> Result<(), Stop> {
    let second = make_deploy(rt, "v2", &[9101, 9102])?;
    let third = make_deploy(rt, "v3", &[9201, 9202])?;
    let calls = [
        Call::Control(second),
        available(2),
        Call::Control(third),
        available(3),
    ];
    play(rt, "revision_limit_one", REVISION_LIMIT_ONE, &calls)
}

fn removes_when_the_last_request_leaves<R: AllocGlobal + Print + Eprint>(
    rt: &R,
) -> Result<(), Stop> {
    let second = make_deploy(rt, "v2", &[9101, 9102])?;
    let third = make_deploy(rt, "v1", &[9001, 9002])?;
    let [first, entered, deployed, switched, scaled_down, left] = draining(second);
    let calls = [
        first,
        entered,
        deployed,
        switched,
        scaled_down,
        left,
        Call::Control(third),
    ];
    play(
        rt,
        "removes_when_the_last_request_leaves",
        NO_OLD_REVISIONS,
        &calls,
    )
}

/// A request is open at the first revision while the second one takes over, up to its end after the delay.
fn draining(second: Control) -> [Call; 6] {
    [
        available(1),
        enter(0, Service::Active),
        Call::Control(second),
        available(2),
        tick(30),
        leave(0),
    ]
}

/// A revision has both its endpoints.
fn available(revision: u64) -> Call {
    Call::Control(Control::Available { revision, size: 2 })
}

fn tick(moment: u64) -> Call {
    Call::Control(Control::Tick(moment))
}

/// Plays a row by calls, and then by one run. If a growth of the run fails, the run must have the replies and the final
/// state of a run without that call, and another book plays the whole row.
fn play<R: AllocGlobal + Print + Eprint>(
    rt: &R,
    row: &str,
    strategy: &str,
    calls: &[Call],
) -> Result<(), Stop> {
    println!(rt; "{row}")?;
    let strategy = strategy_of(rt, strategy)?;
    let each = play_once(rt, &strategy, &Way::ByCalls(calls))?;
    say_made(rt, BY_CALLS)?;
    each.show(rt)?;
    let run = play_once(rt, &strategy, &Way::ByRuns(calls, &[]))?;
    let run = match run.refused_place() {
        Some(place) => {
            say_refused(rt, BY_RUN)?;
            compare_without(rt, &strategy, calls, place, &run)?;
            play_once(rt, &strategy, &Way::ByRuns(calls, &[]))?
        }
        None => run,
    };
    say_made(rt, BY_RUN)?;
    run.show(rt)
}

/// Writes where a run with a refused call differs from a run without that call.
fn compare_without<R: AllocGlobal + Print + Eprint>(
    rt: &R,
    strategy: &Strategy,
    calls: &[Call],
    place: usize,
    run: &Played,
) -> Result<(), Stop> {
    let (before, from) = calls.split_at(place.min(calls.len()));
    let after = match from.split_first() {
        Some((_refused, after)) => after,
        None => from,
    };
    let without = play_once(rt, strategy, &Way::ByRuns(before, after))?;
    compare(rt, BY_RUN, &without.state, &run.state)?;
    if !run.replies.starts_with(without.replies.as_slice())
        || !run.replies.ends_with(without.later.as_slice())
    {
        println!(rt; "answered otherwise: {BY_RUN}, a call of which was refused")?;
    }
    Ok(())
}

/// How a row is played.
#[derive(Drop)]
enum Way<'a> {
    /// By a call for each line.
    ByCalls(&'a [Call]),
    /// By two runs, one after the other.
    ByRuns(&'a [Call], &'a [Call]),
}

/// The replies of a book, and its state after them.
#[derive(Drop)]
struct Played {
    replies: Vec<Reply>,
    /// The replies to the second run.
    later: Vec<Reply>,
    state: Page,
}

impl Played {
    /// The place of the call that was refused after an allocation failure.
    fn refused_place(&self) -> Option<usize> {
        for (place, reply) in self.replies.iter().enumerate() {
            if is_refused(reply) {
                return Some(place);
            }
        }
        None
    }

    /// Writes the replies and the state.
    fn show<R: Print>(&self, rt: &R) -> Result<(), Stop> {
        for reply in &self.replies {
            println!(rt; "{reply:?}")?;
        }
        show(rt, &self.state)
    }
}

/// Whether a call was refused after an allocation failure.
fn is_refused(reply: &Reply) -> bool {
    Stop::unless_done(reply) == Err(Stop::OutOfMemory)
}

fn play_once<R: AllocGlobal + Print + Eprint>(
    rt: &R,
    strategy: &Strategy,
    way: &Way,
) -> Result<Played, Stop> {
    visit_book(rt, &Opening::of_few(strategy, 2), way)
}

impl<R: AllocGlobal + Print + Eprint> Visit<R> for Way<'_> {
    type End = Played;

    /// Plays at a desk, and gathers its seats while all allocations fail.
    fn visit<N: Names>(&self, rt: &R, opened: OpenBook<N>) -> Result<Played, Stop> {
        let mut desk = Desk::new(opened);
        let end = match self {
            Way::ByCalls(calls) => play_by_calls(rt, &mut desk, calls),
            Way::ByRuns(before, after) => play_by_runs(rt, &mut desk, before, after),
        };
        let told = refuse_all(rt);
        let is_gathered = desk.gather();
        told?;
        refuse_none(rt)?;
        if !is_gathered {
            println!(rt; "not gathered")?;
        }
        end
    }
}

fn play_by_calls<N: Names, R: AllocGlobal + Print + Eprint>(
    rt: &R,
    desk: &mut Desk<N>,
    calls: &[Call],
) -> Result<Played, Stop> {
    let mut replies = replies_for(rt, calls.len())?;
    for call in calls {
        let reply = answer(rt, desk, call)?;
        if replies.push(reply).is_err() {
            return Err(Stop::OutOfMemory);
        }
    }
    Ok(Played {
        replies,
        later: Vec::new(rt.alloc()),
        state: Page::of(desk)?,
    })
}

/// A list that has room for this many replies.
fn replies_for<R: AllocGlobal + Eprint>(rt: &R, count: usize) -> Result<Vec<Reply>, Stop> {
    match Vec::with_capacity(rt.alloc(), count) {
        Ok(replies) => Ok(replies),
        Err(_) => Ok(Vec::with_capacity(rt.alloc(), count)?),
    }
}

/// Makes a call, and repeats it if an allocation fails, which must change nothing. A request leaves without
/// an allocation.
fn answer<N: Names, R: Print + Eprint>(
    rt: &R,
    desk: &mut Desk<N>,
    call: &Call,
) -> Result<Reply, Stop> {
    if matches!(call, Call::Leave { .. }) {
        refuse_all(rt)?;
        let reply = desk.reply(call);
        refuse_none(rt)?;
        return Ok(reply);
    }
    let before = Page::of(desk)?;
    let reply = desk.reply(call);
    if !is_refused(&reply) {
        return Ok(reply);
    }
    say_refused(rt, BY_CALLS)?;
    compare(rt, BY_CALLS, &before, &Page::of(desk)?)?;
    Ok(desk.reply(call))
}

fn play_by_runs<N: Names, R: Print + Eprint>(
    rt: &R,
    desk: &mut Desk<N>,
    before: &[Call],
    after: &[Call],
) -> Result<Played, Stop> {
    let replies = answer_run(rt, desk, before)?;
    let later = answer_run(rt, desk, after)?;
    let state = Page::of(desk)?;
    Ok(Played {
        replies,
        later,
        state,
    })
}

/// Makes calls by one run, and repeats it if the allocation for their replies fails, which must change
/// nothing.
fn answer_run<N: Names, R: Print + Eprint>(
    rt: &R,
    desk: &mut Desk<N>,
    calls: &[Call],
) -> Result<Vec<Reply>, Stop> {
    repeated(rt, BY_RUN, desk, |desk| desk.run(calls))
}

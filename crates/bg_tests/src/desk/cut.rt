//! Which requests a desk gives up.
ghost use Rattle.std.specs.Prelude.{◌≡◌};
ghost use Rattle.bg_rollout.specs.Gathering.{indices};
ghost use Rattle.bg_ledger.specs.Blanks.{AreAllFor};

use super::calls::make;
use crate::book::samples::{opening, strategy_with};
use crate::history::gathered::expect_audited;
use bg_book::{Call, Control, Desk, GoOn, OpenBook, SeatLimit, laws as book_laws};
use bg_ledger::{Blanks, Names, Seat};
use bg_operator::{Command, LineFault, parse_line};
use bg_strategy::Strategy;
use std::alloc::Global;
use std::marker::Brand;
use std::sync::Wait;
use std::test::Fail;

/// The first lines of each story. The request of seat 0 drains then, and seat 2 has a request at the revision that took
/// over.
const START: [&str; 5] = [
    "available 1 2",
    "enter 0 active",
    "deploy v2 9101 9102",
    "available 2 2",
    "enter 2 active",
];

/// What happens after the first lines. At last, the request of seat 0 leaves.
#[derive(Clone, Copy, Drop)]
struct Story {
    /// The settings of the book.
    settings: &'static str,
    /// The ticks.
    moments: [u64; 4],
    /// The first moment at which the request of seat 0 is given up.
    cut_at: Option<u64>,
}

const STORIES: [Story; 3] = [
    Story {
        settings: r#", "drainLimitSeconds": 10"#,
        moments: [29, 30, 39, 40],
        cut_at: Some(40),
    },
    Story {
        settings: r#", "drainLimitSeconds": 0"#,
        moments: [0, 29, 30, 31],
        cut_at: Some(30),
    },
    Story {
        settings: "",
        moments: [29, 30, 40, 1 << 53],
        cut_at: None,
    },
];

/// A call, and whether the request of seat 0 goes on after it.
type Step = (Call, GoOn);

/// The calls of a story.
fn steps_of(alloc: Global, story: &Story) -> Result<Vec<Step>, Fail> {
    let mut steps = Vec::new(alloc);
    for line in &START {
        steps.push((call_of(alloc, line)?, GoOn::Keep))?;
    }
    for moment in &story.moments {
        let goes_on = match story.cut_at {
            Some(first) if *moment >= first => GoOn::Cut,
            _ => GoOn::Keep,
        };
        steps.push((Call::Control(Control::Tick(*moment)), goes_on))?;
    }
    steps.push((Call::Leave { seat: 0 }, GoOn::Keep))?;
    Ok(steps)
}

/// Whether the desk gives this answer to the seat at a place.
fn is_told<N: Names, R: Wait>(
    rt: &R,
    desk: &Desk<N>,
    seats: &mut [Seat<N>],
    place: usize,
    expected: GoOn,
) -> bool
    ensures { indices seats.new ≡ indices seats.old }
{
    book_laws::same_order();
    if place >= seats.len() {
        return false;
    }
    desk.may_go_on(rt, &mut seats[place]) == expected
}

/// The call that a line makes.
fn call_of(alloc: Global, line: &str) -> Result<Call, Fail> {
    match parse_line(alloc, line.as_bytes())? {
        Command::Control(event) => Ok(Call::Control(event)),
        Command::Enter { seat, service } => Ok(Call::Enter { seat, service }),
        Command::Leave { seat } => Ok(Call::Leave { seat }),
        _ => Err(LineFault::UnknownWord.into()),
    }
}

/// The number of calls after which each seat got the expected answer.
fn tell<N: Names, R: Wait>(rt: &R, desk: &Desk<N>, seats: &mut [Seat<N>], steps: &[Step]) -> usize
    ensures { indices seats.new ≡ indices seats.old }
{
    let mut told: usize = 0;
    for (call, expected) in steps {
        let _reply = make(rt, desk, seats, call);
        let first = is_told(rt, desk, seats, 0, *expected);
        let out = is_told(rt, desk, seats, 1, GoOn::Keep);
        let newer = is_told(rt, desk, seats, 2, GoOn::Keep);
        if first && out && newer {
            told = told.saturating_add(1);
        }
    }
    told
}

fn tell_at<N: Names, R: Wait>(
    rt: &R,
    alloc: Global,
    strategy: &Strategy,
    steps: &[Step],
    blanks: Blanks,
) -> Result<usize, Fail>
    requires blanks { AreAllFor N.Names blanks }
    requires seats { N.seats ≡ 4 }
{
    book_laws::lent();
    let opened = OpenBook::<N>::open(alloc, SeatLimit::Few, &opening(strategy, 4), blanks)?;
    let (book, mut seats) = opened.into_parts();
    let desk = Desk::new(book);
    let told = tell(rt, &desk, seats.as_mut_slice(), steps);
    let history = desk.into_book().close(seats);
    expect_audited(alloc, &history, strategy)?;
    Ok(told)
}

fn with_new_names<R: Wait>(rt: &R, alloc: Global, story: &Story) -> Result<usize, Fail> {
    let strategy = strategy_with(alloc, story.settings)?;
    let steps = steps_of(alloc, story)?;
    tell_at::<Brand, R>(rt, alloc, &strategy, &steps, Blanks::new())
}

#[test]
fn desk_cut(rt: HostRuntime) -> Result<(), Fail> {
    for story in &STORIES {
        let told = with_new_names(&rt, rt.alloc(), story)?;
        let steps = START.len() + story.moments.len() + 1;
        assert_eq!(rt; told, steps, "{}", story.settings);
    }
    Ok(())
}

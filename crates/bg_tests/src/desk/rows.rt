//! Scripts through a desk, on one thread. The desk answers and records what the book answers and records, also if the
//! book has carried out the first lines itself.
ghost use Rattle.std.specs.Prelude.{◌≡◌, true, ⊤};
ghost use Rattle.bg_rollout.specs.Gathering.{are_all, indices};
ghost use Rattle.bg_ledger.specs.Blanks.{AreAllFor};

use super::calls::make;
use super::scripts::SCRIPTS;
use crate::book::samples::{opening_within, strategy_with};
use crate::history::gathered::expect_audited;
use crate::history::texts::lines_of;
use bg_book::{Book, Call, Desk, Limits, OpenBook, Question, Reply, SeatLimit, laws as book_laws};
use bg_history::History;
use bg_ledger::{Blanks, Names, Seat};
use bg_operator::{Command, LineFault, Query, parse_line};
use bg_report::{reply, report};
use bg_strategy::Strategy;
use std::alloc::Global;
use std::io;
use std::io::Write;
use std::marker::Brand;
use std::sync::Wait;
use std::test::Fail;

/// A script, and the strategy of its book.
#[derive(Drop)]
struct Script<'a> {
    alloc: Global,
    strategy: &'a Strategy,
    limits: Limits,
    /// The lines that the book carries out itself before it gets a desk.
    before: &'a [&'a str],
    lines: &'a [&'a str],
}

/// The answers, and the entries of the history after all seats have left.
#[derive(PartialEq, Drop)]
pub(crate) struct Played {
    pub(crate) answers: Vec<u8>,
    pub(crate) entries: Vec<u8>,
}

/// A book or a desk that carries out the lines of a script.
trait Player {
    fn call(&mut self, call: &Call) -> Reply;

    fn compact(&mut self) -> u64;

    fn report(&self, text: &mut Vec<u8>) -> io::Result<()>;
}

impl<N: Names> Player for OpenBook<N> {
    fn call(&mut self, call: &Call) -> Reply {
        OpenBook::call(self, call)
    }

    fn compact(&mut self) -> u64 {
        OpenBook::compact(self)
    }

    fn report(&self, text: &mut Vec<u8>) -> io::Result<()> {
        report(self.book(), text)
    }
}

/// A desk and its seats.
struct AtDesk<'a, N: Names, R: Wait> {
    rt: &'a R,
    desk: Desk<N>,
    seats: Vec<Seat<N>>,
    ghost all: { are_all 4 seats.items ≡ true },
}

/// The report of a book.
#[derive(Drop)]
struct Report<'a> {
    text: &'a mut Vec<u8>,
}

impl Question<io::Result<()>> for Report<'_> {
    ghost gives = { λ _ _ _. ⊤ };

    fn ask<N: Names>(self, book: &Book<N>) -> io::Result<()> {
        report(book, self.text)
    }
}

impl<N: Names, R: Wait> Player for AtDesk<'_, N, R> {
    fn call(&mut self, call: &Call) -> Reply {
        book_laws::lent();
        make(self.rt, &self.desk, self.seats.as_mut_slice(), call)
    }

    fn compact(&mut self) -> u64 {
        self.desk.compact(self.rt)
    }

    fn report(&self, text: &mut Vec<u8>) -> io::Result<()> {
        self.desk.look(self.rt, Report { text })
    }
}

/// Carries out lines, and writes the answer to each.
fn play<P: Player>(
    alloc: Global,
    lines: &[&str],
    player: &mut P,
    answers: &mut Vec<u8>,
) -> Result<(), Fail> {
    for line in lines {
        match parse_line(alloc, line.as_bytes())? {
            Command::Control(event) => reply(&player.call(&Call::Control(event)), answers)?,
            Command::Enter { seat, service } => {
                reply(&player.call(&Call::Enter { seat, service }), answers)?;
            }
            Command::Leave { seat } => reply(&player.call(&Call::Leave { seat }), answers)?,
            Command::Ask(Query::Report) => player.report(answers)?,
            Command::Compact => writeln!(answers, "compacted {}", player.compact())?,
            // the other lines are not for a book
            _ => return Err(LineFault::UnknownWord.into()),
        }
    }
    Ok(())
}

/// Carries out the lines that come after those before, unless one of those failed.
fn go_on<P: Player>(
    before: Result<(), Fail>,
    script: &Script,
    player: &mut P,
    answers: &mut Vec<u8>,
) -> Result<(), Fail> {
    before?;
    play(script.alloc, script.lines, player, answers)
}

/// The number of seats of each book.
const SEATS: u32 = 4;

/// Writes the number of closed requests of each seat, and the entries of a history, oldest first.
pub(crate) fn write_entries(history: &History, text: &mut Vec<u8>) -> io::Result<()> {
    for seat in 0..SEATS {
        writeln!(text, "closed {}", history.closed(seat))?;
    }
    for place in 0..history.len() {
        if let Some(entry) = history.get(place) {
            writeln!(text, "{entry:?}")?;
        }
    }
    Ok(())
}

/// Opens a book of four seats.
fn open<N: Names>(script: &Script, blanks: Blanks) -> Result<OpenBook<N>, Fail>
    requires blanks { AreAllFor N.Names blanks }
    requires seats { N.seats ≡ 4 }
{
    let opening = opening_within(script.strategy, SEATS, script.limits);
    let opened = OpenBook::open(script.alloc, SeatLimit::Few, &opening, blanks)?;
    Ok(opened)
}

/// The answers to a script, and the entries of its history, which is legal.
fn with_entries(script: &Script, answers: Vec<u8>, history: &History) -> Result<Played, Fail> {
    let mut entries = Vec::new(script.alloc);
    expect_audited(script.alloc, history, script.strategy)?;
    write_entries(history, &mut entries)?;
    Ok(Played { answers, entries })
}

fn play_at_book<N: Names>(script: &Script, blanks: Blanks) -> Result<Played, Fail>
    requires blanks { AreAllFor N.Names blanks }
    requires seats { N.seats ≡ 4 }
{
    let mut player = open::<N>(script, blanks)?;
    let mut answers = Vec::new(script.alloc);
    let played = play(script.alloc, script.lines, &mut player, &mut answers);
    let history = player.close();
    played?;
    with_entries(script, answers, &history)
}

fn play_at_desk<N: Names, R: Wait>(rt: &R, script: &Script, blanks: Blanks) -> Result<Played, Fail>
    requires blanks { AreAllFor N.Names blanks }
    requires seats { N.seats ≡ 4 }
{
    let mut opened = open::<N>(script, blanks)?;
    let mut answers = Vec::new(script.alloc);
    let before = play(script.alloc, script.before, &mut opened, &mut answers);
    let (book, seats) = opened.into_parts();
    let desk = Desk::new(book);
    let mut player = AtDesk { rt, desk, seats };
    let played = go_on(before, script, &mut player, &mut answers);
    let AtDesk { rt: _, desk, seats } = player;
    let history = desk.into_book().close(seats);
    played?;
    with_entries(script, answers, &history)
}

/// Plays a script at a book with these limits.
pub(crate) fn play_book(
    alloc: Global,
    strategy: &Strategy,
    limits: Limits,
    lines: &[&str],
) -> Result<Played, Fail> {
    let script = Script {
        alloc,
        strategy,
        limits,
        before: &[],
        lines,
    };
    play_at_book::<Brand>(&script, Blanks::new())
}

/// Plays a script at a desk over a book that has carried out this many lines of it.
fn play_desk<R: Wait>(
    rt: &R,
    alloc: Global,
    strategy: &Strategy,
    lines: &[&str],
    used: usize,
) -> Result<Played, Fail> {
    let (before, lines) = lines.split_at(used.min(lines.len()));
    let script = Script {
        alloc,
        strategy,
        limits: Limits::usual(),
        before,
        lines,
    };
    play_at_desk::<Brand, R>(rt, &script, Blanks::new())
}

/// Whether a desk over a book that has carried out this many lines of a script answers and records what a book does.
fn is_as_at_book<R: Wait>(
    rt: &R,
    alloc: Global,
    settings: &str,
    script: &str,
    used: usize,
) -> Result<bool, Fail> {
    let strategy = strategy_with(alloc, settings)?;
    let lines = lines_of(alloc, script)?;
    let at_book = play_book(alloc, &strategy, Limits::usual(), &lines)?;
    let at_desk = play_desk(rt, alloc, &strategy, &lines, used)?;
    Ok(!at_book.answers.is_empty() && at_desk == at_book)
}

/// A desk also continues after the calls of its book.
#[test]
fn desk_rows(rt: HostRuntime) -> Result<(), Fail> {
    for used in 0..5usize {
        for (settings, script) in &SCRIPTS {
            let is_as_at_book = is_as_at_book(&rt, rt.alloc(), settings, script, used)?;
            assert!(rt; is_as_at_book, "{used} lines before: {script}");
        }
    }
    Ok(())
}

//! Opens a book by the journal or by an operator, and runs after that.
ghost use Rattle.std.specs.Prelude.{◌≡◌, ◌≤◌, true};
ghost use Rattle.bg_forward.specs.Seats.{AllOut};
ghost use Rattle.bg_ledger.specs.Blanks.{AreAllFor};
ghost use Rattle.bg_rollout.specs.Gathering.{are_all};

use crate::context::{JournaledContext, ServeContext};
use crate::journal::{
    JournalRefusal, begun_journal, end_numbers, note_other_settings, note_resumed, number_offset,
    resumed_book,
};
use crate::operators::Operator;
use crate::serve::{write_listening, written};
use crate::serving::serve_beside_operators;
use bg_book::{Book, Desk, Limits, RolloutOpening, SeatLimit};
use bg_ledger::{Blanks, Names, Seat};
use bg_order_journal::{OpensJournal, Resumption, StartFault, open_journal};
use bg_report::report;
use bg_script::{Answer, FirstRevision, LineResult, NumberedJournal, OrderJournal, RunEnd};
use sqlite::Alter;
use std::io;
use std::io::Write;
use std::marker::Brand;
use std::net::{Net, TcpListener, TcpStream};
use std::sync::Wait;
use std::thread::Threads;
use std::time::Clock;

/// The calls of a request that has left: it has entered, too.
const CALLS_OF_A_REQUEST: u64 = 2;

/// Resumes the book of the journal, if there is one and it has orders, and serves clients by it to the end. Else awaits an
/// `open`. The error says why the journal cannot be used; then nothing was written.
pub fn serve_by_journal<R, S: Alter + Drop, O: OpensJournal<S> + Copy, W: Write>(
    context: &JournaledContext<R, O>,
    output: &mut W,
) -> Result<Result<(), RunEnd>, JournalRefusal>
where
    R: Net<Listener = TcpListener, Stream = TcpStream> + Threads + Wait + Clock + Sync,
{
    let serve = context.serve;
    let Some(opener) = context.journal else {
        return Ok(await_open::<R, S, O, W>(context, output));
    };
    match open_journal::<S, O>(serve.alloc, opener, serve.strategy) {
        Ok(Some(resumption)) => {
            let blanks = Blanks::new();
            resume_and_serve::<Brand, R, S, O, W>(serve, blanks, resumption, output)
        }
        Ok(None) => Ok(await_open::<R, S, O, W>(context, output)),
        Err(fault) => {
            note_other_settings::<R, S, O>(serve, &opener);
            Err(JournalRefusal::Start(fault))
        }
    }
}

/// Resumes a book from a journal, and serves clients by it to the end.
fn resume_and_serve<'a, N: Names + Send + Sync, R, S: Alter + Drop, O: OpensJournal<S>, W: Write>(
    context: &ServeContext<'a, R>,
    blanks: Blanks,
    resumption: Resumption<S, O>,
    output: &mut W,
) -> Result<Result<(), RunEnd>, JournalRefusal>
where
    R: Net<Listener = TcpListener, Stream = TcpStream> + Threads + Wait + Clock + Sync,
    requires blanks { AreAllFor N.Names blanks }
    requires seats { 1 ≤ context.now.seats → context.now.seats ≤ 2048 → N.seats ≡ context.now.seats }
{
    let opened = resumed_book::<N, S, O>(
        context.alloc,
        context.strategy,
        context.seats,
        blanks,
        &resumption,
    )?;
    note_resumed(context.notices, &opened.0, resumption.count);
    match resumption.into_journal() {
        Ok(journal) => Ok(serve_resumed(context, opened, journal, output)),
        Err(refused) => {
            let (book, seats) = opened;
            let _history = book.close(seats);
            Err(JournalRefusal::Start(StartFault::from(refused)))
        }
    }
}

/// Writes `listening`, and serves clients to the end by a book that was resumed.
fn serve_resumed<'a, N: Names + Send + Sync, R, J: OrderJournal, W: Write>(
    context: &ServeContext<'a, R>,
    opened: (Book<N>, Vec<Seat<N>>),
    journal: NumberedJournal<J>,
    output: &mut W,
) -> Result<(), RunEnd>
where
    R: Net<Listener = TcpListener, Stream = TcpStream> + Threads + Wait + Clock + Sync,
    requires all { are_all N.seats opened.1.items ≡ true }
    requires out { AllOut opened.1.items }
{
    match write_listening(output) {
        Ok(()) => {
            let mut operator = Operator::new(context.rt, context.alloc, context.notices);
            serve_book(context, opened, &mut operator, Some(journal), output)
        }
        Err(end) => {
            let (book, seats) = opened;
            let _history = book.close(seats);
            Err(end)
        }
    }
}

/// Writes `listening`, and answers the lines of operators, until one opens a book. Clients are then served by that book to the
/// end. Without a book, the run ends at `quit`.
fn await_open<R, S: Alter + Drop, O: OpensJournal<S> + Copy, W: Write>(
    context: &JournaledContext<R, O>,
    output: &mut W,
) -> Result<(), RunEnd>
where
    R: Net<Listener = TcpListener, Stream = TcpStream> + Threads + Wait + Clock + Sync,
{
    write_listening(output)?;
    let serve = context.serve;
    let rt = serve.rt;
    let mut operator = Operator::new(rt, serve.alloc, serve.notices);
    for _ in rt.forever() {
        if let Some(ended) = answer_opener::<R, S, O, W>(context, &mut operator, output) {
            return ended;
        }
    }
    unreachable!()
}

/// Answers a line of an operator. Gives how the run ended, if it is done: clients were served to the end, or the
/// line is `quit`.
fn answer_opener<R, S: Alter + Drop, O: OpensJournal<S> + Copy, W: Write>(
    context: &JournaledContext<R, O>,
    operator: &mut Operator<R>,
    output: &mut W,
) -> Option<Result<(), RunEnd>>
where
    R: Net<Listener = TcpListener, Stream = TcpStream> + Threads + Wait + Clock + Sync,
{
    let control = &context.serve.ports.control;
    let first = match operator.before_open(control) {
        Ok(LineResult::Opens(first)) => first,
        Ok(LineResult::Quits) => return Some(Ok(())),
        Ok(LineResult::Said(_) | LineResult::Report) | Err(_) => return None,
    };
    let blanks = Blanks::new();
    match open_and_serve::<Brand, R, S, O, W>(context, blanks, &first, operator, output) {
        Ok(ended) => Some(ended),
        Err(refusal) => {
            operator.answer_open(control, &refusal);
            None
        }
    }
}

/// Opens the book, begins the journal if there is one, and serves clients to the end. The error is the answer to the `open`
/// if the book was not opened, or the journal could not be begun.
fn open_and_serve<N: Names + Send + Sync, R, S: Alter + Drop, O: OpensJournal<S> + Copy, W: Write>(
    context: &JournaledContext<R, O>,
    blanks: Blanks,
    first: &FirstRevision,
    operator: &mut Operator<R>,
    output: &mut W,
) -> Result<Result<(), RunEnd>, Answer>
where
    R: Net<Listener = TcpListener, Stream = TcpStream> + Threads + Wait + Clock + Sync,
    requires blanks { AreAllFor N.Names blanks }
    requires seats { 1 ≤ context.now.serve.now.seats → context.now.serve.now.seats ≤ 2048
        → N.seats ≡ context.now.serve.now.seats }
{
    let serve = context.serve;
    let opening = RolloutOpening {
        strategy: serve.strategy,
        name: first.name.get(),
        ports: first.ports.get(),
        seats: serve.seats,
        limits: Limits::usual(),
    };
    match Book::<N>::open(serve.alloc, SeatLimit::Many, &opening, blanks) {
        Ok(opened) => { begin_and_serve::<N, R, S, O, W>(context, opened, first, operator, output) }
        Err(fault) => Err(Answer::OpenRefused(fault)),
    }
}

/// Begins the journal of a book that was just opened, if there is one, and serves clients to the end. If the journal cannot be
/// begun, the book is closed, and the error is the answer to the `open`.
fn begin_and_serve<N: Names + Send + Sync, R, S: Alter + Drop, O: OpensJournal<S> + Copy, W: Write>(
    context: &JournaledContext<R, O>,
    opened: (Book<N>, Vec<Seat<N>>),
    first: &FirstRevision,
    operator: &mut Operator<R>,
    output: &mut W,
) -> Result<Result<(), RunEnd>, Answer>
where
    R: Net<Listener = TcpListener, Stream = TcpStream> + Threads + Wait + Clock + Sync,
    requires all { are_all N.seats opened.1.items ≡ true }
    requires out { AllOut opened.1.items }
{
    match begun_journal::<R, S, O>(context, first) {
        Ok(journal) => Ok(serve_book(context.serve, opened, operator, journal, output)),
        Err(_) => {
            let (book, seats) = opened;
            let _history = book.close(seats);
            Err(Answer::JournalFailed)
        }
    }
}

/// Serves clients by an open book to the end, with the numbers of requests that the journal gives, if there is one. Then ends
/// these numbers in the journal, and writes the report and the number of calls.
fn serve_book<'a, N: Names + Send + Sync, R, J: OrderJournal, W: Write>(
    context: &ServeContext<'a, R>,
    opened: (Book<N>, Vec<Seat<N>>),
    operator: &mut Operator<R>,
    journal: Option<NumberedJournal<J>>,
    output: &mut W,
) -> Result<(), RunEnd>
where
    R: Net<Listener = TcpListener, Stream = TcpStream> + Threads + Wait + Clock + Sync,
    requires all { are_all N.seats opened.1.items ≡ true }
    requires out { AllOut opened.1.items }
{
    let (book, mut seats) = opened;
    let mut journal = journal;
    let desk = Desk::new(book);
    let numbered = context.with_number_offset(number_offset(&journal));
    serve_beside_operators(
        &numbered,
        &desk,
        seats.as_mut_slice(),
        operator,
        &mut journal,
    );
    context.notices.write_refusals();
    context.notices.write_cut_responses();
    context.notices.write_log_trouble();
    let book = desk.into_book();
    let calls = calls_of(&seats);
    end_numbers(context.alloc, &mut journal, calls / CALLS_OF_A_REQUEST);
    let reported = report(&book, output);
    let _history = book.close(seats);
    write_calls(reported, calls, output)
}

/// Writes the number of calls, after the report was written.
fn write_calls<W: Write>(
    reported: io::Result<()>,
    calls: u64,
    output: &mut W,
) -> Result<(), RunEnd> {
    written(reported)?;
    written(writeln!(output, "calls {calls}"))?;
    written(output.flush())
}

/// The number of calls of all seats.
fn calls_of<N: Names>(seats: &[Seat<N>]) -> u64 {
    let mut calls = 0u64;
    for seat in seats {
        calls = calls.saturating_add(seat.calls());
    }
    calls
}

//! A list of calls.
ghost use Rattle.std.specs.Prelude.{◌≡◌, [], IfOk};
ghost use Rattle.bg_history.specs.Requests.{open_requests};
ghost use Rattle.bg_ledger.specs.Blanks.{AreAllFor};

use super::samples::{available, opening, strategy};
use crate::history::gathered::expect_audited;
use bg_book::{Book, Call, Left, Reply, SeatLimit, Ticket, laws as book_laws};
use bg_history::History;
use bg_ledger::{Blanks, Names};
use bg_revisions::Service;
use std::alloc::Global;
use std::marker::Brand;
use std::test::Fail;

/// Opens a book of four seats, makes the calls, and gathers the seats. Returns the replies and the
/// history.
fn answer_all(alloc: Global, calls: &[Call]) -> Result<(Vec<Reply>, History), Fail>
    ensures { IfOk result (λ r. open_requests r.1.past ≡ []) }
{
    run_calls::<Brand>(alloc, calls, Blanks::new())
}

fn run_calls<N: Names>(
    alloc: Global,
    calls: &[Call],
    blanks: Blanks,
) -> Result<(Vec<Reply>, History), Fail>
    requires blanks { AreAllFor N.Names blanks }
    requires seats { N.seats ≡ 4 }
    ensures { IfOk result (λ r. open_requests r.1.past ≡ []) }
{
    let strategy = strategy(alloc)?;
    let opening = opening(&strategy, 4);
    let (mut book, mut seats) = Book::<N>::open(alloc, SeatLimit::Few, &opening, blanks)?;
    book_laws::lent();
    let answered = book.run(seats.as_mut_slice(), calls);
    let history = book.close(seats);
    expect_audited(alloc, &history, &strategy)?;
    Ok((answered?, history))
}

/// A request enters at seat 0.
fn enter() -> Call {
    Call::Enter {
        seat: 0,
        service: Service::Active,
    }
}

#[test]
fn answers_a_list_of_calls(rt: HostRuntime) -> Result<(), Fail> {
    let calls = [
        Call::Control(available()),
        enter(),
        enter(),
        Call::Leave { seat: 0 },
    ];
    let (replies, history) = answer_all(rt.alloc(), &calls)?;
    let entered = Reply::Entered(Ticket {
        number: 1,
        revision: 1,
        port: 9002,
    });
    let left = Reply::Left(Left {
        number: 1,
        revision: 1,
    });
    let want = [Reply::Done(0), entered, Reply::SeatBusy, left];
    assert_eq!(rt; replies.as_slice(), want.as_slice());
    assert_eq!(rt; history.len(), 3);
    Ok(())
}

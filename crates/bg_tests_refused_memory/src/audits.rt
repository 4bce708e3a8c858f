//! The call of `bg_audit`.

use crate::asking::made;
use crate::stop::Stop;
use crate::strategies::base_strategy;
use bg_audit::audit;
use bg_history::{Entry, History, Outcome};
use bg_revisions::{Name, Ports, Service};
use bg_strategy::Strategy;
use std::alloc::Global;

pub fn make_calls<R: AllocGlobal + Print + Eprint>(rt: &R) -> Result<(), Stop> {
    let strategy = base_strategy(rt)?;
    let history = make_history(rt)?;
    let switched = make_switch(rt)?;
    for history in [&history, &switched] {
        let is_legal = audit_history(rt, history, &strategy)?;
        println!(rt; "legal and settled: {is_legal}")?;
    }
    Ok(())
}

fn make_history<R: AllocGlobal + Print + Eprint>(rt: &R) -> Result<History, Stop> {
    made(
        rt,
        "History::new, History::reserve",
        || new_history(rt.alloc()),
    )
}

/// Revision 1 has both its endpoints, and a request enters and leaves.
fn new_history(alloc: Global) -> Result<History, Stop> {
    let mut history = History::new(alloc, 2, "v1", &[9001, 9002])?;
    history.reserve(3)?;
    history.push_reserved(available(1));
    history.push_reserved(Entry::Enter {
        seat: 0,
        service: Service::Active,
        number: 1,
        revision: 1,
        port: 9002,
    });
    history.push_reserved(Entry::Leave {
        seat: 0,
        number: 1,
        revision: 1,
    });
    Ok(history)
}

/// A revision has both its endpoints.
fn available(revision: u64) -> Entry {
    Entry::Available { revision, size: 2 }
}

const SWITCH: &str = "History::new, Name::new, Ports::new, History::reserve";

fn make_switch<R: AllocGlobal + Print + Eprint>(rt: &R) -> Result<History, Stop> {
    made(rt, SWITCH, || new_switch(rt.alloc()))
}

/// Revision 2 is deployed and switched to, and revision 1 is scaled down at its deadline.
fn new_switch(alloc: Global) -> Result<History, Stop> {
    let mut history = History::new(alloc, 2, "v1", &[9001, 9002])?;
    let second = Entry::Deploy {
        revision: 2,
        name: Name::new(alloc, "v2")?,
        ports: Ports::new(alloc, &[9101, 9102])?,
    };
    history.reserve(9)?;
    history.push_reserved(second);
    history.push_reserved(available(2));
    history.push_reserved(Entry::Outcome(Outcome::Ready(2)));
    history.push_reserved(Entry::Outcome(Outcome::Resumed(2)));
    history.push_reserved(Entry::Outcome(Outcome::Switched(2)));
    history.push_reserved(Entry::Outcome(Outcome::Promoted(2)));
    history.push_reserved(Entry::Tick(29));
    history.push_reserved(Entry::Tick(30));
    history.push_reserved(Entry::Outcome(Outcome::ScaledDown(1)));
    Ok(history)
}

fn audit_history<R: AllocGlobal + Print + Eprint>(
    rt: &R,
    history: &History,
    strategy: &Strategy,
) -> Result<bool, Stop> {
    made(rt, "audit", || new_answer(rt.alloc(), history, strategy))
}

fn new_answer(alloc: Global, history: &History, strategy: &Strategy) -> Result<bool, Stop> {
    Ok(audit(alloc, history, strategy)?)
}

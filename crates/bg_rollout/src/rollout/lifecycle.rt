//! Opening a rollout, and ending it with its seats.
ghost use Rattle.std.specs.Prelude.{◌≡◌, ◌≤◌, true, [], ◌∷◌, IfOk, IfErr, None, replicate, vec_capacity, ℕ, List, length, Some, slice_get};
ghost use Rattle.bg_ledger.specs.Blanks.{AreAllFor};
ghost use Rattle.bg_revisions.specs.Rosters.{is_well_formed};
ghost use Rattle.bg_rollout.specs.Openings.{opening_fault as fault_of, opened_by, IsSeatCount, OpensSeats};
ghost use Rattle.bg_rollout.specs.Refusals.{AnswersBy};
ghost use Rattle.bg_rollout.specs.Changes.{first_listing, NewSeats};
ghost use Rattle.bg_rollout.specs.Gathering.{are_all as are_all_of, gather_fault as fault_in, still_in};
ghost use Rattle.bg_rollout.specs.declared.fault.OpenFault.TheVariants.{OutOfMemory};
ghost use Rattle.bg_history.specs.Requests.{open_requests, calls_of};
ghost use Rattle.bg_ledger.specs.declared.holding.Holding.{Holding};

use crate::fault::{GatherFault, OpenFault};
use crate::limits::Limits;
use crate::opening::{RolloutOpening, SeatLimit};
use crate::request_lists::RequestLists;
use crate::rollout::Rollout;
use bg_history::History;
use bg_ledger::{Blanks, Names, Seat, SeatRecord, pair};
use bg_promotion::Core;
use bg_revisions::{Roster, are_replica_ports};
use bg_scaledown::Deadlines;
use bg_strategy::{Strategy, is_dns_label};
use std::alloc::Global;

impl<N: Names> Rollout<N> {
    /// Opens a rollout of revision 1. Gives it and its seats in order of index, each without a call. An error drops the
    /// blanks.
    ///
    /// The error is the first of these that applies: `BadName` if the name is not a DNS label; `BadPorts` if there are
    /// not exactly `replicas` distinct ports from 1; `BadSeats` if there is no seat, or if there are more than the limit
    /// allows; `BadLimits` if a limit is above the usual one; `OutOfMemory` if an allocation fails.
    pub fn open(
        alloc: Global,
        limit: SeatLimit,
        opening: &RolloutOpening,
        blanks: Blanks,
    ) -> Result<(Rollout<N>, Vec<Seat<N>>), OpenFault>
        requires blanks { AreAllFor N.Names blanks }
        requires count { IsSeatCount limit opening.now N.seats }
        ensures refusal { AnswersBy (fault_of limit opening.now) OutOfMemory result }
        ensures rollout { IfOk result (λ r.
            r.0 ≡ record { routing = opened_by opening.now r.1.items; spare = 0 }) }
        ensures seats { IfOk result (λ r. OpensSeats opening.now N.seats r.1.items) }
    {
        if let Some(fault) = opening_fault(limit, opening) {
            return Err(fault);
        }
        let strategy = opening.strategy.clone()?;
        Rollout::assemble(alloc, strategy, opening, blanks)
    }

    /// Makes the parts of a rollout with this strategy, which is a copy of the opening's. The only error is an
    /// allocation failure.
    fn assemble(
        alloc: Global,
        strategy: Strategy,
        opening: &RolloutOpening,
        blanks: Blanks,
    ) -> Result<(Rollout<N>, Vec<Seat<N>>), OpenFault>
        requires copy { strategy ≡ opening.now.strategy.now }
        requires fits { fault_of SeatLimit.Many opening.now ≡ None }
        requires blanks { AreAllFor N.Names blanks }
        requires count { N.seats ≡ opening.now.seats }
        ensures rollout { IfOk result (λ r.
            r.0 ≡ record { routing = opened_by opening.now r.1.items; spare = 0 }) }
        ensures seats { IfOk result (λ r. OpensSeats opening.now N.seats r.1.items) }
        ensures err { IfErr result (λ e. e ≡ OutOfMemory) }
    {
        let (history, roster, lists) = first_parts(
            alloc,
            strategy.replicas,
            opening.seats,
            opening.name,
            opening.ports,
        )?;
        let (records, handed_out) = new_seats::<N>(alloc, opening.seats, blanks)?;
        let core = Core::new(&strategy);
        let deadlines = Deadlines::new(
            strategy.delay,
            strategy.abort_delay,
            strategy.revision_limit,
        );
        let rollout = Rollout {
            strategy,
            limits: opening.limits,
            core,
            roster,
            deadlines,
            lists,
            records,
            history,
            moment: 0,
            given: 0,
            open: 0,
        };
        Ok((rollout, handed_out))
    }

    /// The fault if these seats can't be gathered.
    pub fn gather_fault(&self, seats: &[Seat<N>]) -> Option<GatherFault>
        ensures { result ≡ fault_in self.now.routing.opening.seats seats.now }
    {
        if !are_all(self.records.len(), seats) {
            return Some(GatherFault::WrongSeats);
        }
        first_in(seats)
    }

    /// Ends the rollout and its seats, which can be gathered, and gives the history.
    pub fn end(self, seats: Vec<Seat<N>>) -> History
        requires { fault_in self.routing.opening.seats seats.items ≡ None }
        ensures history { (result.opening ≡ self.routing.opening)
            × (result.closed ≡ self.routing.closed) × (result.past ≡ self.routing.past) }
        ensures none_open { open_requests result.past ≡ [] }
        ensures calls { (i : ℕ) (seat : Holding) → slice_get seats.items i ≡ Some seat
            → seat.calls ≡ calls_of result.closed i result.past }
    {
        let Rollout {
            strategy: _,
            limits: _,
            core: _,
            roster: _,
            deadlines: _,
            lists: _,
            records,
            history,
            moment: _,
            given: _,
            open: _,
        } = self;
        reunite_all(records, seats);
        history
    }
}

/// The first fault of an opening, other than an allocation failure, if it has one.
fn opening_fault(limit: SeatLimit, opening: &RolloutOpening) -> Option<OpenFault>
    ensures { result ≡ fault_of limit opening.now }
{
    if !is_dns_label(opening.name) {
        return Some(OpenFault::BadName);
    }
    if !are_replica_ports(opening.strategy.replicas, opening.ports) {
        return Some(OpenFault::BadPorts);
    }
    if opening.seats < 1 || limit.most() < opening.seats {
        return Some(OpenFault::BadSeats);
    }
    let usual = Limits::usual();
    if usual.entries < opening.limits.entries || usual.numbers < opening.limits.numbers {
        return Some(OpenFault::BadLimits);
    }
    None
}

/// The history of an opening, the roster of revision 1 alone, and its list of requests. The only error is an
/// allocation failure.
fn first_parts(
    alloc: Global,
    replicas: u32,
    seats: u32,
    name: &str,
    ports: &[u16],
) -> Result<(History, Roster, RequestLists), OpenFault>
    requires { is_well_formed replicas name.now ports.now ≡ true }
    ensures history { IfOk result (λ r. r.0 ≡ record {
      opening = record {
        seats = seats;
        template = record { name = name.now; ports = ports.now };
      };
      closed = replicate seats 0;
      past = [];
      spare = 0;
    }) }
    ensures roster { IfOk result (λ r. r.1 ≡ first_listing replicas name.now ports.now) }
    ensures lists { IfOk result (λ r. r.2 ≡ record { revision = 1; requests = [] } ∷ []) }
    ensures err { IfErr result (λ e. e ≡ OutOfMemory) }
{
    let history = History::new(alloc, seats, name, ports)?;
    let roster = first_roster(alloc, replicas, name, ports)?;
    let lists = RequestLists::new(alloc)?;
    Ok((history, roster, lists))
}

/// The roster of revision 1 alone.
fn first_roster(
    alloc: Global,
    replicas: u32,
    name: &str,
    ports: &[u16],
) -> Result<Roster, OpenFault>
    requires { is_well_formed replicas name.now ports.now ≡ true }
    ensures ok { IfOk result (λ r. r ≡ first_listing replicas name.now ports.now) }
    ensures err { IfErr result (λ e. e ≡ OutOfMemory) }
{
    let mut roster = Roster::new(alloc, replicas)?;
    match roster.add(name, ports, replicas) {
        Ok(_first) => Ok(roster),
        Err(_refused) => Err(OpenFault::OutOfMemory),
    }
}

/// The records of `count` seats, and the seats, in order of index. The only error is an allocation failure.
fn new_seats<N: Names>(
    alloc: Global,
    count: u32,
    blanks: Blanks,
) -> Result<(Vec<SeatRecord<N>>, Vec<Seat<N>>), OpenFault>
    requires blanks { AreAllFor N.Names blanks }
    requires count { N.seats ≡ count }
    ensures seats { IfOk result (λ r. NewSeats count r.1.items) }
    ensures records { IfOk result (λ r. r.0.items ≡ r.1.items) }
    ensures err { IfErr result (λ e. e ≡ OutOfMemory) }
{
    let mut records = Vec::with_capacity(alloc, count as usize)?;
    let mut seats = Vec::with_capacity(alloc, count as usize)?;
    // A seat can't be dropped, so the seats are made after the last allocation.
    pair_all::<N>(count, blanks, &mut records, &mut seats);
    Ok((records, seats))
}

/// Makes `count` pairs of a seat and its record, in order of index. The call allocates nothing.
fn pair_all<N: Names>(
    count: u32,
    blanks: Blanks,
    records: &mut Vec<SeatRecord<N>>,
    seats: &mut Vec<Seat<N>>,
)
    requires blanks { AreAllFor N.Names blanks }
    requires count { N.seats ≡ count }
    requires empty { (records.old.items ≡ []) × (seats.old.items ≡ []) }
    requires room { (count ≤ vec_capacity records.old) × (count ≤ vec_capacity seats.old) }
    ensures seats { NewSeats count seats.new.items }
    ensures records { records.new.items ≡ seats.new.items }
{
    let mut blanks = blanks;
    for index in 0..count {
        let (record, seat) = pair::<N>(index, &mut blanks);
        records.push_reserved(record);
        seats.push_reserved(seat);
    }
}

/// Whether these are exactly the seats of a book with `count` seats, in order of index.
fn are_all<N: Names>(count: usize, seats: &[Seat<N>]) -> bool
    ensures { result ≡ are_all_of count seats.now }
{
    if seats.len() != count {
        return false;
    }
    for place in 0..count {
        if seats[place].index() as usize != place {
            return false;
        }
    }
    true
}

/// The fault of the first seat that holds a request, if one does.
fn first_in<N: Names>(seats: &[Seat<N>]) -> Option<GatherFault>
    ensures { result ≡ still_in seats.now }
{
    for place in 0..seats.len() {
        if seats[place].is_in() {
            return Some(GatherFault::StillIn(seats[place].index()));
        }
    }
    None
}

/// Ends each seat with the record of its index. It proves that the records equal the seats.
fn reunite_all<N: Names>(records: Vec<SeatRecord<N>>, seats: Vec<Seat<N>>)
    requires count { length records.items ≡ length seats.items }
    requires index { (i : ℕ) (r s : Holding) → slice_get records.items i ≡ Some r
        → slice_get seats.items i ≡ Some s → r.index ≡ s.index }
    ensures { records.items ≡ seats.items }
{
    let mut records = records;
    let mut seats = seats;
    while let Some(record) = records.pop() {
        let seat = seats.pop().unwrap();
        record.reunite(seat);
    }
    seats.destroy_empty();
}

//! Makes the allocating calls of the libraries of books, messages and tunnels, and a few others. From the libraries above, these
//! are `parse_command_line`, `parse_line`, `check` and `serve_in_memory`. After an allocation failure, it checks the
//! state that the refused call has left, and repeats the call. All allocations fail while a request leaves or seats are gathered.
//!
//! Standard output names each call that was made, with its result. It is the same whichever allocation fails, unless
//! a refused call has changed something. Standard error names each call that was refused.
//! `scripts/refused_memory.sh` lets one allocation fail in each run.
#![tactic(auto)]

mod asking;
mod audits;
mod books;
mod desks;
mod each_growth;
mod forwarding;
mod histories;
mod input_stream;
mod many_seats;
mod messages;
mod open_lists;
mod page;
mod readings;
mod rosters;
mod runs;
mod state;
mod stop;
mod strategies;
mod upgrades;
mod uploads;

use crate::stop::Stop;

fn main(rt: HostRuntime) -> Result<(), Stop> {
    strategies::make_calls(&rt)?;
    rosters::make_calls(&rt)?;
    histories::make_calls(&rt)?;
    audits::make_calls(&rt)?;
    open_lists::make_calls(&rt)?;
    desks::make_calls(&rt)?;
    many_seats::make_calls(&rt)?;
    runs::make_calls(&rt)?;
    each_growth::make_calls(&rt)?;
    messages::make_calls(&rt)?;
    upgrades::make_calls(&rt)?;
    uploads::make_calls(&rt)?;
    readings::make_calls(&rt)?;
    forwarding::make_calls(&rt)
}

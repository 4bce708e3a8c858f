//! The tests of bg_forward, over its public calls: connections over memory that are complete, cut, failing
//! and hostile.
#![tactic(auto)]

#[cfg(test)]
mod books;
#[cfg(test)]
mod cases;
#[cfg(test)]
mod connections;
#[cfg(test)]
mod fakes;
#[cfg(test)]
mod given_up;
#[cfg(test)]
mod gone;
#[cfg(test)]
mod many_requests;
#[cfg(test)]
mod messages;
#[cfg(test)]
mod one_fault;
#[cfg(test)]
mod pages;
#[cfg(test)]
mod ports;
#[cfg(test)]
mod received;
#[cfg(test)]
mod samples;
#[cfg(test)]
mod worker_counts;
#[cfg(test)]
mod workers;

//! The tests of the libraries, over their public calls. The tests of messages are in bg_tests_http, and those of
//! connections in bg_tests_forward. They are separate crates, because a crate with tests is proved twice: with the
//! tests and without them.
#![tactic(auto)]

#[cfg(test)]
mod book;
#[cfg(test)]
mod desk;
#[cfg(test)]
mod history;
#[cfg(test)]
mod journal;
#[cfg(test)]
mod ledger;
#[cfg(test)]
mod openlist;
#[cfg(test)]
mod script;

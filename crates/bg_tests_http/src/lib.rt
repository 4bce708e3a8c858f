//! The tests of messages, over the public calls of their crates.
//!
//! These crates are bg_http, bg_http_read, bg_relay and bg_streams.
#![tactic(auto)]

#[cfg(test)]
mod cut_off;
#[cfg(test)]
mod expectations;
#[cfg(test)]
mod fields;
#[cfg(test)]
mod interrupted;
#[cfg(test)]
mod length_limits;
#[cfg(test)]
mod limits;
#[cfg(test)]
mod paced_stream;
#[cfg(test)]
mod pages;
#[cfg(test)]
mod passing;
#[cfg(test)]
mod pieces;
#[cfg(test)]
mod refused_heads;
#[cfg(test)]
mod relay_answers;
#[cfg(test)]
mod relays;
#[cfg(test)]
mod requests;
#[cfg(test)]
mod responses;
#[cfg(test)]
mod streamed;
#[cfg(test)]
mod streams;
#[cfg(test)]
mod waiting;
#[cfg(test)]
mod way;

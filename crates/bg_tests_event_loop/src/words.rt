//! The words of the command line.

use crate::stop::Stop;
use bg_http::{Persistence, RefusalBody};
use std::alloc::Global;

/// What the words of the command line say.
#[derive(Drop)]
pub struct Words {
    /// The port at which the loop accepts clients.
    pub port: u16,
    /// Whether the connections of both sides are kept for further requests.
    pub persistence: Persistence,
    /// What refusals have as their bodies.
    pub refusal_body: RefusalBody,
    /// Whether a request may be dialled at another port than its ticket's.
    pub redispatches: bool,
    /// The path of the access log.
    pub log: String,
    /// The port of the endpoint of a second revision.
    pub next: u16,
    /// The ports of the endpoints of the first revision: one or two.
    pub endpoints: Vec<u16>,
}

impl Words {
    /// What these words say, the first of which names the program.
    pub fn of(alloc: Global, texts: &[String]) -> Result<Words, Stop> {
        let [
            _,
            port,
            persistence,
            refusal_body,
            dials,
            log,
            next,
            endpoints @ ..,
        ] = texts
        else {
            return Err(Stop::WrongWords);
        };
        Ok(Words {
            port: port_of(port)?,
            persistence: persistence_of(persistence)?,
            refusal_body: refusal_body_of(refusal_body)?,
            redispatches: redispatches_of(dials)?,
            log: log.clone()?,
            next: port_of(next)?,
            endpoints: endpoints_of(alloc, endpoints)?,
        })
    }
}

fn endpoints_of(alloc: Global, words: &[String]) -> Result<Vec<u16>, Stop> {
    if !matches!(words.len(), 1 | 2) {
        return Err(Stop::WrongWords);
    }
    let mut ports = Vec::new(alloc);
    for word in words.iter() {
        if ports.push(port_of(word)?).is_err() {
            return Err(Stop::OutOfMemory);
        }
    }
    Ok(ports)
}

fn port_of(word: &str) -> Result<u16, Stop> {
    match word.parse::<u16>() {
        Ok(port) => Ok(port),
        Err(_) => Err(Stop::WrongWords),
    }
}

fn persistence_of(word: &str) -> Result<Persistence, Stop> {
    match word {
        "close" => Ok(Persistence::Close),
        "keep" => Ok(Persistence::Keep),
        _ => Err(Stop::WrongWords),
    }
}

fn refusal_body_of(word: &str) -> Result<RefusalBody, Stop> {
    match word {
        "empty" => Ok(RefusalBody::Empty),
        "pages" => Ok(RefusalBody::Page),
        _ => Err(Stop::WrongWords),
    }
}

fn redispatches_of(word: &str) -> Result<bool, Stop> {
    match word {
        "slot" => Ok(false),
        "redispatch" => Ok(true),
        _ => Err(Stop::WrongWords),
    }
}

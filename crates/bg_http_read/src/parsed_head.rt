//! The head of a message, found at the front of bytes.
ghost use Rattle.std.specs.Prelude.{◌≤◌, length};
ghost use Rattle.bg_http_read.specs.Heads.{FindsHead, FindsInFront, HeadGrammar, HeadLaws, IsParsed};

use crate::head_limits::{MOST_FIELDS, MOST_HEAD, ROOM};
use crate::message_fault::MessageFault;
use httparse::spans::{EMPTY_HEADER_SPAN, HeaderSpan};
use std::alloc::Global;

/// What a parser with room for some fields gives.
#[derive(Drop)]
pub(crate) enum Parsed<H> {
    /// There is no room for all fields.
    Crowded,
    /// The head and its length in bytes; `None` if the parser needs more bytes; or the fault.
    Done(Result<Option<(H, usize)>, MessageFault>),
}

/// The head of a kind of message.
pub(crate) trait ParsedHead: Drop {
    ghost heads: { HeadGrammar Self };

    /// The head that the parser finds in at most `MOST_HEAD` bytes.
    fn parse(alloc: Global, bytes: &[u8], room: &mut [HeaderSpan]) -> Parsed<Self>
        requires { length bytes.now ≤ MOST_HEAD }
        ensures { IsParsed heads bytes.now (length room.old) result };

    /// The laws of these heads. It does nothing at run time.
    fn laws()
        ensures { HeadLaws heads };
}

/// What `find_in_front` gives for bytes with more fields than a head may have. It has room for every
/// field that fits in that many bytes, so the fields after the first `MOST_FIELDS` are parsed too.
fn find_crowded<H: ParsedHead>(
    alloc: Global,
    bytes: &[u8],
) -> Result<Option<(H, usize)>, MessageFault>
    requires { length bytes.now ≤ MOST_HEAD }
    ensures { FindsInFront H.heads bytes.now result }
{
    let mut room = vec![in alloc; EMPTY_HEADER_SPAN; ROOM]?;
    match H::parse(alloc, bytes, room.as_mut_slice()) {
        Parsed::Done(found) => found,
        Parsed::Crowded => Err(MessageFault::Bad),
    }
}

/// The head at the front of at most `MOST_HEAD` bytes, and its length in bytes; `None` if there is no
/// complete head yet.
fn find_in_front<H: ParsedHead>(
    alloc: Global,
    bytes: &[u8],
) -> Result<Option<(H, usize)>, MessageFault>
    requires { length bytes.now ≤ MOST_HEAD }
    ensures { FindsInFront H.heads bytes.now result }
{
    let mut room = [EMPTY_HEADER_SPAN; MOST_FIELDS];
    match H::parse(alloc, bytes, &mut room) {
        Parsed::Done(found) => found,
        Parsed::Crowded => find_crowded(alloc, bytes),
    }
}

/// The head at the front, and its length in bytes; `None` if there is no complete head yet. A head
/// has at most `MOST_HEAD` bytes and `MOST_FIELDS` fields.
pub(crate) fn find_head<H: ParsedHead>(
    alloc: Global,
    bytes: &[u8],
) -> Result<Option<(H, usize)>, MessageFault>
    ensures { FindsHead H.heads bytes.now result }
{
    H::laws();
    let front = &bytes[..bytes.len().min(MOST_HEAD)];
    match find_in_front(alloc, front) {
        Ok(None) => {
            if bytes.len() < MOST_HEAD {
                return Ok(None);
            }
            Err(MessageFault::HeadTooLarge)
        }
        Ok(Some(found)) => Ok(Some(found)),
        Err(fault) => Err(fault),
    }
}

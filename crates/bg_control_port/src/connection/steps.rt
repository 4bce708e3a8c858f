//! What leads a connection from one stage to the next.
ghost use Rattle.std.specs.Prelude.{◌≡◌, IfOk, IsSome};
ghost use Rattle.bg_control_port.specs.Stages.{turn_of};
ghost use Rattle.bg_control_port.specs.Steps.{IsReadBy, asked, came, ended, given_line, go_on, replied, seen, skip, wrote};

use super::{Connection, Moment, Stage};
use crate::buffer::{Buffer, Found, Front};
use crate::reading::ReadsLines;
use crate::reply::{AfterReply, Reply};
use crate::turn::Place;
use std::alloc::{AllocError, Global};

/// The maximum number of bytes of a reply that are kept. The longest reply is a report of 64 revisions, of less than
/// 300 bytes each.
const MOST_KEPT: usize = 65_536;

impl<L: Drop> Connection<L> {
    /// Bytes came. If no line is awaited, nothing changes. The only error is an allocation failure.
    pub fn came(mut self, bytes: &[u8], at: Moment) -> Result<Connection<L>, AllocError>
        ensures { IfOk result (λ new. new ≡ came bytes.now at self) }
    {
        match self.stage {
            Stage::Awaits => {
                self.input.add(bytes)?;
                self.moved = at.now;
                Ok(self.seen(false, at.number))
            }
            Stage::Skips => {
                self.input.add(bytes)?;
                Ok(self.skip(false, at.number))
            }
            Stage::Came(..) | Stage::Waits(..) | Stage::Asked | Stage::Replies(..) => Ok(self),
        }
    }

    /// The input ended: the bytes that no line break followed are the last line. Without such bytes, the connection
    /// leaves.
    pub fn ended(self, number: u64) -> Option<Connection<L>>
        ensures { result ≡ ended number self }
    {
        match self.stage {
            Stage::Awaits => {
                if self.input.bytes().is_empty() {
                    return None;
                }
                Some(self.seen(true, number))
            }
            Stage::Skips => Some(self.skip(true, number)),
            Stage::Came(..) | Stage::Waits(..) | Stage::Asked | Stage::Replies(..) => Some(self),
        }
    }

    /// Looks for a whole line at the front of the input.
    fn seen(mut self, has_ended: bool, number: u64) -> Connection<L>
        ensures { result ≡ seen has_ended number self }
    {
        match self.input.front(has_ended) {
            Front::Line(length) => {
                self.stage = Stage::Came(Found::First(length), number);
                self
            }
            Front::Part => {
                self.stage = Stage::Awaits;
                self
            }
            Front::TooLong => self.skip(has_ended, number),
        }
    }

    /// Skips what came of a line that is too long. The line is whole with its line break, or with the end of the input.
    fn skip(mut self, has_ended: bool, number: u64) -> Connection<L>
        ensures { result ≡ skip has_ended number self }
    {
        let has_break = self.input.skip_line();
        self.stage = if has_break || has_ended {
            Stage::Came(Found::Skipped, number)
        } else {
            Stage::Skips
        };
        self
    }

    /// Reads the whole line that came, which then waits. If none came, nothing changes. The only error is an allocation
    /// failure.
    pub fn read<P: ReadsLines<L>>(mut self, reader: &P) -> Result<Connection<L>, AllocError>
        ensures { IfOk result (λ new. IsReadBy (P.reads reader.now) (P.puts_first reader.now) self new) }
    {
        let Stage::Came(found, number) = self.stage else {
            return Ok(self);
        };
        let line = reader.read(self.input.line(found))?;
        self.input.take_line(found);
        let place = Place {
            is_ahead: reader.is_urgent(&line),
            number,
        };
        self.stage = Stage::Waits(line, place);
        Ok(self)
    }

    /// Takes the line that waits.
    pub fn take_line(self) -> (Connection<L>, L)
        requires { IsSome (turn_of self.stage) }
        ensures asked { result.0 ≡ asked self }
        ensures line { given_line self ≡ Some result.1 }
    {
        let Connection {
            stage,
            input,
            peer,
            moved,
        } = self;
        let Stage::Waits(line, _) = stage else {
            unreachable!()
        };
        let asked = Connection {
            stage: Stage::Asked,
            input,
            peer,
            moved,
        };
        (asked, line)
    }

    /// Its line was answered, and so many bytes of the reply were taken at once. The rest is kept. The connection
    /// leaves if more than 65,536 bytes would have to be kept, or if the reply was taken whole and is its last. If no line
    /// is being answered, nothing changes. The only error is an allocation failure.
    pub fn replied(
        mut self,
        alloc: Global,
        reply: Reply,
        count: usize,
        at: Moment,
    ) -> Result<Option<Connection<L>>, AllocError>
        ensures { IfOk result (λ new. new ≡ replied reply.entry.bytes.now reply.entry.after count at self) }
    {
        let Stage::Asked = self.stage else {
            return Ok(Some(self));
        };
        if count >= reply.bytes.len() {
            return Ok(self.go_on(reply.after, at));
        }
        let rest = &reply.bytes[count..];
        if rest.len() > MOST_KEPT {
            return Ok(None);
        }
        let mut kept = Buffer::new(alloc);
        kept.add(rest)?;
        self.stage = Stage::Replies(kept, reply.after);
        self.moved = at.now;
        Ok(Some(self))
    }

    /// So many bytes of the rest of its reply were taken. The connection leaves if the reply was taken whole and is its
    /// last. If nothing is left of a reply, nothing changes.
    pub fn wrote(mut self, count: usize, at: Moment) -> Option<Connection<L>>
        ensures { result ≡ wrote count at self }
    {
        let Stage::Replies(reply, after) = &mut self.stage else {
            return Some(self);
        };
        if count >= reply.bytes().len() {
            let after = *after;
            return self.go_on(after, at);
        }
        reply.take(count);
        if count > 0 {
            self.moved = at.now;
        }
        Some(self)
    }

    /// Goes on after a reply was taken whole. The next line may be whole already.
    fn go_on(mut self, after: AfterReply, at: Moment) -> Option<Connection<L>>
        ensures { result ≡ go_on after at self }
    {
        match after {
            AfterReply::Closes => None,
            AfterReply::GoesOn => {
                self.moved = at.now;
                Some(self.seen(false, at.number))
            }
        }
    }
}

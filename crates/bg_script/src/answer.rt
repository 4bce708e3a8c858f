//! The answers to the lines of a script or of a control connection, and how they are written.
ghost use Rattle.std.specs.Prelude.{◌≡◌, OnOk};
ghost use Rattle.std.specs.Io.KnownBytes.{Appends};
ghost use Rattle.bg_script.specs.AnswerTexts.{answer_text, is_fault as is_fault_of, lacks_order as lacks_order_of, was_carried_out as was_carried_out_of};

use bg_book::{OpenFault, Reply};
use bg_operator::LineFault;
use std::io;
use std::io::Write;

/// The answer to a line of a script or of a control connection, other than the answer to a query.
#[derive(Clone, Copy, PartialEq, Eq, Debug, Drop)]
pub enum Answer {
    /// The book was opened.
    Opened,
    /// The book was not opened.
    OpenRefused(OpenFault),
    /// The line asks for an open book, and none is open.
    NotOpen,
    /// A book is open already.
    AlreadyOpen,
    /// The book answered a call.
    Made(Reply),
    /// This many entries were dropped from the history.
    Compacted(u64),
    /// This many ports are marked as down.
    MarkedDown(u64),
    /// The line `down` names a port twice, or the port 0.
    BadPorts,
    /// Requests enter and leave elsewhere, by the workers. A replay has no endpoints that could be down, and no clock.
    NotHere,
    /// The boot clock is not below the time limit of the line.
    TooLate,
    /// The event was carried out with this many outcomes, but the journal is not known to keep it.
    Unsaved(u64),
    /// The journal lacks an earlier order, so nothing was carried out.
    JournalFailed,
    /// The allocation for the answer to a query, or for the ports that are down, failed.
    OutOfMemory,
    /// The line gives no command.
    Unread(LineFault),
}

impl Answer {
    /// Whether it counts as a fault, which makes the exit status 1.
    pub fn is_fault(self) -> bool
        ensures { result ≡ is_fault_of self }
    {
        matches!(self, Answer::Unread(_))
    }

    /// Whether the line was carried out: it opened the book, gave an event that the book took, or told which ports are down.
    pub fn was_carried_out(self) -> bool
        ensures { result ≡ was_carried_out_of self }
    {
        matches!(
            self,
            Answer::Opened
                | Answer::Made(Reply::Done(_))
                | Answer::MarkedDown(_)
                | Answer::Unsaved(_)
        )
    }

    /// Whether the journal is known to lack an order, or not known to keep it.
    pub fn lacks_order(self) -> bool
        ensures { result ≡ lacks_order_of self }
    {
        matches!(self, Answer::Unsaved(_) | Answer::JournalFailed)
    }
}

/// Writes the line of an answer. If a write fails, a part of the line may have been written.
pub fn write_answer<W: Write>(answer: &Answer, writer: &mut W) -> io::Result<()>
    ensures { OnOk result (Appends (W.contents writer.old) (W.contents writer.new)
        (answer_text answer.now)) }
{
    match answer {
        Answer::Opened => writeln!(writer, "ok 0"),
        Answer::OpenRefused(fault) => writeln!(writer, "refused {}", fault.name()),
        Answer::NotOpen => writeln!(writer, "refused NotOpen"),
        Answer::AlreadyOpen => writeln!(writer, "refused AlreadyOpen"),
        Answer::Made(reply) => bg_report::reply(reply, writer),
        Answer::Compacted(count) => writeln!(writer, "compacted {count}"),
        Answer::MarkedDown(count) => writeln!(writer, "ok {count}"),
        Answer::BadPorts => writeln!(writer, "refused BadPorts"),
        Answer::NotHere => writeln!(writer, "refused NotHere"),
        Answer::TooLate => writeln!(writer, "refused TooLate"),
        Answer::Unsaved(count) => writeln!(writer, "unsaved {count}"),
        Answer::JournalFailed => writeln!(writer, "refused JournalFailed"),
        Answer::OutOfMemory => writeln!(writer, "refused OutOfMemory"),
        Answer::Unread(fault) => writeln!(writer, "fault {}", fault.name()),
    }
}

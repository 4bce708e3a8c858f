//! The line of a book's reply.
ghost use Rattle.std.specs.Prelude.{OnOk};
ghost use Rattle.std.specs.Io.KnownBytes.{Appends};
ghost use Rattle.bg_report.specs.Replies.{reply_text};

use bg_book::Reply;
use std::io;
use std::io::Write;

/// Writes the line of a reply: `entered NUMBER revision R port P`, `left NUMBER revision R`,
/// `ok OUTCOMES`, or `refused` and the name of the fault. If a write fails, a part of it may have been
/// written.
pub fn reply<W: Write>(reply: &Reply, writer: &mut W) -> io::Result<()>
    ensures { OnOk result (Appends (W.contents writer.old) (W.contents writer.new)
        (reply_text reply.now)) }
{
    match reply {
        Reply::Entered(ticket) => writeln!(
            writer,
            "entered {} revision {} port {}",
            ticket.number, ticket.revision, ticket.port
        ),
        Reply::EnterRefused(fault) => writeln!(writer, "refused {}", fault.name()),
        Reply::Left(left) => writeln!(writer, "left {} revision {}", left.number, left.revision),
        Reply::Done(outcomes) => writeln!(writer, "ok {outcomes}"),
        Reply::ControlRefused(fault) => writeln!(writer, "refused {}", fault.name()),
        Reply::NoSuchSeat => writeln!(writer, "refused NoSuchSeat"),
        Reply::SeatBusy => writeln!(writer, "refused SeatBusy"),
        Reply::SeatIdle => writeln!(writer, "refused SeatIdle"),
    }
}

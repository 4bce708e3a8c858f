//! What lines ask of a book, and the texts that answer them.
ghost use Rattle.std.specs.Prelude.{OnOk};
ghost use Rattle.std.specs.Io.KnownBytes.{Appends};
ghost use Rattle.bg_script.specs.QueryTexts.{query_text};

use bg_book::Book;
use bg_ledger::Names;
use bg_operator::Query;
use std::io;
use std::io::Write;

/// Writes the text that answers a query of a book. If a write fails, a part of it may have been written.
pub(crate) fn write_text<N: Names, W: Write>(
    query: Query,
    book: &Book<N>,
    writer: &mut W,
) -> io::Result<()>
    ensures { OnOk result (Appends (W.contents writer.old) (W.contents writer.new)
        (query_text query book.now)) }
{
    match query {
        Query::Report => bg_report::report(book, writer),
    }
}

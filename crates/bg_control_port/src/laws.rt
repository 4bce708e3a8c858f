//! The laws of a connection, for every run of its events.
ghost use Rattle.std.specs.Prelude.{List, ℕ};
ghost use Rattle.bg_control_port.specs.Ahead.{EndKeepsLines, Event, LinesAreGiven, LinesAreRead};
ghost use Rattle.bg_control_port.specs.declared.connection.Connection.{Connection};

/// Whatever events come, the lines that were read and those that are still read are the lines of all bytes that came,
/// in whatever pieces: each is the bytes up to and with the next LF, or is told to be too long.
pub fn lines_are_read<L: Drop>()
    ensures { (events : List (Event L)) (old new : Connection L) (more : List ℕ) → LinesAreRead events old new more }
{}

/// Whatever events come, the lines that were given, and the one that waits, are those that were read, in this order.
pub fn lines_are_given<L: Drop>()
    ensures { (events : List (Event L)) (old new : Connection L) → LinesAreGiven events old new }
{}

/// When the input ends, the bytes that no LF follows are the last line. A connection leaves only if there are none.
pub fn the_end_keeps_lines<L: Drop>()
    ensures { (number : ℕ) (old : Connection L) → EndKeepsLines number old }
{}

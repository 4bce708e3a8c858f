//! The laws of a relay, for every input and output that it stands for.
ghost use Rattle.std.specs.Prelude.{List, ℕ};
ghost use Rattle.bg_http_read.specs.BodyFaults.{Failure};
ghost use Rattle.bg_http_read.specs.declared.body.BodyStage.{BodyStage};
ghost use Rattle.bg_relay.specs.Laws.{BeginsBodies, FailsWhole, HoldsNoBody, KeepsLimit, PassesAlike, PassesWhole, WaitsShortly};
ghost use Rattle.bg_relay.specs.Relays.{RelayState};

/// Once a relay says that the body is whole, its input is one body by the grammar of `bg_http_read`, and its output, what was
/// written and what is to be written, is the same body in the framing of the output. A reader of the output reads this body and no
/// other one, and leaves nothing.
pub fn a_whole_body_is_passed_on()
    ensures { (relay : RelayState) (input written : List ℕ) → PassesWhole relay input written }
{}

/// At every moment, the bytes that were passed on begin the body of the input, whatever follows the input. So nothing is added, nothing is
/// lost, and the order is kept; and a reader of the output, whatever follows it, reads a body that begins with these bytes.
pub fn what_was_passed_on_begins_the_body()
    ensures { (relay : RelayState) (input output body more whole left : List ℕ)
        → BeginsBodies relay input output body more whole left }
{}

/// Before the body is whole, and for ever after a fault or a cut, neither the input nor the output begins with a body, if its framing has an end
/// of its own. In the framing that goes to the end of the connection each output is a body: so the caller resets that connection.
pub fn a_part_is_no_body()
    ensures { (relay : RelayState) (input written : List ℕ) → HoldsNoBody relay input written }
{}

/// The bytes of the body that were passed on are a function of the input that was taken, in whatever pieces it came and whenever its
/// output was written. Without chunks the output is the same, too.
pub fn the_pieces_do_not_matter()
    ensures { (one other : RelayState) (input first second : List ℕ) → PassesAlike one other input first second }
{}

/// The bytes that a relay refuses make its whole input a malformed body by the grammar of `bg_http_read`, and those that wait make it
/// one that is cut off.
pub fn what_is_refused_is_malformed()
    ensures { (relay : RelayState) (input written bytes : List ℕ) (failure : Failure)
        → FailsWhole relay input written bytes failure }
{}

/// No more bytes of a body are taken than its limit allows.
pub fn no_more_is_taken_than_the_limit()
    ensures { (relay : RelayState) (input written : List ℕ) → KeepsLimit relay input written }
{}

/// If there is room, fewer bytes than trailers may have are not taken. So a buffer of 16,384 bytes is enough to feed a relay.
pub fn what_waits_is_short()
    ensures { (stage : BodyStage) (bytes : List ℕ) → WaitsShortly stage bytes }
{}

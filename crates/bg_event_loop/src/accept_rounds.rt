//! How many clients a loop accepts in a row.
ghost use Rattle.std.specs.Prelude.{◌≡◌, ◌||◌, false, if◌then◌else◌, true};

/// The number of clients that are accepted in a row if many come.
const ACCEPTS_A_TURN: u32 = 2;

/// Whether a loop accepted clients in the last two rounds.
#[derive(Clone, Copy, PartialEq, Eq, Debug, Drop)]
pub(crate) struct AcceptRounds {
    /// In the round before.
    before: bool,
    /// In this round.
    now: bool,
}

impl AcceptRounds {
    /// No client was accepted.
    pub(crate) const NONE: AcceptRounds = AcceptRounds {
        before: false,
        now: false,
    };

    /// The next round begins.
    pub(crate) fn begin(&mut self)
        ensures { self.new ≡ record { before = self.old.now; now = false } }
    {
        self.before = self.now;
        self.now = false;
    }

    /// A client was accepted.
    pub(crate) fn note(&mut self)
        ensures { self.new ≡ record self.old { now = true } }
    {
        self.now = true;
    }

    /// The number of clients that are accepted in a row: one, or two if a client was accepted in the round before too, or if a
    /// loop has left clients to the others. So a client that comes alone costs no second call that finds none.
    pub(crate) fn most_in_a_row(self, is_backlog_left: bool) -> u32
        ensures { result ≡ (if self.before || is_backlog_left then 2 else 1) }
    {
        if self.before || is_backlog_left {
            ACCEPTS_A_TURN
        } else {
            1
        }
    }
}

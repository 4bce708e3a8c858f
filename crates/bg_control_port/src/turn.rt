//! Which line is next.
ghost use Rattle.std.specs.Prelude.{◌≡◌};
ghost use Rattle.bg_control_port.specs.Turns.{first_so_far, goes_before, precedence_after, row_after};

/// The maximum number of lines in a row that are answered before others since they are urgent. Then the line that
/// came first is answered, urgent or not, so that urgent lines without end hold up no other line for ever.
const MOST_URGENT_IN_A_ROW: u32 = 16;

/// An order of connections.
#[derive(Clone, Copy, Drop, PartialEq, Eq)]
pub enum Precedence {
    /// That in which their lines are given. Urgent lines are ahead.
    Lines,
    /// That in which their lines came.
    Arrival,
    /// That in which they are closed to make room. Those without a whole line are ahead, and the number is the moment since
    /// which a connection is silent.
    Silence,
}

/// A place in an order.
#[derive(Clone, Copy, Drop, PartialEq, Eq)]
pub struct Place {
    /// Whether it goes before the places of which this is false.
    pub is_ahead: bool,
    /// Of two places otherwise, the one with the smaller number goes first.
    pub number: u64,
}

impl Place {
    /// Whether this place goes before another one.
    pub fn goes_before(self, other: Place) -> bool
        ensures { result ≡ goes_before self.is_ahead self.number other.is_ahead other.number }
    {
        if self.is_ahead != other.is_ahead {
            return self.is_ahead;
        }
        self.number < other.number
    }
}

/// Of the first key so far and another one, the one whose place goes first.
pub fn first_so_far(
    first: Option<(usize, Place)>,
    key: usize,
    place: Option<Place>,
) -> Option<(usize, Place)>
    ensures { result ≡ first_so_far first key place }
{
    match (first, place) {
        (Some((other, least)), Some(place)) => {
            if place.goes_before(least) {
                Some((key, place))
            } else {
                Some((other, least))
            }
        }
        (None, Some(place)) => Some((key, place)),
        (first, None) => first,
    }
}

/// The order in which the next line is looked for, after so many urgent ones in a row.
pub fn precedence_after(urgent_in_a_row: u32) -> Precedence
    ensures { result ≡ precedence_after urgent_in_a_row }
{
    if urgent_in_a_row < MOST_URGENT_IN_A_ROW {
        Precedence::Lines
    } else {
        Precedence::Arrival
    }
}

/// How many lines in a row have been answered before others since they are urgent, after one more line.
pub fn row_after(urgent_in_a_row: u32, is_urgent: bool) -> u32
    ensures { result ≡ row_after urgent_in_a_row is_urgent }
{
    if is_urgent && urgent_in_a_row < MOST_URGENT_IN_A_ROW {
        urgent_in_a_row + 1
    } else {
        0
    }
}

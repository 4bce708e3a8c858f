//! The laws of the loads, for every run of the calls that change them.
ghost use Rattle.std.specs.Prelude.{List, ℕ};
ghost use Rattle.bg_load.specs.Events.{Event, PauseStays, SmallGoOn};
ghost use Rattle.bg_load.specs.Pauses.{FewGoOn, RegulatingSettles};
ghost use Rattle.bg_load.specs.Registers.{Register};
ghost use Rattle.bg_load.specs.Room.{SomeLoopMakesRoom};
ghost use Rattle.bg_load.specs.declared.connection.Connection.{Connection};
ghost use Rattle.bg_load.specs.declared.pauses.Pauses.{Pauses};
ghost use Rattle.bg_load.specs.declared.settings.LoadSettings.{LoadSettings};

/// Once `regulate` finds no request of a loop that is otherwise than the rule says: if no large request is to be paused, none is
/// paused; and while the younger ones are, at most eight large requests go on, and each large one that is older than one of
/// these goes on too. None goes on while those that wait for a seat take more than half of what requests may take.
pub fn few_large_requests_go_on()
    ensures { (which : Pauses) (register : Register) → FewGoOn which register }
{}

/// When `regulate` pauses or resumes a request, one request less is otherwise than the rule says, and the rule stays the
/// same. So as many calls of `regulate` at a moment as there are such requests leave none.
pub fn regulating_settles()
    ensures { (old : Register) (key now : ℕ) → RegulatingSettles old key now }
{}

/// No small request is paused, whatever calls come: each request that is paused is large. Of a new table this is true.
pub fn small_requests_go_on()
    ensures { (events : List Event) (old new : Register) → SmallGoOn events old new }
{}

/// A request stays paused, or goes on, when it is observed to be arriving with as many bytes as before or more. So only
/// `regulate` resumes it, or another request in its stead.
pub fn a_pause_stays()
    ensures { (old : Register) (key : ℕ) (c : Connection) (before bytes now : ℕ)
        → PauseStays old key c before bytes now }
{}

/// While the responses of all loops of a port take more than twice the memory that the settings give, those of one loop are more
/// than its part. So this loop has a connection that makes room, by `Loads::stillest_response`.
pub fn some_loop_makes_room()
    ensures { (loops : List Register) (settings : LoadSettings) → SomeLoopMakesRoom loops settings }
{}

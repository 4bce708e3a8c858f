//! What the books are opened with.
ghost use Rattle.std.specs.Prelude.{◌≡◌};

use bg_book::{Limits, RolloutOpening};
use bg_strategy::Strategy;
use bg_strategy_text::{StrategyFault, read};
use std::alloc::Global;

/// Two replicas, and no preview service.
pub fn strategy(alloc: Global) -> Result<Strategy, StrategyFault> {
    read(
        alloc,
        br#"{"spec": {"replicas": 2, "strategy": {"blueGreen": {"activeService": "web"}}}}"#,
    )
}

/// The ports of the endpoints.
const PORTS: &[u16] = &[9001, 9002];

/// The opening of a book of this many seats.
pub fn opening(strategy: &Strategy, seats: u32) -> RolloutOpening<'_>
    ensures { result.seats ≡ seats }
{
    RolloutOpening {
        strategy,
        name: "v1",
        ports: PORTS,
        seats,
        limits: Limits::usual(),
    }
}

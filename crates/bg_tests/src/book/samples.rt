//! What the books are opened with, and their first event.
ghost use Rattle.std.specs.Prelude.{◌≡◌};

use bg_book::{Control, Limits, RolloutOpening};
use bg_strategy::Strategy;
use bg_strategy_text::{StrategyFault, read};
use std::alloc::Global;
use std::io::Write;
use std::test::Fail;

/// Two replicas, and no preview service.
pub(crate) fn strategy(alloc: Global) -> Result<Strategy, StrategyFault> {
    read(
        alloc,
        br#"{"spec": {"replicas": 2, "strategy": {"blueGreen": {"activeService": "web"}}}}"#,
    )
}

/// Two replicas, and these settings in addition to the active service.
pub(crate) fn strategy_with(alloc: Global, settings: &str) -> Result<Strategy, Fail> {
    let mut text = Vec::new(alloc);
    write!(
        text,
        r#"{{"spec": {{"replicas": 2, "strategy": {{"blueGreen": {{"activeService": "web"{settings}}}}}}}}}"#
    )?;
    Ok(read(alloc, &text)?)
}

/// The ports of revision 1.
const PORTS: &[u16] = &[9001, 9002];

/// The opening of a book of this many seats, with these limits.
pub(crate) fn opening_within(strategy: &Strategy, seats: u32, limits: Limits) -> RolloutOpening<'_>
    ensures { result.seats ≡ seats }
{
    RolloutOpening {
        strategy,
        name: "v1",
        ports: PORTS,
        seats,
        limits,
    }
}

/// The opening of a book of this many seats.
pub(crate) fn opening(strategy: &Strategy, seats: u32) -> RolloutOpening<'_>
    ensures { result.seats ≡ seats }
{
    opening_within(strategy, seats, Limits::usual())
}

/// Both endpoints of revision 1 are available.
pub(crate) fn available() -> Control {
    Control::Available {
        revision: 1,
        size: 2,
    }
}

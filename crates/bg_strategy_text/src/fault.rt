//! Why a Rollout has no strategy.
ghost use Rattle.std.specs.Prelude.{◌≡◌, ◌⊎◌};
ghost use Rattle.serde_json.specs.Errors.{IsMemory};
ghost use Rattle.bg_strategy_text.specs.declared.fault.StrategyFault.TheVariants.{NotJson, OutOfMemory};

use crate::table::Field;
use std::alloc::AllocError;
use thiserror::Error;

/// The reason why `read` gives no strategy.
#[derive(Clone, Copy, Debug, Drop, PartialEq, Eq, Error)]
pub enum StrategyFault {
    /// The bytes are not a JSON text, or one that `serde_json` refuses: nested more than 127 levels deep, or with a
    /// number that is too large for a float.
    #[error("the input is not JSON")]
    NotJson,
    /// A required field is absent or null, or it is a service name with no bytes.
    #[error("{0} is missing")]
    Missing(Field),
    /// A field has a value of the wrong type.
    #[error("{0} has a value of the wrong type")]
    WrongType(Field),
    /// A field has a value of the right type that is outside its range, or a service name that is no DNS label.
    #[error("the value of {0} is outside its range")]
    OutOfRange(Field),
    /// `activeService` and `previewService` have the same name.
    #[error("activeService and previewService name the same service")]
    SameService,
    /// An allocation failed.
    #[error("out of memory")]
    OutOfMemory,
}

impl StrategyFault {
    ghost use Rattle.bg_strategy_text.specs.Faults.{kind_name_of, field_of};

    /// The name of the variant, as the enum spells it.
    pub fn kind_name(&self) -> &'static str
        ensures { result.now ≡ kind_name_of self.now }
    {
        match self {
            StrategyFault::NotJson => "NotJson",
            StrategyFault::Missing(_) => "Missing",
            StrategyFault::WrongType(_) => "WrongType",
            StrategyFault::OutOfRange(_) => "OutOfRange",
            StrategyFault::SameService => "SameService",
            StrategyFault::OutOfMemory => "OutOfMemory",
        }
    }

    /// The field that has the fault; `None` for `NotJson`, `SameService` and `OutOfMemory`.
    pub fn field(&self) -> Option<Field>
        ensures { result ≡ field_of self.now }
    {
        match self {
            StrategyFault::Missing(field)
            | StrategyFault::WrongType(field)
            | StrategyFault::OutOfRange(field) => Some(*field),
            StrategyFault::NotJson | StrategyFault::SameService | StrategyFault::OutOfMemory =>
                None,
        }
    }
}

impl From<AllocError> for StrategyFault {
    ghost from_gives = { λ _ e. e ≡ OutOfMemory };

    fn from(_refused: AllocError) -> StrategyFault {
        StrategyFault::OutOfMemory
    }
}

impl From<serde_json::Error> for StrategyFault {
    ghost from_gives = { λ x e. ((IsMemory x) × (e ≡ OutOfMemory))
        ⊎ ((¬ IsMemory x) × (e ≡ NotJson)) };

    fn from(error: serde_json::Error) -> StrategyFault {
        if error.is_memory() {
            StrategyFault::OutOfMemory
        } else {
            StrategyFault::NotJson
        }
    }
}

//! What holds of every core, regardless of the calls that made it.
ghost use Rattle.std.specs.Prelude.{◌≡◌, true, List, ◌∷◌};
ghost use Rattle.bg_strategy.specs.declared.strategy.Strategy.{Strategy};
ghost use Rattle.bg_history.specs.declared.entry.Entry.{Entry};
ghost use Rattle.bg_promotion.specs.Represents.{CoreRepresents, is_neutral};

use crate::promotion::Core;

/// If a core represents a past, it also represents that past with a newer entry that has no part in promotion: a
/// tick, availability, an Enter or a Leave, or a revision that is scaled down or removed.
pub fn neutral(core: &Core)
    ensures { (s : Strategy) (past : List Entry) (e : Entry) → is_neutral e ≡ true
        → CoreRepresents s core.now past → CoreRepresents s core.now (e ∷ past) }
{}

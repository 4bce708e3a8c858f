//! What holds of every past whose entries were allowed.
ghost use Rattle.std.specs.Prelude.{List, IsTrue};
ghost use Rattle.bg_strategy.specs.declared.strategy.Strategy.{Strategy};
ghost use Rattle.bg_history.specs.declared.entry.Entry.{Entry};
ghost use Rattle.bg_history.specs.Kept.{Opening};
ghost use Rattle.bg_history.specs.Steps.{all_allowed};
ghost use Rattle.bg_history_laws.specs.Reachable.{Reachable};

use bg_history::laws as history_laws;

/// `Reachable` holds of every past whose entries were allowed.
pub fn reachable()
    ensures { (s : Strategy) (o : Opening) (past : List Entry) → IsTrue (all_allowed s o past)
        → Reachable s o past }
{
    history_laws::existing_ascends();
}

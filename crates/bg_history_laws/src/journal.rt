//! What a journal keeps of a past.
ghost use Rattle.std.specs.Prelude.{ℕ, List};
ghost use Rattle.bg_strategy.specs.declared.strategy.Strategy.{Strategy};
ghost use Rattle.bg_history.specs.declared.entry.Entry.{Entry};
ghost use Rattle.bg_history.specs.Kept.{Opening};
ghost use Rattle.bg_history.specs.Steps.{IsLegal};
ghost use Rattle.bg_history_laws.specs.Journaled.{Journals};

/// A legal past without the entries of its requests is legal, for any number of seats. Each question about it that
/// depends on no request has the same answer, and no request is open.
pub fn journals()
    ensures { (s : Strategy) (o : Opening) (closed : List ℕ) (past : List Entry)
        → IsLegal s o closed past → Journals s o past }
{}

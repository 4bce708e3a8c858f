//! Laws of the text of a journal. Each stands on a function that does nothing.
ghost use Rattle.std.specs.Prelude.{◌≡◌, ◌<◌, ◌^◌, ℕ, not, true, List, None, Some};
ghost use Rattle.std.specs.List.{list_all};
ghost use Rattle.std.specs.Str.{IsUtf8};
ghost use Rattle.bg_history.specs.declared.entry.Entry.{Entry};
ghost use Rattle.bg_strategy.specs.declared.strategy.Strategy.{Strategy};
ghost use Rattle.bg_history.specs.Kept.{Opening};
ghost use Rattle.bg_history.specs.Steps.{IsLegal};
ghost use Rattle.bg_history_laws.specs.Journaled.{is_of_request, journaled};
ghost use Rattle.bg_journal.specs.Bounds.{bound_in, bound_text};
ghost use Rattle.bg_journal.specs.Texts.{entries_text, has_line, is_journaled, line_of};
ghost use Rattle.bg_journal.specs.Ticks.{KeepsWithoutTicks};

use bg_history_laws::{compacts, journals, keeps_table};

/// No two entries have one line.
pub fn lines_differ()
    ensures { (first second : Entry) → is_journaled first ≡ true → is_journaled second ≡ true
        → line_of first ≡ line_of second → first ≡ second }
{}

/// No two lists of entries have one text.
pub fn texts_differ()
    ensures { (first second : List Entry)
        → list_all is_journaled first ≡ true → list_all is_journaled second ≡ true
        → entries_text first ≡ entries_text second → first ≡ second }
{}

/// A text of entries is UTF-8, and so the bytes that are written for entries are a `str`.
pub fn texts_are_utf8()
    ensures { (entries : List Entry)
        → list_all is_journaled entries ≡ true → IsUtf8 (entries_text entries) }
{}

/// Each entry of a legal past but those of requests has a line.
pub fn journals_have_lines()
    ensures { (s : Strategy) (o : Opening) (closed : List ℕ) (past : List Entry)
        → IsLegal s o closed past → list_all has_line (journaled past) ≡ true }
{
    journals();
}

/// A legal past without entries of requests is legal without its superseded ticks too, which are those that another tick
/// directly follows. Each question about it has the same answer.
pub fn ticks_may_be_dropped()
    ensures { (s : Strategy) (o : Opening) (closed : List ℕ) (past : List Entry)
        → IsLegal s o closed past → list_all (λ e. not (is_of_request e)) past ≡ true
        → KeepsWithoutTicks s o closed past }
{
    compacts();
    keeps_table();
}

/// The text of a bound says this bound.
pub fn bounds_are_read()
    ensures { (n : ℕ) → n < 2 ^ 64 → bound_in (bound_text n) ≡ Some n }
{}

/// The text of entries says no bound.
pub fn entries_say_no_bound()
    ensures { (entries : List Entry) → bound_in (entries_text entries) ≡ None }
{}

//! The effect of an entry on the revisions of a past, and finding a revision in their list.
ghost use Rattle.std.specs.Prelude.{◌≡◌, ◌<◌, ℕ, [], ◌∷◌, ◌++◌, ◌==◌, not, max, if◌then◌else◌, List, length, map, filter, Some, None, IsTrue, IsFalse};
ghost use Rattle.std.specs.Option.{option_map};
ghost use Rattle.bg_strategy.specs.declared.strategy.Strategy.{Strategy};
ghost use Rattle.bg_revisions.specs.Rosters.{numbered, named, template_of, resized, reported};
ghost use Rattle.bg_history.specs.declared.entry.Entry.{Entry};
ghost use Rattle.bg_history.specs.declared.entry.Entry.TheVariants.{Deploy, Available, Retry, Outcome};
ghost use Rattle.bg_history.specs.declared.entry.Outcome.TheVariants.{Resumed, ScaledDown, Removed};
ghost use Rattle.bg_history.specs.Kept.{Opening};
ghost use Rattle.bg_history.specs.AttemptBounds.{stable_of, newest_of};
ghost use Rattle.bg_history.specs.Sizes.{existing, last_number, desired, available};
ghost use Rattle.bg_history.specs.Deadlines.{exists_in};
ghost use Rattle.bg_history.specs.Templates.{namesake};
ghost use Rattle.bg_history_laws.specs.Listed.{revision_of, revisions_of};
ghost use Rattle.bg_history_laws.specs.Changes.{resizes_none};
ghost use Rattle.bg_history_laws.specs.Answers.{template_answer};

use bg_history::laws as history_laws;

/// A report of `n` endpoints sets the available endpoints of its revision, and changes no other revision.
pub fn reports()
    ensures { (s : Strategy) (o : Opening) (past : List Entry) (r n : ℕ)
        → revisions_of s o (Available r n ∷ past)
        ≡ map (reported r n) (revisions_of s o past) }
{}

/// The size that an entry makes its revision want: at least the preview's size after a retry or a deploy, at least
/// full size after the end of the pause, and none after a scale-down (Argo Rollouts, "BlueGreen Deployment
/// Strategy"). A deploy of the stable revision changes no size. This law covers a deploy of an existing revision;
/// `appends` covers the others.
pub fn resizes()
    ensures retry { (s : Strategy) (o : Opening) (past : List Entry)
        → revisions_of s o (Retry ∷ past)
        ≡ map (resized (newest_of past)
        (max s.preview_replicas (desired s (newest_of past) past))) (revisions_of s o past) }
    ensures resumed { (s : Strategy) (o : Opening) (past : List Entry) (q : ℕ)
        → revisions_of s o (Outcome (Resumed q) ∷ past)
        ≡ map (resized q (max s.replicas (desired s q past))) (revisions_of s o past) }
    ensures scaled_down { (s : Strategy) (o : Opening) (past : List Entry) (q : ℕ)
        → revisions_of s o (Outcome (ScaledDown q) ∷ past)
        ≡ map (resized q 0) (revisions_of s o past) }
    ensures deploy { (s : Strategy) (o : Opening) (past : List Entry) (r : ℕ)
        (name ports : List ℕ)
        → IsTrue (exists_in r past) → IsFalse (r == stable_of past)
        → revisions_of s o (Deploy r name ports ∷ past)
        ≡ map (resized r (max s.preview_replicas (desired s r past))) (revisions_of s o past) }
    ensures deploy_stable { (s : Strategy) (o : Opening) (past : List Entry) (r : ℕ)
        (name ports : List ℕ)
        → IsTrue (exists_in r past) → IsTrue (r == stable_of past)
        → revisions_of s o (Deploy r name ports ∷ past) ≡ revisions_of s o past }
{
    history_laws::existing_ascends();
}

/// A deploy of a number above the greatest one given appends a revision of the preview's size, with this name, these
/// ports and no available endpoint. The law requires that the number had no desired and no available endpoints.
pub fn appends()
    ensures { (s : Strategy) (o : Opening) (past : List Entry) (r : ℕ) (name ports : List ℕ)
        → last_number past < r → IsFalse (r == stable_of past)
        → desired s r past ≡ 0 → available r past ≡ 0
        → revisions_of s o (Deploy r name ports ∷ past) ≡ revisions_of s o past ++ record {
          number = r;
          name = name;
          ports = ports;
          desired = s.preview_replicas;
          available = 0;
        } ∷ [] }
{}

/// A removal drops its revision, and changes no other one.
pub fn removes()
    ensures { (s : Strategy) (o : Opening) (past : List Entry) (r : ℕ)
        → revisions_of s o (Outcome (Removed r) ∷ past)
        ≡ filter (λ v. not (v.number == r)) (revisions_of s o past) }
{}

/// Each other entry changes no revision.
pub fn keeps()
    ensures { (s : Strategy) (o : Opening) (past : List Entry) (e : Entry)
        → IsTrue (resizes_none e) → revisions_of s o (e ∷ past) ≡ revisions_of s o past }
{}

/// The list has a revision for each existing number and for no other, and its length is the number of existing
/// revisions.
pub fn finds()
    ensures number { (s : Strategy) (o : Opening) (past : List Entry) (r : ℕ)
        → numbered r (revisions_of s o past)
        ≡ (if exists_in r past then Some (revision_of s o past r) else None) }
    ensures count { (s : Strategy) (o : Opening) (past : List Entry)
        → length (revisions_of s o past) ≡ length (existing past) }
{}

/// The revision of a name is the revision of its namesake's number. If the newest revision exists, the answer to a
/// template is `SameTemplate` if that revision has it; else `PortsDiffer` if a revision of this name has other ports;
/// else the number of the revision that has the template, or none.
pub fn names()
    ensures namesake { (s : Strategy) (o : Opening) (past : List Entry) (name : List ℕ)
        → named name (revisions_of s o past)
        ≡ option_map (revision_of s o past) (namesake o name past) }
    ensures template { (s : Strategy) (o : Opening) (past : List Entry) (newest : ℕ)
        (name ports : List ℕ) → IsTrue (exists_in newest past)
        → template_of newest name ports (revisions_of s o past)
        ≡ template_answer o newest name ports past }
{}

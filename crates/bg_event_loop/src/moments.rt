//! Moments, in milliseconds from the start of the loop.
ghost use Rattle.std.specs.Prelude.{◌≡◌};
ghost use Rattle.bg_event_loop.specs.Moments.{is_past};

/// Whether a moment has come; not if there is none.
pub(crate) fn has_come(moment: Option<u64>, now: u64) -> bool
    ensures { result ≡ is_past moment now }
{
    match moment {
        Some(moment) => moment <= now,
        None => false,
    }
}

//! The load of a connection: what it does, its progress in that, and whether it is paused.
ghost use Rattle.std.specs.Prelude.{◌≡◌};
ghost use Rattle.bg_load.specs.Loads.{answering_load, begins, begun, continued, if_so, idle_load, is_moving_load, is_slow};
ghost use Rattle.bg_load.specs.Loads.{is_stuck_load, observed, slow_since, still_load, turned};

use crate::activity::Activity;
use crate::among::Among;
use crate::progress::Progress;

/// The time, in milliseconds, within which a large request that goes on has to make progress while others are paused for it.
const STALLED_MILLIS: u64 = 750;

/// The load of a connection.
#[derive(Clone, Copy, PartialEq, Eq, Drop)]
pub struct Load {
    pub(crate) activity: Activity,
    /// Its progress in this, or the moment at which this began, if it is to make none.
    pub(crate) progress: Progress,
    /// Whether it is a request that is arriving, and paused.
    pub(crate) is_paused: bool,
}

/// A number or a moment, if this is so.
pub(crate) fn if_so(so: bool, number: u64) -> Option<u64>
    ensures { result ≡ if_so so number }
{
    if so { Some(number) } else { None }
}

impl Load {
    /// That of a connection that does this from now on.
    pub(crate) fn begun(activity: Activity, now: u64) -> Load
        ensures { result ≡ begun activity now }
    {
        Load {
            activity,
            progress: Progress {
                moment: now,
                bytes: activity.moved(),
            },
            is_paused: false,
        }
    }

    /// The same after the connection went on with what it did. A pause stays.
    fn continued(self, activity: Activity, now: u64) -> Load
        ensures { result ≡ continued self activity now }
    {
        Load {
            activity,
            progress: self
                .progress
                .noted_by(self.activity.pace(), activity.moved(), now),
            is_paused: self.is_paused,
        }
    }

    /// The same after the connection was observed.
    pub(crate) fn observed(self, activity: Activity, now: u64) -> Load
        ensures { result ≡ observed self activity now }
    {
        if self.activity.continues(activity) {
            self.continued(activity, now)
        } else {
            Load::begun(activity, now)
        }
    }

    /// Whether a request begins: it is arriving, and it is not the one that arrived before.
    pub(crate) fn begins(self, activity: Activity) -> bool
        ensures { result ≡ begins self activity }
    {
        activity.is_arriving() && !self.activity.continues(activity)
    }

    /// The same paused, or resumed if it was paused. Its pace is measured from the end of the pause on.
    pub(crate) fn turned(self, now: u64) -> Load
        ensures { result ≡ turned self now }
    {
        if self.is_paused {
            Load {
                progress: self.progress.restarted(now),
                is_paused: false,
                ..self
            }
        } else {
            Load {
                is_paused: true,
                ..self
            }
        }
    }

    /// Whether it is slower than the pace of what it does.
    fn is_slow(self, now: u64) -> bool
        ensures { result ≡ is_slow self now }
    {
        self.progress
            .is_slower_by(self.activity.pace(), self.activity.moved(), now)
    }

    /// Whether it is large, and slower than its pace, paused or not.
    pub(crate) fn is_stuck(self, now: u64) -> bool
        ensures { result ≡ is_stuck_load now self }
    {
        self.activity.is_large() && self.is_slow(now)
    }

    /// Whether it is large, goes on, and has made progress lately.
    pub(crate) fn is_moving(self, now: u64) -> bool
        ensures { result ≡ is_moving_load now self }
    {
        self.activity.is_large()
            && !self.is_paused
            && now.saturating_sub(self.progress.moment) < STALLED_MILLIS
    }

    /// Since when it has made no progress, if it is slow, and among these. A request that is paused is not slow.
    pub(crate) fn slow_since(self, among: Among, now: u64) -> Option<u64>
        ensures { result ≡ slow_since among now self }
    {
        if_so(
            among.has(self.activity) && !self.is_paused && self.is_slow(now),
            self.progress.moment,
        )
    }

    /// Since when it has made no progress, if it is a large request.
    pub(crate) fn still_since(self) -> Option<u64>
        ensures { result ≡ still_load self }
    {
        if_so(self.activity.is_large(), self.progress.moment)
    }

    /// Since when it has made no progress, if its response is written.
    pub(crate) fn answering_since(self) -> Option<u64>
        ensures { result ≡ answering_load self }
    {
        if_so(self.activity.is_answering(), self.progress.moment)
    }

    /// Since when it is idle.
    pub(crate) fn idle_since(self) -> Option<u64>
        ensures { result ≡ idle_load self }
    {
        if_so(self.activity.is_idle(), self.progress.moment)
    }
}

//! What holds of every legal history, as laws for the crates that depend on this one.
#![tactic(auto)]

pub mod compaction;
pub mod facts;
pub mod journal;
pub mod listing;
pub mod promises;
pub mod settling;

pub use bg_history::laws::existing_ascends;
pub use compaction::{
    commutes, compacts, compacts_once, is_sound, keeps_table, no_longer, stays_settled,
};
pub use facts::reachable;
pub use journal::journals;
pub use listing::{appends, finds, keeps, names, removes, reports, resizes};
pub use promises::{
    can_promote, can_roll_back, drained_is_scaled_down, keeps_requests, only_tested_is_live,
};
pub use settling::{
    entering_settles, leaving_allows_two, leaving_settles, oldest_is_removed, settles_once,
    work_falls, work_is_bounded,
};

//! The list of entries.

mod audit;
mod changed_histories;
mod changes;
pub(crate) mod gathered;
mod sizes;
pub(crate) mod texts;

//! The journal of a desk, in the database of bg_journal_store.
//!
//! The first row of the database has the strategy and the first revision. Each further row has the entries of an order, or says
//! up to which number requests may have got numbers.
#![tactic(auto)]

mod file_opener;
mod first_row;
mod opens_journal;
mod orders;
mod recorded;
mod rows;
mod start_fault;
mod starting;
mod stored_orders;

pub use file_opener::FileOpener;
pub use first_row::settings_of;
pub use opens_journal::OpensJournal;
pub use recorded::recorded_strategy;
pub use start_fault::StartFault;
pub use starting::{Resumption, begin_in_file, begin_numbered, open_journal};
pub use stored_orders::StoredOrders;

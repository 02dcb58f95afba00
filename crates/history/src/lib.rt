// The history of the machine in a lent store (01, section 7): records of one length, oldest first, and
// what `undo` needs beside them.
#![tactic(auto)]

mod differing;
mod layout;
mod restore;
mod snapshot;
mod store;

pub use differing::{Differences, differing_addresses};
pub use restore::{restored_counters, restored_state, store_refusal, undo_refusal};
pub use snapshot::Snapshot;
pub use store::{history_limit, newest_record, push_record};

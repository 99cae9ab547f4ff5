// Working parts of the gatherer over a lent store of records. They are for the crates above, which check what they ask.
#![tactic(auto)]

mod accept;
mod merge;
mod record;
mod remove;

pub use accept::{Batch, Filter, groups_below};
pub use merge::{append_merged, count_merged};
pub use record::Record;
pub use remove::remove_below;

// Lists handed over: the lists of a store of records, written into buffers that the caller owns. These are working parts for
// the crates above, which check what they ask.
#![tactic(auto)]

mod cells;
mod counts;
mod lists;
mod offsets;
mod one_list;
mod scatter;

pub use cells::CellBuffers;
pub use counts::{count_below, count_list};
pub use lists::write_lists;
pub use one_list::copy_list;

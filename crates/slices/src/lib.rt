// Containers over a slice that the caller lends: a vector and a ring. They are working parts for the crates above, which check
// what each call asks.
#![tactic(auto)]

mod ring;
mod slice_deque;
mod slice_vec;

pub use ring::{place_at, skip};
pub use slice_deque::SliceDeque;
pub use slice_vec::SliceVec;

// Working parts of the collectors, one text for every kind: the order of cells, and where a cell belongs in a row of them.
#![tactic(auto)]

mod counted;
mod halve;
mod order;

pub use counted::Counted;
pub use halve::find_place;
pub use order::{SortOptions, compare_cells};

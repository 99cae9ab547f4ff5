// Cells, batches and list columns.
#![tactic(auto)]

mod as_is;
mod batches;
mod cells;
mod column;
mod iters;
mod lists;
mod offset;
mod parts;
mod policy;

pub use cells::{CellParts, Cells};
pub use column::{ColumnParts, ListColumn, Part};
pub use iters::{CellIter, ListIter};
pub use policy::passes;

// The most rows that a batch or a list column may have.
pub const MAX_ROWS: usize = 65_536;

// The most cells behind a column's lists.
pub const MAX_CELLS: usize = 1_048_576;

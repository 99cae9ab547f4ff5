// Where a cell belongs in a row of counted cells that is kept in order.
ghost use Rattle.std.specs.Prelude.{◌≤◌, length};
ghost use Rattle.rows.specs.Orders.{order_cells};
ghost use Rattle.rows.specs.Sorted.{Place, Rising};

use crate::counted::Counted;
use crate::order::{SortOptions, compare_cells};
use kinds::Ordered;

// The place of a cell in a row, by halving. Where the row does not rise, it is some place in it.
pub fn find_place<K: Ordered>(options: SortOptions, row: &[Counted<K>], cell: &Option<K>) -> usize
    ensures bound { result ≤ length row.now }
    ensures place { Rising (order_cells K.Ordered.order options) row.now → Place (order_cells K.Ordered.order options) row.now cell.now result }
{
    row.partition_point(|counted| compare_cells(options, &counted.cell, cell).is_lt())
}

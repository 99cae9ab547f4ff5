// The cells of a part and the lists of a column, one after another.
ghost use Rattle.std.specs.Option.{option_map};
ghost use Rattle.std.specs.Iterator.{YieldsFirst, YieldsFirstBy, item_count};
ghost use Rattle.columns.specs.Columns.{part_cells};
ghost use Rattle.columns.specs.Steps.{cells_left, lists_left};

use crate::{ListColumn, Part};
use std::ops::Range;

// The cells that are left of a part.
#[derive(Clone, Drop)]
pub struct CellIter<'a, K> {
    pub(crate) part: Part<'a, K>,
    pub(crate) rows: Range<usize>,
}

impl<'a, K: Copy> Iterator for CellIter<'a, K> {
    type Item = Option<K>;

    ghost next_gives = { YieldsFirst cells_left };

    ghost remaining = { item_count cells_left };

    fn next(&mut self) -> Option<Option<K>> {
        self.part.cell(self.rows.next()?).ok()
    }
}

// The lists that are left of a column. It looks like the iterator of cells; one text for both would need a trait for what each
// reads, with its laws.
#[derive(Clone, Drop)]
pub struct ListIter<'a, K> {
    pub(crate) column: &'a ListColumn<'a, K>,
    pub(crate) rows: Range<usize>,
}

impl<'a, K: Copy> Iterator for ListIter<'a, K> {
    type Item = Option<Part<'a, K>>;

    ghost next_gives = { YieldsFirstBy (option_map part_cells) lists_left };

    ghost remaining = { item_count lists_left };

    fn next(&mut self) -> Option<Option<Part<'a, K>>> {
        self.column.list(self.rows.next()?).ok()
    }
}

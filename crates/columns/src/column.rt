// A list column over offsets, a map and cells that the caller owns. One that exists keeps the rules.
ghost use Rattle.std.specs.Prelude.{◌≤◌, length};
ghost use Rattle.bitmap.specs.Maps.{row_count};
ghost use Rattle.columns.specs.Offsets.{GoodOffsets};

use crate::cells::{CellParts, Cells};
use bitmap::Validity;

// What a caller passes for a list column, unchecked: how many rows, the offsets, a validity map for the rows, and the cells
// behind the lists, apart as the format has them.
#[derive(Clone, Copy)]
pub struct ColumnParts<'a, K> {
    pub rows: usize,
    pub offsets: &'a [i32],
    pub map: &'a [u8],
    pub cells: CellParts<'a, K>,
}

#[derive(Drop)]
pub struct ListColumn<'a, K> {
    pub(crate) offsets: &'a [i32],
    pub(crate) map: Validity<'a>,
    pub(crate) cells: Cells<'a, K>,
    ghost few: { row_count map ≤ 65536 },
    ghost good: { GoodOffsets offsets.now (row_count map) (length cells.cues.now) },
}

// A part of the cells behind a column's lists, not copied and so with cues beside a map: the row of its first cell, the map of
// all the cells, and its cues.
#[derive(Clone, Copy)]
pub struct Part<'a, K> {
    pub place: usize,
    pub map: &'a [u8],
    pub cues: &'a [K],
}

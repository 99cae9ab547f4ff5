// The part of a column's own cells that a merge can take as it stands.
ghost use Rattle.std.specs.Prelude.{◌≡◌, ℕ, ◌<◌, ◌≤◌, true, false, Some, None, MatchBool, MatchOption};
ghost use Rattle.bitmap.specs.Maps.{row_valid};
ghost use Rattle.columns.specs.Columns.{PartOf, column_rows, part_cells};
ghost use Rattle.columns.specs.Merging.{ColumnGap, RowCovers, RowWhole, column_span, merged_cells};

use crate::{ListColumn, Part};

impl<'a, K: Copy> ListColumn<'a, K> {
    // The part of the cells that can be merged as it stands: the cells of the valid lists, with no cell of a null row between.
    pub fn get_optional_values_to_merge_as_is(&self) -> Option<Part<'a, K>>
        ensures part { MatchOption result (column_span self.now ≡ None) (λ p. (to : ℕ) × (column_span self.now ≡ Some (p.place, to)) × PartOf self.now p.place to p) }
        ensures joined { MatchOption result (ColumnGap self.now) (λ p. (part_cells p ≡ merged_cells self.now) × (ColumnGap self.now → ⊥)) }
    {
        let rows = self.rows();
        if self.map.null_count() == 0 {
            let from = self.start(0);
            let to = self.start(rows);
            return Some(self.cut(from, to));
        }
        let Some(first) = self.first_valid() else {
            return Some(self.cut(0, 0));
        };
        // Where there is a first one there is a last.
        let last = self.last_valid().unwrap_or(first);
        if !self.whole_between(first, last) {
            return None;
        }
        let from = self.start(first);
        let to = self.start(last + 1);
        Some(self.cut(from, to))
    }

    // Whether a row that the column has is valid.
    fn row_valid(&self, i: usize) -> bool
        requires { i < column_rows self.now }
        ensures { result ≡ row_valid self.now.map i }
    {
        self.map.is_valid(i).unwrap_or(false)
    }

    // The first row that is valid. One text for this and the last would take the direction, and state both answers by it.
    fn first_valid(&self) -> Option<usize>
        ensures { MatchOption result ((k : ℕ) → k < column_rows self.now → row_valid self.now.map k ≡ false)
            (λ i. (i < column_rows self.now) × (row_valid self.now.map i ≡ true) × ((k : ℕ) → k < i → row_valid self.now.map k ≡ false)) }
    {
        (0..self.rows()).find(|i| self.row_valid(*i))
    }

    // The last row that is valid.
    fn last_valid(&self) -> Option<usize>
        ensures { MatchOption result ((k : ℕ) → k < column_rows self.now → row_valid self.now.map k ≡ false)
            (λ i. (i < column_rows self.now) × (row_valid self.now.map i ≡ true) × ((k : ℕ) → i < k → k < column_rows self.now → row_valid self.now.map k ≡ false)) }
    {
        (0..self.rows()).rfind(|i| self.row_valid(*i))
    }

    // Whether row i is valid or covers no cell.
    fn row_whole(&self, i: usize) -> bool
        requires { i < column_rows self.now }
        ensures { MatchBool result (RowWhole self.now i) (RowCovers self.now i) }
    {
        self.row_valid(i) || self.start(i) >= self.start(i + 1)
    }

    // Whether no null row from one place to before another covers a cell.
    fn whole_between(&self, from: usize, to: usize) -> bool
        requires { to ≤ column_rows self.now }
        ensures { MatchBool result ((k : ℕ) → from ≤ k → k < to → RowWhole self.now k) ((k : ℕ) × (from ≤ k) × (k < to) × RowCovers self.now k) }
    {
        (from..to).all(|i| self.row_whole(i))
    }
}

// List columns, checked and read.
ghost use Rattle.std.specs.Prelude.{◌≡◌, ℕ, ◌+◌, ◌<◌, ◌≤◌, ◌↔◌, length, IsOk, IfOk, IfSome};
ghost use Rattle.std.specs.Option.{option_map};
ghost use Rattle.std.specs.Result.{result_map_both};
ghost use Rattle.refusals.specs.Checks.{outcome_of, unless};
ghost use Rattle.columns.specs.Columns.{GoodColumn, PartOf, column_checks, column_row_checks, column_rows, list_at, part_cells, passed_list};
ghost use Rattle.columns.specs.Offsets.{start_of};
ghost use Rattle.columns.specs.Steps.{lists_in, lists_left};

use crate::offset::offsets_keep;
use crate::{Cells, ColumnParts, ListColumn, ListIter, MAX_CELLS, MAX_ROWS, Part};
use bitmap::Validity;
use refusals::Refusal;

impl<'a, K: Copy> ListColumn<'a, K> {
    // The column of these parts.
    pub fn new(parts: ColumnParts<'a, K>) -> Result<ListColumn<'a, K>, Refusal>
        ensures outcome { outcome_of result ≡ unless (column_checks parts.entry) tt }
        ensures good { IsOk result ↔ GoodColumn parts.entry }
        ensures rows { IfOk result (λ c. column_rows c ≡ parts.entry.rows) }
        ensures lists { IfOk result (λ c. (i : ℕ) → i < column_rows c → list_at c i ≡ passed_list parts.entry i) }
    {
        let ColumnParts {
            rows,
            offsets,
            map,
            cells,
        } = parts;
        if rows > MAX_ROWS || cells.rows > MAX_CELLS {
            return Err(Refusal::TooManyRows);
        }
        let cells = Cells::over(cells)?;
        let map = Validity::new(map, rows)?;
        if !offsets_keep(offsets, rows, cells.cues.len()) {
            return Err(Refusal::BadOffsets);
        }
        Ok(ListColumn {
            offsets,
            map,
            cells,
        })
    }

    pub fn rows(&self) -> usize
        ensures { result ≡ column_rows self.now }
    {
        self.map.rows()
    }

    // Row i: none where it is null, or the part of the cells that it covers.
    pub fn list(&self, i: usize) -> Result<Option<Part<'a, K>>, Refusal>
        ensures answer { result_map_both (option_map part_cells) (λ e. e) result ≡ unless (column_row_checks self.now i) (list_at self.now i) }
        ensures part { IfOk result (λ list. IfSome list (PartOf self.now (start_of self.now.offsets.now i) (start_of self.now.offsets.now (i + 1)))) }
    {
        if !self.map.is_valid(i)? {
            return Ok(None);
        }
        let from = self.start(i);
        let to = self.start(i + 1);
        Ok(Some(self.cut(from, to)))
    }

    // The lists, in the order of their rows: none where a row is null, or the part of the cells that it covers.
    pub fn iter(&self) -> ListIter<'_, K>
        ensures { lists_left result ≡ lists_in self.now }
    {
        ListIter {
            column: self,
            rows: 0..self.rows(),
        }
    }

    // Where row i starts, or for the number of rows where the last one ends.
    pub(crate) fn start(&self, i: usize) -> usize
        requires { i ≤ column_rows self.now }
        ensures value { result ≡ start_of self.now.offsets.now i }
        ensures bound { result ≤ length self.now.cells.cues.now }
    {
        self.offsets[i] as usize
    }

    pub(crate) fn cut(&self, from: usize, to: usize) -> Part<'a, K>
        requires { (from ≤ to) × (to ≤ length self.now.cells.cues.now) }
        ensures { PartOf self.now from to result }
    {
        Part {
            place: from,
            map: self.cells.map.bytes(),
            cues: &self.cells.cues[from..to],
        }
    }
}

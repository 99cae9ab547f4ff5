// Cells as they come in a batch, checked and read.
ghost use Rattle.std.specs.Prelude.{◌≡◌, None, length, IfOk, slice_index_or};
ghost use Rattle.refusals.specs.Checks.{outcome_of, unless};
ghost use Rattle.columns.specs.Cells.{batch_checks, level_checks, passed_cells};
ghost use Rattle.columns.specs.Columns.{cell_row_checks, cells_in, part_cells};
ghost use Rattle.columns.specs.Steps.{cells_left};

use crate::{CellIter, CellParts, Cells, MAX_ROWS, Part};
use bitmap::Validity;
use refusals::Refusal;

impl<'a, K: Copy> Cells<'a, K> {
    // The cells of a batch.
    pub fn new(parts: CellParts<'a, K>) -> Result<Cells<'a, K>, Refusal>
        ensures outcome { outcome_of result ≡ unless (batch_checks parts.entry) tt }
        ensures cells { IfOk result (λ c. cells_in c ≡ passed_cells parts.entry) }
    {
        if parts.rows > MAX_ROWS {
            return Err(Refusal::TooManyRows);
        }
        Cells::over(parts)
    }

    // The cells of these parts, be they as many as a map can have.
    pub(crate) fn over(parts: CellParts<'a, K>) -> Result<Cells<'a, K>, Refusal>
        ensures outcome { outcome_of result ≡ unless (level_checks parts.entry) tt }
        ensures cells { IfOk result (λ c. (cells_in c ≡ passed_cells parts.entry) × (c.cues.now ≡ parts.entry.cues.now)) }
    {
        let CellParts { rows, map, cues } = parts;
        if cues.len() != rows {
            return Err(Refusal::CountsDiffer);
        }
        let map = Validity::new(map, rows)?;
        Ok(Cells { map, cues })
    }

    pub fn len(&self) -> usize
        ensures { result ≡ length (cells_in self.now) }
    {
        self.whole().len()
    }

    pub fn cell(&self, i: usize) -> Result<Option<K>, Refusal>
        ensures { result ≡ unless (cell_row_checks self.now i) (slice_index_or (cells_in self.now) i None) }
    {
        // Read here and not through `whole`, for speed, and by no `then_some`, as in a part.
        if self.map.is_valid(i)? {
            Ok(Some(self.cues[i]))
        } else {
            Ok(None)
        }
    }

    // The cells, in their order.
    pub fn iter(&self) -> CellIter<'a, K>
        ensures { cells_left result ≡ cells_in self.now }
    {
        self.whole().iter()
    }

    // All the cells as one part.
    fn whole(&self) -> Part<'a, K>
        ensures cues { result.cues.now ≡ self.now.cues.now }
        ensures cells { part_cells result ≡ cells_in self.now }
    {
        Part {
            place: 0,
            map: self.map.bytes(),
            cues: self.cues,
        }
    }
}

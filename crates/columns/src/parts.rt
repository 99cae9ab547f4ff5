// Parts of cells, read.
ghost use Rattle.std.specs.Prelude.{◌≡◌, length, slice_index_or, None};
ghost use Rattle.refusals.specs.Checks.{unless};
ghost use Rattle.columns.specs.Columns.{part_cells, part_row_checks};
ghost use Rattle.columns.specs.Steps.{cells_left};

use crate::{CellIter, Part};
use bitmap::get_bit;
use refusals::Refusal;

impl<'a, K: Copy> Part<'a, K> {
    pub fn len(&self) -> usize
        ensures { result ≡ length (part_cells self.now) }
    {
        self.cues.len()
    }

    pub fn cell(&self, i: usize) -> Result<Option<K>, Refusal>
        ensures { result ≡ unless (part_row_checks self.now i) (slice_index_or (part_cells self.now) i None) }
    {
        let Some(cue) = self.cues.get(i) else {
            return Err(Refusal::IndexOutOfRange);
        };
        // By `then_some`, reading many cells takes up to half as long again.
        if get_bit(self.map, self.place, i) {
            Ok(Some(*cue))
        } else {
            Ok(None)
        }
    }

    // The cells, in their order.
    pub fn iter(&self) -> CellIter<'a, K>
        ensures { cells_left result ≡ part_cells self.now }
    {
        CellIter {
            part: *self,
            rows: 0..self.len(),
        }
    }
}

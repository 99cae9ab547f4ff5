// One list of the store.
ghost use Rattle.std.specs.Prelude.{◌≡◌, ℕ, ◌<◌, ◌≤◌, ◌++◌, map, length, drop};
ghost use Rattle.bitmap.specs.Bits.{bytes_for};
ghost use Rattle.bitmap.specs.Maps.{MapWritten};
ghost use Rattle.records.specs.Lists.{cell_valid, cue_of};
ghost use Rattle.records.specs.Records.{list_of};
ghost use Rattle.emit.specs.Marks.{Clear};
ghost use Rattle.emit.specs.Buffers.{SameBuffers};

use crate::cells::CellBuffers;
use crate::counts::count_list;
use kinds::Keyed;
use records::Record;

// Writes the cells of list j, over a clear map.
fn copy_cells<K: Keyed>(records: &[Record<K>], j: u32, cells: &mut CellBuffers<K>)
    requires room { length (list_of j records.now) ≤ length cells.old.cues.now }
    requires bytes { bytes_for (length (list_of j records.now)) ≤ length cells.old.map.now }
    requires clear { Clear (length (list_of j records.now)) cells.old.map.now }
    ensures same { SameBuffers cells.old cells.new }
    ensures cues { cells.new.cues.now ≡ map (cue_of K.Keyed.empty) (list_of j records.now) ++ drop (length (list_of j records.now)) cells.old.cues.now }
    ensures marks { MapWritten (cell_valid (list_of j records.now)) (length (list_of j records.now)) cells.old.map.now cells.new.map.now }
{
    // A filter that is enumerated would count p, but in a generic function the check takes no invariant at a `for` over a filter.
    let mut p = 0;
    for r in records {
        if r.group == j {
            cells.put(p, r.cell);
            p += 1;
        }
    }
}

// Writes the cues of list j and the map of its cells, and answers how many cells it has.
pub fn copy_list<K: Keyed>(records: &[Record<K>], j: u32, cells: &mut CellBuffers<K>) -> usize
    requires cues { length (list_of j records.now) ≤ length cells.old.cues.now }
    requires marks { bytes_for (length (list_of j records.now)) ≤ length cells.old.map.now }
    ensures answer { result ≡ length (list_of j records.now) }
    ensures same { SameBuffers cells.old cells.new }
    ensures cues { cells.new.cues.now ≡ map (cue_of K.Keyed.empty) (list_of j records.now) ++ drop result cells.old.cues.now }
    ensures marks { MapWritten (cell_valid (list_of j records.now)) result cells.old.map.now cells.new.map.now }
{
    let size = count_list(records, j);
    cells.clear(size);
    copy_cells(records, j, cells);
    size
}

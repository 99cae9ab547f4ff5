// The lists of a column, each for a group: their cells counted, and appended to a store.
ghost use Rattle.std.specs.Prelude.{◌≡◌, ℕ, ◌+◌, ◌≤◌, List, ◌++◌, length, drop};
ghost use Rattle.columns.specs.Columns.{column_rows};
ghost use Rattle.slices.specs.Vecs.{places, slice_vec_len, spare_places, values, KeepsSlice};
ghost use Rattle.records.specs.Batches.{column_records};

use crate::Record;
use columns::ListColumn;
use slices::SliceVec;

// How many cells the valid lists have, whatever their groups.
pub fn count_merged<K: Copy>(column: &ListColumn<K>) -> usize
    ensures { (groups : List ℕ) → result ≡ length (column_records column.now groups) }
{
    column.iter().flatten().map(|part| part.len()).sum()
}

// Appends the records of all lists, each for its group, in the order of the lists.
pub fn append_merged<K: Copy>(
    store: &mut SliceVec<Record<K>>,
    groups: &[u32],
    column: &ListColumn<K>,
)
    requires groups { column_rows column.now ≤ length groups.now }
    requires room { slice_vec_len store.old + length (column_records column.now groups.now) ≤ length (places store.old) }
    ensures same_slice { KeepsSlice store.old store.new }
    ensures values { values store.new ≡ values store.old ++ column_records column.now groups.now }
    ensures len { slice_vec_len store.new ≡ slice_vec_len store.old + length (column_records column.now groups.now) }
    ensures spare { spare_places store.new ≡ drop (slice_vec_len store.new) (places store.old) }
{
    for (group, list) in groups.iter().zip(column.iter()) {
        if let Some(part) = list {
            store.extend(
                part.iter().map(|cell| Record {
                    group: *group,
                    cell,
                }),
            );
        }
    }
}

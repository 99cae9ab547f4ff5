// The rows of a batch that are accepted: counted, and appended to a store.
ghost use Rattle.std.specs.Prelude.{◌≡◌, ◌+◌, ◌<◌, ◌≤◌, ◌&&◌, ◌↔◌, ◌++◌, length, drop, All, IsTrue};
ghost use Rattle.std.specs.Option.{option_map};
ghost use Rattle.columns.specs.Policies.{passes};
ghost use Rattle.slices.specs.Vecs.{places, slice_vec_len, spare_places, values, KeepsSlice};
ghost use Rattle.records.specs.Batches.{batch_records, marked};

use crate::Record;
use columns::{Cells, passes};
use slices::SliceVec;

// Whether every group is below the count.
pub fn groups_below(groups: &[u32], count: u32) -> bool
    ensures { IsTrue result ↔ All (λ group. group < count) groups.now }
{
    groups.iter().all(|group| *group < count)
}

// Which rows of a batch are accepted: those that are marked, where there are marks, and whose cell passes the null policy.
#[derive(Clone, Copy)]
pub struct Filter<'a> {
    pub ignore: bool,
    pub marks: Option<&'a [bool]>,
}

impl<'a> Filter<'a> {
    // The mark of row i; where there are no marks, each is yes.
    fn marked(&self, i: usize) -> bool
        ensures { result ≡ marked (option_map (λ x. x.now) self.now.marks) i }
    {
        self.marks.is_none_or(|marks| marks.get(i) == Some(&true))
    }

    // Whether row i is accepted, if this is its cell.
    fn accepts<K: Copy>(&self, i: usize, cell: &Option<K>) -> bool
        ensures { result ≡ (marked (option_map (λ x. x.now) self.now.marks) i && passes self.now.ignore cell.now) }
    {
        self.marked(i) && passes(self.ignore, cell)
    }
}

// The rows of a batch, each a cell for a group, and which of them are accepted. Groups and cells come from the caller apart.
#[derive(Clone, Copy)]
pub struct Batch<'a, K> {
    pub filter: Filter<'a>,
    pub groups: &'a [u32],
    pub cells: &'a Cells<'a, K>,
}

impl<'a, K: Copy> Batch<'a, K> {
    // How many rows are accepted. Filtering and counting takes a branch for each row, and half as long again or more.
    pub fn count(&self) -> usize
        ensures { result ≡ length (batch_records self.now) }
    {
        self.groups
            .iter()
            .zip(self.cells.iter())
            .enumerate()
            .map(|(i, (_, cell))| usize::from(self.filter.accepts(i, &cell)))
            .sum()
    }

    // Appends the records of the accepted rows, in the order of the rows. A chain that filters and is handed to `extend` took half
    // as long again.
    pub fn append_to(&self, store: &mut SliceVec<Record<K>>)
        requires { slice_vec_len store.old + length (batch_records self.now) ≤ length (places store.old) }
        ensures same_slice { KeepsSlice store.old store.new }
        ensures values { values store.new ≡ values store.old ++ batch_records self.now }
        ensures len { slice_vec_len store.new ≡ slice_vec_len store.old + length (batch_records self.now) }
        ensures spare { spare_places store.new ≡ drop (slice_vec_len store.new) (places store.old) }
    {
        for (i, (group, cell)) in self.groups.iter().zip(self.cells.iter()).enumerate() {
            if self.filter.accepts(i, &cell) {
                store.push(Record {
                    group: *group,
                    cell,
                });
            }
        }
    }
}

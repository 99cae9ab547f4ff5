// Records removed from a store.
ghost use Rattle.std.specs.Prelude.{◌≡◌, length, drop};
ghost use Rattle.slices.specs.Vecs.{places, slice_vec_len, spare_places, values, KeepsSlice};
ghost use Rattle.records.specs.Records.{without};

use crate::Record;
use slices::SliceVec;

// Removes the records of groups 0 to n - 1 and numbers the others from 0 again, in place and in their order.
pub fn remove_below<K: Copy>(store: &mut SliceVec<Record<K>>, n: u32)
    ensures same_slice { KeepsSlice store.old store.new }
    ensures values { values store.new ≡ without n (values store.old) }
    ensures len { slice_vec_len store.new ≡ length (without n (values store.old)) }
    ensures spare { spare_places store.new ≡ drop (slice_vec_len store.new) (places store.old) }
{
    store.filter_map_in_place(|record| {
        let group = record.group.checked_sub(n)?;
        Some(Record {
            group,
            cell: record.cell,
        })
    });
}

// How many records the lists below a group hold, and how many one list holds.
ghost use Rattle.std.specs.Prelude.{◌≡◌, length};
ghost use Rattle.records.specs.Lists.{start_in};
ghost use Rattle.records.specs.Records.{list_of};

use kinds::Keyed;
use records::Record;

// The number of records of groups below n. Filtering and counting takes a branch for each record, and three times as long or more.
pub fn count_below<K: Keyed>(records: &[Record<K>], n: u32) -> usize
    ensures { result ≡ start_in records.now n }
{
    records.iter().map(|r| usize::from(r.group < n)).sum()
}

// The number of cells of list j.
pub fn count_list<K: Keyed>(records: &[Record<K>], j: u32) -> usize
    ensures { result ≡ length (list_of j records.now) }
{
    records.iter().map(|r| usize::from(r.group == j)).sum()
}

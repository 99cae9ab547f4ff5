// Multisets of cells in a store that the caller provides: each cell once, with how often it is there. Their moves, one cell at
// a time, are a trait; what a batch or a list column does to one is written once over it. They are working parts for the crates
// above.
#![tactic(auto)]

ghost use Rattle.std.specs.Prelude.{◌≡◌, List, ℕ, ◌^◌, ◌≤◌, ◌<◌, length, slice_index_or, Option, None};
ghost use Rattle.columns.specs.Columns.{part_cells};
ghost use Rattle.columns.specs.Policies.{accepted};
ghost use Rattle.rows.specs.declared.counted.Counted.{Counted};
ghost use Rattle.multiset.specs.Counts.{Alike, Apart, Emptied, Live, cells_of, total};
ghost use Rattle.multiset.specs.Moves.{Adds, Lowers};

use columns::Part;
use kinds::Keyed;
use refusals::Refusal;

// Every promise speaks of states that are in order and is silent of others, in which the calls are safe all the same.
pub trait Multiset<K: Keyed> {
    // It is in order; a count may be zero.
    ghost whole: { Self → Type 0 };

    // Its entries, in the order in which they are shown.
    ghost entries: { Self → List (Counted K) };

    // How many entries it has place for.
    ghost places: { Self → ℕ };

    // One state is another with one more of a cell.
    ghost adding: { Self → Option K → Self → Type 0 };

    // One state is another with one of a cell taken off.
    ghost lowering: { Self → Option K → Self → Type 0 };

    // How many entries there are. No two have equal cells, and there is place for all.
    fn len(&self) -> usize
        ensures count { result ≡ length (entries self.now) }
        ensures apart { whole self.now → Apart K.Keyed.same (entries self.now) }
        ensures fits { whole self.now → result ≤ places self.now };

    // The cell of entry i; null past the entries.
    fn cell(&self, i: usize) -> Option<K>
        ensures { result ≡ slice_index_or (cells_of (entries self.now)) i None };

    // Puts in one more of a cell; refused where it is a new one and there is no place for it.
    fn add(&mut self, cell: Option<K>) -> Result<(), Refusal>
        ensures { whole self.old → Live (entries self.old) → total (entries self.old) < 2 ^ 31 → Adds K.Keyed.same whole entries places adding cell self.old self.new result };

    // Undoes the adding of a cell, if nothing else was done since.
    fn undo_add(&mut self, cell: Option<K>)
        ensures { (s : Self) → whole s → Live (entries s) → adding s cell self.old → self.new ≡ s };

    // Takes one of a cell off, whose entry stays; refused where it is not there.
    fn lower(&mut self, cell: Option<K>) -> Result<(), Refusal>
        ensures { whole self.old → Lowers K.Keyed.same whole entries places lowering cell self.old self.new result };

    // Undoes the lowering of a cell, if nothing else was done since.
    fn undo_lower(&mut self, cell: Option<K>)
        ensures { (s : Self) → whole s → total (entries s) < 2 ^ 31 → lowering s cell self.old → self.new ≡ s };

    // Drops the entries of which none is left, all of whose cells are among those of a part that pass the null policy.
    fn close_up(&mut self, part: &Part<K>, ignore: bool)
        ensures whole { whole self.old → whole self.new }
        ensures alike { whole self.old → Alike K.Keyed.same (entries self.old) (entries self.new) }
        ensures live { whole self.old → Emptied K.Keyed.same (accepted ignore (part_cells part.now)) (entries self.old) → Live (entries self.new) }
        ensures size { places self.new ≡ places self.old };
}

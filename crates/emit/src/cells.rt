// The buffers that cells are written to: a map, cleared first and then marked bit by bit, and a cue for each cell, apart as the
// format has them. That there is room, and that the map is clear, each call asks for as many cells as it writes, which no type
// of the buffers can say.
ghost use Rattle.std.specs.Prelude.{◌≡◌, ◌/◌, ◌<◌, ◌≤◌, not, ◌++◌, length, drop, replicate, slice_set, is_none};
ghost use Rattle.bitmap.specs.Bits.{bytes_for};
ghost use Rattle.records.specs.Lists.{cue_of};
ghost use Rattle.emit.specs.Buffers.{SameBuffers};
ghost use Rattle.emit.specs.Marks.{Marked};

use kinds::Keyed;

#[derive(Drop)]
pub struct CellBuffers<'a, K> {
    pub map: &'a mut [u8],
    pub cues: &'a mut [K],
}

impl<'a, K: Keyed> CellBuffers<'a, K> {
    // Clears the map of so many cells.
    pub(crate) fn clear(&mut self, cells: usize)
        requires { bytes_for cells ≤ length self.old.map.now }
        ensures same { SameBuffers self.old self.new }
        ensures map { self.new.map.now ≡ replicate (bytes_for cells) 0 ++ drop (bytes_for cells) self.old.map.now }
        ensures cues { self.new.cues.now ≡ self.old.cues.now }
    {
        clear_map(self.map, cells);
    }

    // Writes a cell at place p: its cue, or the blank for a null, and the mark of one that is not null. By `unwrap_or` it would be
    // asked twice whether there is a cue, which takes a third longer.
    pub(crate) fn put(&mut self, p: usize, cell: Option<K>)
        requires cue { p < length self.old.cues.now }
        requires mark { p / 8 < length self.old.map.now }
        ensures same { SameBuffers self.old self.new }
        ensures map { Marked (not (is_none cell)) p self.old.map.now self.new.map.now }
        ensures cues { self.new.cues.now ≡ slice_set self.old.cues.now p (cue_of K.Keyed.empty cell) }
    {
        match cell {
            None => {
                self.cues[p] = K::blank();
                mark(self.map, p, false);
            }
            Some(cue) => {
                self.cues[p] = cue;
                mark(self.map, p, true);
            }
        }
    }
}

// Clears the bytes of the map of so many rows.
pub(crate) fn clear_map(map: &mut [u8], rows: usize)
    requires { bytes_for rows ≤ length map.old }
    ensures { map.new ≡ replicate (bytes_for rows) 0 ++ drop (bytes_for rows) map.old }
{
    map[..rows.div_ceil(8)].fill(0);
}

// Marks row i, if it is valid.
pub(crate) fn mark(map: &mut [u8], i: usize, valid: bool)
    requires { i / 8 < length map.old }
    ensures { Marked valid i map.old map.new }
{
    if valid {
        map[i / 8] |= 1 << (i % 8);
    }
}

// A vector whose values stand at the front of a lent slice.
ghost use Rattle.std.specs.Prelude.{◌≤◌, length};

#[derive(Drop)]
pub struct SliceVec<'a, T> {
    pub(crate) slots: &'a mut [T],
    pub(crate) len: usize,
    ghost within: { len ≤ length slots.now },
}

impl<'a, T> SliceVec<'a, T> {
    ghost use Rattle.std.specs.Prelude.{◌≡◌, min, take};
    ghost use Rattle.slices.specs.Vecs.{places, slice_vec_len, values, WritesTo};

    // A vector of the first `len` values of a slice, or of all of them where there are no more than that.
    pub fn from_slice_len(slots: &'a mut [T], len: usize) -> SliceVec<'a, T>
        ensures same_slice { WritesTo result slots.entry }
        ensures places { places result ≡ slots.old }
        ensures values { values result ≡ take len slots.old }
        ensures len { slice_vec_len result ≡ min len (length slots.old) }
    {
        let len = len.min(slots.len());
        SliceVec { slots, len }
    }

    pub fn len(&self) -> usize
        ensures { result ≡ slice_vec_len self.now }
    {
        self.len
    }

    pub fn capacity(&self) -> usize
        ensures { result ≡ length (places self.now) }
    {
        self.slots.len()
    }

    pub fn as_slice(&self) -> &[T]
        ensures { result.now ≡ values self.now }
    {
        &self.slots[..self.len]
    }
}

impl<'a, T: Copy> SliceVec<'a, T> {
    ghost use Rattle.std.specs.Prelude.{◌≡◌, ◌<◌, ◌+◌, [], ◌∷◌, ◌++◌, drop, filter_map, insert, remove, slice_get, slice_set, Option, Some};
    ghost use Rattle.std.specs.Iterator.{IsFinite};
    ghost use Rattle.std.specs.Iterator.Runs.{EachRunFrom, WholeRun};
    ghost use Rattle.slices.specs.Closures.{Computes};
    ghost use Rattle.slices.specs.Shifts.{with_value, without_value};
    ghost use Rattle.slices.specs.Vecs.{places, slice_vec_len, spare_places, values, KeepsSlice};

    // Puts a value behind those that are there.
    pub fn push(&mut self, value: T)
        requires room { slice_vec_len self.old < length (places self.old) }
        ensures same_slice { KeepsSlice self.old self.new }
        ensures places { places self.new ≡ slice_set (places self.old) (slice_vec_len self.old) value }
        ensures values { values self.new ≡ values self.old ++ value ∷ [] }
        ensures len { slice_vec_len self.new ≡ slice_vec_len self.old + 1 }
    {
        self.slots[self.len] = value;
        self.len += 1;
    }

    // Puts all that an iterator gives behind those that are there.
    pub fn extend<I: Iterator<Item = T>>(&mut self, iter: I)
        requires can { I.can_next iter }
        requires finite { IsFinite (I.remaining iter) }
        requires room { EachRunFrom I.next_gives iter (λ p. slice_vec_len self.old + p.len ≤ length (places self.old)) }
        ensures same_slice { KeepsSlice self.old self.new }
        ensures runs { WholeRun I.next_gives iter (λ p. values self.new ≡ values self.old ++ p.items) }
        ensures spare { spare_places self.new ≡ drop (slice_vec_len self.new) (places self.old) }
    {
        for value in iter {
            self.push(value);
        }
    }

    // Puts a value in at a place; those from there on move up by one.
    pub fn insert(&mut self, at: usize, value: T)
        requires within { at ≤ slice_vec_len self.old }
        requires room { slice_vec_len self.old < length (places self.old) }
        ensures same_slice { KeepsSlice self.old self.new }
        ensures places { places self.new ≡ with_value (places self.old) (slice_vec_len self.old) at value }
        ensures values { values self.new ≡ insert (values self.old) at value }
        ensures len { slice_vec_len self.new ≡ slice_vec_len self.old + 1 }
    {
        self.push(value);
        self.slots[at..self.len].rotate_right(1);
    }

    // Takes the value at a place out; those behind it move down by one, and a spare one is left in the last place held.
    pub fn remove(&mut self, at: usize, spare: T) -> T
        requires within { at < slice_vec_len self.old }
        ensures removed { slice_get (values self.old) at ≡ Some result }
        ensures same_slice { KeepsSlice self.old self.new }
        ensures places { places self.new ≡ without_value (places self.old) (slice_vec_len self.old) at spare }
        ensures values { values self.new ≡ remove (values self.old) at }
        ensures len { slice_vec_len self.new + 1 ≡ slice_vec_len self.old }
    {
        let removed = self.slots[at];
        self.slots[at] = spare;
        self.slots[at..self.len].rotate_left(1);
        self.len -= 1;
        removed
    }

    // Keeps, in their order, what `f` gives for the values.
    pub fn filter_map_in_place<F: Fn(T) -> Option<T>>(&mut self, f: F)
        requires { F.IsAlwaysCallable f }
        ensures same_slice { KeepsSlice self.old self.new }
        ensures values { (h : T → Option T) → Computes F.Fn h f → values self.new ≡ filter_map h (values self.old) }
        ensures len { slice_vec_len self.new ≤ slice_vec_len self.old }
        ensures spare { spare_places self.new ≡ drop (slice_vec_len self.new) (places self.old) }
    {
        // One slice is read at one place and written at another, which no iterator over it does.
        let slots = &mut *self.slots;
        let mut kept = 0;
        for i in 0..self.len {
            if let Some(value) = f(slots[i]) {
                slots[kept] = value;
                kept += 1;
            }
        }
        self.len = kept;
    }
}

// A ring in a lent slice: values come in behind the last and go from the front, and none moves.
ghost use Rattle.std.specs.Prelude.{◌-◌, ◌≤◌, length};

use crate::ring::place_at;

#[derive(Drop)]
pub struct SliceDeque<'a, T> {
    pub(crate) slots: &'a mut [T],
    pub(crate) start: usize,
    pub(crate) len: usize,
    ghost starts_within: { start ≤ length slots.now - 1 },
    ghost within: { len ≤ length slots.now },
}

impl<'a, T> SliceDeque<'a, T> {
    ghost use Rattle.std.specs.Prelude.{◌≡◌, ◌<◌, drop, min, slice_get, option_copied};
    ghost use Rattle.slices.specs.Deques.{places, slice_deque_start, slice_deque_len, values, WritesTo, KeepsSlice};
    ghost use Rattle.slices.specs.Rings.{live, place_at};

    // A ring of `len` values that begins at a place of a slice: at the last place and with as many values as the slice has
    // places, where it has no more.
    pub fn from_slice_range(slots: &'a mut [T], start: usize, len: usize) -> SliceDeque<'a, T>
        ensures same_slice { WritesTo result slots.entry }
        ensures places { places result ≡ slots.old }
        ensures values { start < length slots.old → values result ≡ live start len slots.old }
        ensures start { slice_deque_start result ≡ min start (length slots.old - 1) }
        ensures len { slice_deque_len result ≡ min len (length slots.old) }
    {
        let start = start.min(slots.len().saturating_sub(1));
        let len = len.min(slots.len());
        SliceDeque { slots, start, len }
    }

    // The place of the first value, for whoever keeps the slice, the place and the number, and makes the ring again of them.
    pub fn start(&self) -> usize
        ensures { result ≡ slice_deque_start self.now }
    {
        self.start
    }

    // This and the next are those of a `SliceVec`, written again: a trait for the two would be no plainer.
    pub fn len(&self) -> usize
        ensures { result ≡ slice_deque_len self.now }
    {
        self.len
    }

    pub fn capacity(&self) -> usize
        ensures { result ≡ length (places self.now) }
    {
        self.slots.len()
    }

    pub fn get(&self, k: usize) -> Option<&T>
        ensures { option_copied result ≡ slice_get (values self.now) k }
    {
        if k >= self.len {
            return None;
        }
        let slots = &*self.slots;
        Some(&slots[self.place_at(k)])
    }

    // The place that lies k places on from the first value's.
    pub fn place_at(&self, k: usize) -> usize
        requires { k ≤ length (places self.now) }
        ensures value { result ≡ place_at (length (places self.now)) (slice_deque_start self.now) k }
        ensures bound { result ≤ length (places self.now) - 1 }
    {
        place_at(self.capacity(), self.start, k)
    }

    // Lets the first k values go.
    pub fn skip(&mut self, k: usize)
        requires { k ≤ slice_deque_len self.old }
        ensures same_slice { KeepsSlice self.old self.new }
        ensures places { places self.new ≡ places self.old }
        ensures values { values self.new ≡ drop k (values self.old) }
        ensures start { slice_deque_start self.new ≡ place_at (length (places self.old)) (slice_deque_start self.old) k }
        ensures len { slice_deque_len self.new ≡ slice_deque_len self.old - k }
    {
        self.start = self.place_at(k);
        self.len -= k;
    }
}

impl<'a, T: Copy> SliceDeque<'a, T> {
    ghost use Rattle.std.specs.Prelude.{◌≡◌, ◌<◌, ◌+◌, [], ◌∷◌, ◌++◌, slice_set};
    ghost use Rattle.slices.specs.Deques.{places, slice_deque_start, slice_deque_len, values, KeepsSlice};
    ghost use Rattle.slices.specs.Rings.{place_at};

    // Puts a value behind those that are there.
    pub fn push_back(&mut self, value: T)
        requires room { slice_deque_len self.old < length (places self.old) }
        ensures same_slice { KeepsSlice self.old self.new }
        ensures places { places self.new ≡ slice_set (places self.old) (place_at (length (places self.old)) (slice_deque_start self.old) (slice_deque_len self.old)) value }
        ensures values { values self.new ≡ values self.old ++ value ∷ [] }
        ensures start { slice_deque_start self.new ≡ slice_deque_start self.old }
        ensures len { slice_deque_len self.new ≡ slice_deque_len self.old + 1 }
    {
        let len = self.len;
        let place = self.place_at(len);
        self.slots[place] = value;
        self.len += 1;
    }
}

// Where the values of a ring stand, for whoever has its numbers or reads its slice, and does not hold the ring itself.
ghost use Rattle.std.specs.Prelude.{◌≡◌, ◌-◌, ◌<◌, ◌≤◌, length, drop};
ghost use Rattle.slices.specs.Rings.{live, place_at};

// The place that lies k places on from the start, in a slice of so many.
pub fn place_at(slots: usize, start: usize, k: usize) -> usize
    requires { (start ≤ slots - 1) × (k ≤ slots) }
    ensures value { result ≡ place_at slots start k }
    ensures bound { result ≤ slots - 1 }
{
    let room = slots - start;
    if k < room { start + k } else { k - room }
}

// Where a ring of n values begins when its first k are gone.
pub fn skip<T>(slots: &[T], start: usize, n: usize, k: usize) -> usize
    requires { (start < length slots.now) × ((n ≤ length slots.now) × (k ≤ n)) }
    ensures bound { result < length slots.now }
    ensures values { live result (n - k) slots.now ≡ drop k (live start n slots.now) }
{
    place_at(slots.len(), start, k)
}

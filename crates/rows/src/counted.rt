// A cell of a row without repeats, and how many times it is live.

#[derive(Clone, Copy, Drop)]
pub struct Counted<K> {
    pub cell: Option<K>,
    pub count: usize,
}

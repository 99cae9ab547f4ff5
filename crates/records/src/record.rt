// A record: a cell and the group that it was accepted for.

#[derive(Clone, Copy, Drop)]
pub struct Record<K> {
    pub group: u32,
    pub cell: Option<K>,
}

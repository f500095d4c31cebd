// Two of a kind in a row under one limit of records: two shapes, or the memory of two queues.
#[derive(Clone, Copy, Drop)]
pub struct Pair<T> {
    pub limit: Option<u32>,
    pub near: T,
    pub far: T,
}

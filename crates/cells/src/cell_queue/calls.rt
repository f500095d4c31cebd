ghost use Rattle.std.specs.Prelude.{◌≡◌, max, [], IfOk};
ghost use Rattle.cells.specs.Cells.{held_in, limit_in};

use super::CellQueue;
use std::alloc::{AllocError, Global};
use std::collections::VecDeque;

impl CellQueue {
    // An empty queue on a board of so many cells, or of one where that is 0.
    pub fn new(heap: Global, cells: usize) -> Result<CellQueue, AllocError>
        ensures { IfOk result (λ q. (held_in q ≡ []) × (limit_in q ≡ max 1 cells)) }
    {
        let limit = cells.max(1);
        Ok(CellQueue {
            cells: VecDeque::with_capacity(heap, limit)?,
            limit,
        })
    }
}

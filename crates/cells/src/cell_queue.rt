ghost use Rattle.std.specs.Prelude.{◌<◌, ◌≤◌};
ghost use Rattle.std.specs.VecDeque.{deque_capacity};

use crate::cell::Cell;
use std::collections::VecDeque;

pub mod as_queue;
pub mod calls;

// Records in the cells of a memory board, oldest first.
#[derive(Drop)]
pub struct CellQueue {
    cells: VecDeque<Cell>,
    // How many cells the board has.
    limit: usize,
    // An empty queue must have room, so there is a cell.
    ghost some: { 0 < limit },
    // A queue must take what it says it has room for, so memory for all cells is taken when the queue is made.
    ghost reserved: { limit ≤ deque_capacity cells },
}

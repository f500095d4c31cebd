ghost use Rattle.cells.specs.Sizes.{cell_size};
ghost use Rattle.cells.specs.Cells.{held_in, limit_in, cell_room, Oldest};
ghost use Rattle.cells.specs.Lawful.{cell_vacant, cell_bounded};

use super::CellQueue;
use crate::cell::{CELL_SIZE, Cell};
use queue::interface::Queue;
use queue::meaning::Meaning;
use queue::refusal::Refusal;

impl CellQueue {
    // The cell of the oldest record.
    fn oldest(&self) -> Result<Cell, Refusal>
        ensures { Oldest result (held_in self.now) }
    {
        self.cells.front().copied().ok_or(Refusal::Empty)
    }
}

impl Meaning for CellQueue {
    ghost held = { held_in };

    ghost largest = { λ _. cell_size };

    ghost room = { λ q. cell_room (limit_in q) (held_in q) };

    ghost vacant = { λ q n. cell_vacant (limit_in q) (held_in q) n q.some };

    ghost bounded = { λ q. cell_bounded (limit_in q) (held_in q) };
}

impl Queue for CellQueue {
    fn count(&mut self) -> u32 {
        u32::try_from(self.cells.len()).unwrap_or(u32::MAX)
    }

    fn largest(&mut self) -> usize {
        CELL_SIZE
    }

    fn room_for(&mut self, n: usize) -> bool {
        0 < n && n <= CELL_SIZE && self.cells.len() < self.limit
    }

    fn add(&mut self, octets: &[u8]) -> Result<(), Refusal> {
        self.admission(octets.len())?;
        // This takes no memory and does not fail, as memory for all cells was taken before.
        let _ = self.cells.push_back(Cell::keeping(octets));
        Ok(())
    }

    fn first_length(&mut self) -> Result<usize, Refusal> {
        Ok(self.oldest()?.used())
    }

    fn read_from(&mut self, place: usize, out: &mut [u8]) -> Result<usize, Refusal> {
        self.oldest()?.read_from(place, out)
    }

    fn drop(&mut self) -> Result<(), Refusal> {
        self.cells.pop_front().ok_or(Refusal::Empty)?;
        Ok(())
    }
}

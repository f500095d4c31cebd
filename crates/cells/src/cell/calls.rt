ghost use Rattle.std.specs.Prelude.{◌≡◌, ◌≤◌, [], ◌∷◌, length};
ghost use Rattle.cells.specs.Sizes.{cell_size};
ghost use Rattle.cells.specs.Cells.{record_in};
ghost use Rattle.queue.specs.Answers.{answer_of, read_answer, read_buffer};

use super::{CELL_SIZE, Cell};
use queue::refusal::Refusal;

impl Cell {
    // A cell that keeps these octets as its record.
    pub(crate) fn keeping(kept: &[u8]) -> Cell
        requires { length kept.now ≤ cell_size }
        ensures { record_in result ≡ kept.now }
    {
        let used = kept.len();
        let mut octets = [0; CELL_SIZE];
        octets[0..used].copy_from_slice(kept);
        Cell { octets, used }
    }

    // The record's length.
    pub(crate) fn used(&self) -> usize
        ensures { result ≡ length (record_in self.now) }
    {
        self.used
    }

    // Copies the record from octet `place` on into the front of `out`, as far as both go.
    pub(crate) fn read_from(&self, place: usize, out: &mut [u8]) -> Result<usize, Refusal>
        ensures answer { answer_of result ≡ read_answer (record_in self.now ∷ []) place (length out.old) }
        ensures buffer { out.new ≡ read_buffer (record_in self.now ∷ []) place out.old }
    {
        if place > self.used {
            return Err(Refusal::Place);
        }
        let n = (self.used - place).min(out.len());
        out[0..n].copy_from_slice(&self.octets[place..place + n]);
        Ok(n)
    }
}

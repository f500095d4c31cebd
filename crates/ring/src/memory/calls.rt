ghost use Rattle.std.specs.Prelude.{◌≡◌, length};
ghost use Rattle.queue.specs.Answers.{answer_of};
ghost use Rattle.ring.specs.Parts.{part_answer, part_written, part_read};
ghost use Rattle.ring.specs.Memories.{contents};

use super::Memory;
use crate::block::{read, within, write};
use queue::refusal::Refusal;

impl<'a, T: Copy> Memory<'a, T> {
    // These slots, as they are.
    pub fn new(slots: &'a mut [T]) -> Memory<'a, T>
        ensures { contents result ≡ slots.old }
    {
        Memory { slots }
    }

    // Writes `run` from `at` on, if that part lies within the memory.
    pub fn write_part(&mut self, at: usize, run: &[T]) -> Result<(), Refusal>
        ensures answer { answer_of result ≡ part_answer (contents self.old) at (length run.now) }
        ensures left { contents self.new ≡ part_written (contents self.old) at run.now }
    {
        within(at, run.len(), self.slots.len())?;
        write(self.slots, at, run);
        Ok(())
    }

    // Fills `out` with the elements from `at` on, if that part lies within the memory.
    pub fn read_part(&self, at: usize, out: &mut [T]) -> Result<(), Refusal>
        ensures answer { answer_of result ≡ part_answer (contents self.now) at (length out.old) }
        ensures buffer { out.new ≡ part_read (contents self.now) at out.old }
    {
        within(at, out.len(), self.slots.len())?;
        read(self.slots, at, out);
        Ok(())
    }
}

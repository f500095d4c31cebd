ghost use Rattle.std.specs.Prelude.{◌≡◌, ◌≤◌, [], ◌∷◌, length};
ghost use Rattle.queue.specs.Answers.{answer_of};
ghost use Rattle.ring.specs.Parts.{part_answer, part_read};
ghost use Rattle.ring.specs.Rings.{elements, size, add_answer, added, element_answer, drop_answer, dropped};

use super::Ring;
use crate::block::within;
use queue::refusal::Refusal;

// That a call leaves the size as it was stands by each (`same`): no invariant can speak of before and after.
impl<'a, T: Copy> Ring<'a, T> {
    // An empty ring over these slots.
    pub fn new(slots: &'a mut [T]) -> Ring<'a, T>
        ensures list { elements result ≡ [] }
        ensures same { size result ≡ length slots.old }
    {
        Ring {
            slots,
            start: 0,
            count: 0,
        }
    }

    // How many elements the ring can hold.
    pub fn size(&self) -> usize
        ensures { result ≡ size self.now }
    {
        self.slots.len()
    }

    // How many elements are held.
    pub fn count(&self) -> usize
        ensures answer { result ≡ length (elements self.now) }
        ensures within { result ≤ size self.now }
    {
        self.count
    }

    // Puts a run behind the elements held, if the whole of it fits.
    #[tactic(auto, using(crate::proofs::Held::added_behind))]
    pub fn add_run(&mut self, run: &[T]) -> Result<(), Refusal>
        ensures answer { answer_of result ≡ add_answer (elements self.old) (size self.old) run.now }
        ensures list { elements self.new ≡ added (elements self.old) (size self.old) run.now }
        ensures same { size self.new ≡ size self.old }
    {
        let count = self.count;
        if run.len() > self.slots.len() - count {
            return Err(Refusal::NoRoom);
        }
        self.write_round(count, run);
        self.count = count + run.len();
        Ok(())
    }

    // Fills `out` with the held elements from the place `from` on, if all of these are held.
    #[tactic(auto, using(crate::proofs::Held::read_behind))]
    pub fn read_run(&self, from: usize, out: &mut [T]) -> Result<(), Refusal>
        ensures answer { answer_of result ≡ part_answer (elements self.now) from (length out.old) }
        ensures buffer { out.new ≡ part_read (elements self.now) from out.old }
    {
        within(from, out.len(), self.count)?;
        self.read_round(from, out);
        Ok(())
    }

    // Removes the `n` oldest elements, if so many are held.
    #[tactic(auto, using(crate::proofs::Held::dropped_behind))]
    pub fn drop_run(&mut self, n: usize) -> Result<(), Refusal>
        ensures answer { answer_of result ≡ drop_answer (elements self.old) n }
        ensures list { elements self.new ≡ dropped (elements self.old) n }
        ensures same { size self.new ≡ size self.old }
    {
        let count = self.count;
        if n > count {
            return Err(Refusal::Empty);
        }
        self.start = self.slot(n);
        self.count = count - n;
        Ok(())
    }

    // Puts an element behind those held. By way of `add_run`, as a slice of one, it would ask of callers that an
    // element has fewer than 2 ^ 63 octets.
    #[tactic(auto, using(crate::proofs::Held::pushed_behind))]
    pub fn add(&mut self, x: T) -> Result<(), Refusal>
        ensures answer { answer_of result ≡ add_answer (elements self.old) (size self.old) (x ∷ []) }
        ensures list { elements self.new ≡ added (elements self.old) (size self.old) (x ∷ []) }
        ensures same { size self.new ≡ size self.old }
    {
        let count = self.count;
        if count >= self.slots.len() {
            return Err(Refusal::NoRoom);
        }
        self.set_round(count, x);
        self.count = count + 1;
        Ok(())
    }

    // The held element at a place, the oldest being at 0.
    #[tactic(auto, using(crate::proofs::Held::read_is, crate::proofs::Held::read_refused))]
    pub fn read(&self, at: usize) -> Result<T, Refusal>
        ensures { answer_of result ≡ element_answer (elements self.now) at }
    {
        if at >= self.count {
            return Err(Refusal::Place);
        }
        Ok(self.element_round(at))
    }

    // Removes the oldest element.
    pub fn drop(&mut self) -> Result<(), Refusal>
        ensures answer { answer_of result ≡ drop_answer (elements self.old) 1 }
        ensures list { elements self.new ≡ dropped (elements self.old) 1 }
        ensures same { size self.new ≡ size self.old }
    {
        self.drop_run(1)
    }
}

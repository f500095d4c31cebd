ghost use Rattle.std.specs.Prelude.{◌≡◌, ◌+◌, ◌<◌, ◌≤◌, [], ◌∷◌, length, take, drop, slice_index_or};
ghost use Rattle.ring.specs.Parts.{written};
ghost use Rattle.ring.specs.Turns.{placed, turned};
ghost use Rattle.ring.specs.Rings.{size};

use super::Ring;
use crate::block::{read, write};

// The slots as they stand from the start on, going round their end: the place `k` is the `k`-th after the start.
impl<'a, T: Copy> Ring<'a, T> {
    // Where the place `k` stands among the slots.
    pub(crate) fn slot(&self, k: usize) -> usize
        ensures { result ≡ placed self.now.start k (size self.now) }
    {
        let start = self.start;
        let tail = self.slots.len() - start;
        if k < tail { start + k } else { k - tail }
    }

    // Writes `run` from the place `k` on.
    pub(crate) fn write_round(&mut self, k: usize, run: &[T])
        requires { k + length run.now ≤ size self.old }
        ensures slots { turned self.new.start self.new.slots.now ≡ written (turned self.old.start self.old.slots.now) k run.now }
        ensures count { self.new.count ≡ self.old.count }
        ensures same { size self.new ≡ size self.old }
    {
        let at = self.slot(k);
        let tail = self.slots.len() - at;
        if run.len() <= tail {
            write(self.slots, at, run);
        } else {
            write(self.slots, at, &run[..tail]);
            write(self.slots, 0, &run[tail..]);
        }
    }

    // Writes one element at the place `k`.
    pub(crate) fn set_round(&mut self, k: usize, x: T)
        requires { k < size self.old }
        ensures slots { turned self.new.start self.new.slots.now ≡ written (turned self.old.start self.old.slots.now) k (x ∷ []) }
        ensures count { self.new.count ≡ self.old.count }
        ensures same { size self.new ≡ size self.old }
    {
        let at = self.slot(k);
        self.slots[at] = x;
    }

    // Fills `out` with the elements from the place `k` on.
    pub(crate) fn read_round(&self, k: usize, out: &mut [T])
        requires { k + length out.old ≤ size self.now }
        ensures { out.new ≡ take (length out.old) (drop k (turned self.now.start self.now.slots.now)) }
    {
        let at = self.slot(k);
        let tail = self.slots.len() - at;
        if out.len() <= tail {
            read(self.slots, at, out);
        } else {
            read(self.slots, at, &mut out[..tail]);
            read(self.slots, 0, &mut out[tail..]);
        }
    }

    // The element at the place `k`.
    pub(crate) fn element_round(&self, k: usize) -> T
        requires { k < size self.now }
        ensures { result ≡ slice_index_or (turned self.now.start self.now.slots.now) k result }
    {
        self.slots[self.slot(k)]
    }
}

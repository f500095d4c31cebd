ghost use Rattle.std.specs.Prelude.{◌≡◌, ◌+◌, ◌≤◌, length, take, drop};
ghost use Rattle.queue.specs.Answers.{answer_of};
ghost use Rattle.ring.specs.Parts.{written, place_answer};

use queue::refusal::Refusal;

// Whether the `n` places from `at` on lie within the first `size`.
pub(crate) fn within(at: usize, n: usize, size: usize) -> Result<(), Refusal>
    ensures { answer_of result ≡ place_answer size at n }
{
    if at > size || n > size - at {
        return Err(Refusal::Place);
    }
    Ok(())
}

// Writes `run` from `at` on.
pub(crate) fn write<T: Copy>(slots: &mut [T], at: usize, run: &[T])
    requires { at + length run.now ≤ length slots.old }
    ensures left { slots.new ≡ written slots.old at run.now }
    ensures same { length slots.new ≡ length slots.old }
{
    let end = at + run.len();
    slots[at..end].copy_from_slice(run);
}

// Fills `out` with the elements from `at` on.
pub(crate) fn read<T: Copy>(slots: &[T], at: usize, out: &mut [T])
    requires { at + length out.old ≤ length slots.now }
    ensures { out.new ≡ take (length out.old) (drop at slots.now) }
{
    let end = at + out.len();
    out.copy_from_slice(&slots[at..end]);
}

ghost use Rattle.std.specs.Prelude.{◌≡◌, ◌+◌, ◌++◌, length};

use queue::carry::carry;
use queue::interface::Queue;

// Carries the records of `from`, oldest first, to the end of `to`, until one is refused, and answers how many went over.
// This holds of any two queues: what both hold together stays as it was, in order.
pub fn carry_all<F: Queue, T: Queue>(from: &mut F, to: &mut T, buffer: &mut [u8]) -> u32
    ensures number { result + length (F.Meaning.held from.new) ≡ length (F.Meaning.held from.old) }
    ensures in_order { T.Meaning.held to.new ++ F.Meaning.held from.new ≡ T.Meaning.held to.old ++ F.Meaning.held from.old }
{
    let count = from.count();
    // The index is the answer: how many went over before one was refused.
    for k in 0..count {
        if carry(from, to, buffer).is_err() {
            return k;
        }
    }
    count
}

ghost use Rattle.std.specs.Prelude.{◌≡◌, map};
ghost use Rattle.queue.specs.Answers.{answer_of};
ghost use Rattle.packed.specs.Laws.{ten_octets_answers};

use crate::packed::Packed;
use queue::interface::Queue;
use queue::refusal::Refusal;

// What a queue of ten octets answers to two records of 3 octets, a record of 1, a drop, and the record of 1 again.
pub fn ten_octets() -> [Result<(), Refusal>; 5]
    ensures { map answer_of result ≡ ten_octets_answers }
{
    let mut memory = [0; 10];
    let mut queue = Packed::new(&mut memory);
    let first = queue.add(&[1, 2, 3]);
    let second = queue.add(&[4, 5, 6]);
    let third = queue.add(&[7]);
    let dropped = queue.drop();
    let fourth = queue.add(&[7]);
    [first, second, third, dropped, fourth]
}

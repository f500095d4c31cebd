// A pile of the shape that a script describes, made and used.
use crate::memory::Sizes;
use crate::shape::take_pile;
use queue::interface::Queue;
use script::arguments::Arguments;
use script::words::Words;
use std::test::Fail;

#[test]
fn a_described_pile_is_made(rt: HostRuntime) -> Result<(), Fail> {
    let heap = rt.alloc();
    let words = Words::new(b"quota 3 tandem slot 40 8 5 quota 1 packed 10");
    let mut arguments = Arguments::new(words, heap);
    let Ok(shape) = take_pile(&mut arguments) else {
        return Err(Fail::from("the words describe no pile"));
    };
    let mut memory = shape.memory(heap)?;
    let mut pile = memory.queue();
    assert_eq!(rt; pile.largest(), 8);
    let mut taken = 0usize;
    for record in [[1u8, 2], [3, 4], [5, 6], [7, 8]] {
        if pile.add(&record).is_ok() {
            taken = taken.saturating_add(1);
        }
    }
    assert_eq!(rt; taken, 3);
    assert_eq!(rt; pile.count(), 3);
    Ok(())
}

ghost use Rattle.std.specs.Prelude.{◌≡◌, ◌++◌, length};
ghost use Rattle.queue.specs.Carrying.{carry_answer, carry_answer_of, carry_number, Carried};
ghost use Rattle.queue.specs.declared.carry.CarryRefusal.TheVariants.{Queue as queue_refusal};

use crate::interface::Queue;
use crate::refusal::Refusal;

// Why a record was not carried.
#[derive(Clone, Copy, Debug, PartialEq, Eq)]
pub enum CarryRefusal {
    // One of the two queues refused.
    Queue(Refusal),
    // The buffer is shorter than the record.
    BufferTooShort,
}

impl CarryRefusal {
    // The refusal's number: a method, whose name says what the number is.
    pub fn number(&self) -> u8
        ensures { result ≡ carry_number self.now }
    {
        match self {
            CarryRefusal::Queue(refusal) => refusal.number(),
            CarryRefusal::BufferTooShort => 34,
        }
    }
}

impl From<Refusal> for CarryRefusal {
    ghost from_gives = { λ e r. r ≡ queue_refusal e };

    fn from(refusal: Refusal) -> CarryRefusal {
        CarryRefusal::Queue(refusal)
    }
}

// Carries the oldest record of `from` to the end of `to` by way of `buffer`, and answers its length.
pub fn carry<F: Queue, T: Queue>(
    from: &mut F,
    to: &mut T,
    buffer: &mut [u8],
) -> Result<usize, CarryRefusal>
    ensures answer { carry_answer_of result ≡ carry_answer (F.Meaning.held from.old) (length buffer.old) (T.Meaning.largest to.old) (T.Meaning.room to.old) }
    ensures carried { Carried result F.Meaning T.Meaning from.old from.new to.old to.new buffer.old buffer.new }
    ensures in_order { T.Meaning.held to.new ++ F.Meaning.held from.new ≡ T.Meaning.held to.old ++ F.Meaning.held from.old }
{
    let n = from.first_length()?;
    if n > buffer.len() {
        return Err(CarryRefusal::BufferTooShort);
    }
    to.admission(n)?;
    // None of these refuses, as has just been tested.
    let _ = from.read_from(0, buffer);
    let _ = to.add(&buffer[0..n]);
    let _ = from.drop();
    Ok(n)
}

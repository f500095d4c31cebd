ghost use Rattle.std.specs.Prelude.{◌≡◌};
ghost use Rattle.codec.specs.RecordReading.{records_in};
ghost use Rattle.codec.specs.Reader.{count_or};

use super::RecordReader;
use crate::fault::Fault;

// How many records a PDU has, or its first fault.
#[tactic(auto, using(crate::proofs::Counting::after_none, crate::proofs::Counting::count_none, crate::proofs::Counting::count_fault, crate::proofs::Counting::count_some), unfolding(crate::specs::RecordReading::records_in))]
pub fn record_count(pdu: &[u8]) -> Result<usize, Fault>
    ensures { result ≡ count_or (records_in pdu.now) }
{
    let mut reader = RecordReader::new(pdu);
    let mut count = 0;
    // A loop, since an iterator over the reader would not end: after a fault the reader stays where it is.
    while let Some(_part) = reader.next()? {
        count += 1;
    }
    Ok(count)
}

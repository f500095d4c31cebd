ghost use Rattle.std.specs.Prelude.{◌≡◌, ◌+◌, ◌≤◌, length, IfOk};
ghost use Rattle.codec.specs.Reader.{part_or, part_if_or, part_at, next_part, next_cursor};

use super::{RecordPart, RecordReader};
use crate::blocks::block_at;
use crate::fault::Fault;
use crate::position::Position;

impl<'a> RecordReader<'a> {
    // A reader at the start of a PDU.
    pub fn new(pdu: &'a [u8]) -> RecordReader<'a>
        ensures over { result.pdu.now ≡ pdu.now }
        ensures start { result.place ≡ 0 }
    {
        RecordReader { pdu, place: 0 }
    }

    // The next record as a part of the PDU, or none at its end. A fault does not move the reader.
    pub fn next(&mut self) -> Result<Option<RecordPart<'a>>, Fault>
        ensures answer { part_if_or result ≡ next_part self.old.pdu.now self.old.place }
        ensures cursor { self.new.place ≡ next_cursor self.old.pdu.now self.old.place }
        ensures over { self.new.pdu.now ≡ self.old.pdu.now }
    {
        let at = Position {
            input: self.pdu,
            place: self.place,
        };
        if at.place >= at.input.len() {
            return Ok(None);
        }
        let part = at.part()?;
        self.place = at.place + part.octets.len();
        Ok(Some(part))
    }
}

impl<'a> Position<'a> {
    // The record here, as a part of the input.
    #[tactic(auto, using(crate::proofs::Contents::part_faulty))]
    fn part(self) -> Result<RecordPart<'a>, Fault>
        ensures part { part_or result ≡ part_at self.entry.input.now self.entry.place }
        ensures inside { IfOk result (λ part. self.entry.place + length part.octets.now ≤ length self.entry.input.now) }
    {
        let content = self.content()?;
        let Position { input, place } = self;
        Ok(RecordPart {
            octets: block_at(input, place, content.record_length()),
            place,
        })
    }
}

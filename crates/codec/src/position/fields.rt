ghost use Rattle.std.specs.Prelude.{◌≡◌, ◌+◌, ◌≤◌, length};
ghost use Rattle.codec.specs.Fields.{fault, octets_or, octets_at, octet_at, two_octets_at, four_octets_at, value_at, zero_at};
ghost use Rattle.codec.specs.declared.fault.FaultKind.TheVariants.{Short, Value};

use super::Position;
use crate::fault::{Fault, FaultKind};
use crate::octet_value::OctetValue;

impl<'a> Position<'a> {
    // The place so many octets on.
    pub(crate) fn after(self, count: usize) -> Position<'a>
        requires { self.place + count ≤ length self.input.now }
        ensures input { result.input.now ≡ self.entry.input.now }
        ensures place { result.place ≡ self.entry.place + count }
    {
        Position {
            input: self.input,
            place: self.place + count,
        }
    }

    // The fault of an input that ends too early.
    pub(crate) fn short(self) -> Fault
        ensures { result ≡ fault Short (length self.entry.input.now) }
    {
        FaultKind::Short.at(self.input.len())
    }

    // The fault of a field here that has a value that it may not have.
    pub(crate) fn wrong_value(self) -> Fault
        ensures { result ≡ fault Value self.entry.place }
    {
        FaultKind::Value.at(self.place)
    }

    // The field of so many octets here.
    pub(crate) fn octets<const N: usize>(self) -> Result<&'a [u8; N], Fault>
        ensures { octets_or result ≡ octets_at self.entry.input.now self.entry.place N }
    {
        self.input[self.place..]
            .first_chunk::<N>()
            .ok_or(self.short())
    }

    // The field of one octet here.
    pub(crate) fn octet(self) -> Result<u8, Fault>
        ensures { result ≡ octet_at self.entry.input.now self.entry.place }
    {
        let [octet] = self.octets::<1>()?;
        Ok(*octet)
    }

    // The field of two octets here, high octet first.
    pub(crate) fn two_octets(self) -> Result<u16, Fault>
        ensures { result ≡ two_octets_at self.entry.input.now self.entry.place }
    {
        let octets = self.octets()?;
        Ok(u16::from_be_bytes(*octets))
    }

    // The field of four octets here, high octet first.
    pub(crate) fn four_octets(self) -> Result<u32, Fault>
        ensures { result ≡ four_octets_at self.entry.input.now self.entry.place }
    {
        let octets = self.octets()?;
        Ok(u32::from_be_bytes(*octets))
    }

    // The field of a value that an octet stands for.
    pub(crate) fn value<V: OctetValue>(self) -> Result<V, Fault>
        ensures { result ≡ value_at V.value_of self.entry.input.now self.entry.place }
    {
        let octet = self.octet()?;
        V::try_from(octet).ok().ok_or(self.wrong_value())
    }

    // That the octet here is 0.
    pub(crate) fn zero(self) -> Result<(), Fault>
        ensures { result ≡ zero_at self.entry.input.now self.entry.place }
    {
        if self.octet()? != 0 {
            return Err(self.wrong_value());
        }
        Ok(())
    }
}

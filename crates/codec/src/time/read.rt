ghost use Rattle.std.specs.Prelude.{◌≡◌, ◌+◌, ◌≤◌, length};
ghost use Rattle.codec.specs.Times.{stamp_or};
ghost use Rattle.codec.specs.Fields.{stamp_at, zero_stamp_at};

use super::{MICROSECOND_LIMIT, MILLISECOND_LIMIT, Time};
use crate::fault::Fault;
use crate::position::Position;

impl Position<'_> {
    // The time that stands here: its fields in order, presence before value.
    pub(crate) fn time(self) -> Result<Time, Fault>
        ensures { stamp_or result ≡ stamp_at self.entry.input.now self.entry.place }
    {
        let day = self.two_octets()?;
        let at_millisecond = self.after(2);
        let millisecond = at_millisecond.four_octets()?;
        if millisecond > MILLISECOND_LIMIT {
            return Err(at_millisecond.wrong_value());
        }
        let at_microsecond = self.after(6);
        let microsecond = at_microsecond.two_octets()?;
        if microsecond as u32 > MICROSECOND_LIMIT {
            return Err(at_microsecond.wrong_value());
        }
        Ok(Time {
            day,
            millisecond,
            microsecond,
        })
    }

    // That the time here has all its fields zero.
    pub(crate) fn zero_time(self) -> Result<(), Fault>
        ensures { result ≡ zero_stamp_at self.entry.input.now self.entry.place }
    {
        if self.two_octets()? != 0 {
            return Err(self.wrong_value());
        }
        let at_millisecond = self.after(2);
        if at_millisecond.four_octets()? != 0 {
            return Err(at_millisecond.wrong_value());
        }
        let at_microsecond = self.after(6);
        if at_microsecond.two_octets()? != 0 {
            return Err(at_microsecond.wrong_value());
        }
        Ok(())
    }
}

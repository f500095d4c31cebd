ghost use Rattle.std.specs.Prelude.{◌≡◌};
ghost use Rattle.codec.specs.Times.{stamp, stamp_or, zero_stamp, checked_stamp, stamp_octets, compared};

use super::{MICROSECOND_LIMIT, MILLISECOND_LIMIT, TIME_LENGTH, Time, TimeField, TimeNumbers};
use crate::blocks::place_block;
use std::cmp::Ordering;

// The time of three numbers, or the first of them that is beyond its limit.
impl TryFrom<TimeNumbers> for Time {
    type Error = TimeField;

    ghost try_from_gives = { λ n r. stamp_or r ≡ checked_stamp n.day n.millisecond n.microsecond };

    fn try_from(numbers: TimeNumbers) -> Result<Time, TimeField> {
        if numbers.millisecond > MILLISECOND_LIMIT {
            return Err(TimeField::Millisecond);
        }
        if numbers.microsecond > MICROSECOND_LIMIT {
            return Err(TimeField::Microsecond);
        }
        Ok(Time {
            day: numbers.day,
            millisecond: numbers.millisecond,
            microsecond: numbers.microsecond as u16,
        })
    }
}

// The time whose numbers are all zero. By hand, since what is derived does not prove the limits.
impl Default for Time {
    ghost is_default = { λ time. stamp time ≡ zero_stamp };

    fn default() -> Time {
        Time {
            day: 0,
            millisecond: 0,
            microsecond: 0,
        }
    }
}

impl Time {
    // How this time stands to the other, by the numbers of both.
    pub fn compare(&self, other: &Time) -> Ordering
        ensures { result ≡ compared (stamp self.now) (stamp other.now) }
    {
        self.cmp(other)
    }

    // The octets of the time, each field with its high octet first.
    pub fn octets(&self) -> [u8; TIME_LENGTH]
        ensures { result ≡ stamp_octets (stamp self.now) }
    {
        let mut octets = [0; TIME_LENGTH];
        place_block(&mut octets, 0, &self.day.to_be_bytes());
        place_block(&mut octets, 2, &self.millisecond.to_be_bytes());
        place_block(&mut octets, 6, &self.microsecond.to_be_bytes());
        octets
    }
}

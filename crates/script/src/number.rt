ghost use Rattle.std.specs.Prelude.{◌≡◌, ℕ, ◌^◌, ◌≤◌, IfOk, MatchOption};
ghost use Rattle.std.specs.Char.{is_ascii_digit};
ghost use Rattle.std.specs.List.{list_all};
ghost use Rattle.script.specs.Numbers.{decimal, number_answer};

use std::num::TryFromIntError;

// Why a word is not a number that is taken.
#[derive(Clone, Copy, Debug, PartialEq, Eq)]
pub enum NumberFault {
    NotDecimal,
    TooLarge,
}

fn is_decimal(word: &[u8]) -> bool
    ensures { result ≡ list_all is_ascii_digit word.now }
{
    word.iter().all(|octet| octet.is_ascii_digit())
}

// The number that decimal digits say, or none where it has more than 64 bits.
fn value(digits: &[u8]) -> Option<u64>
    ensures { MatchOption result (2 ^ 64 ≤ decimal 0 digits.now) (λ v. v ≡ decimal 0 digits.now) }
{
    // A loop, since what has been read so far is lost to the proof in `try_fold`.
    let mut value: u64 = 0;
    for octet in digits {
        let digit = octet.saturating_sub(b'0');
        value = value.checked_mul(10)?.checked_add(u64::from(digit))?;
    }
    Some(value)
}

// The number that a word of decimal digits says, if it is at most `most`.
pub fn number(word: &[u8], most: u64) -> Result<u64, NumberFault>
    ensures answer { result ≡ number_answer word.now most }
    ensures within { IfOk result (λ v. v ≤ most) }
{
    if !is_decimal(word) {
        return Err(NumberFault::NotDecimal);
    }
    match value(word) {
        Some(v) if v <= most => Ok(v),
        _ => Err(NumberFault::TooLarge),
    }
}

// A type of numbers that a word may say. That a number up to the largest is one of the type is no law of std's, so who
// reads a number answers that it is too large also where it cannot be.
pub trait NumberType: TryFrom<u64, Error = TryFromIntError> {
    ghost MOST: { ℕ };

    // The largest of the type.
    const MOST: u64;
}

impl NumberType for u8 {
    ghost MOST = { 255 };

    const MOST: u64 = 0xff;
}

impl NumberType for u16 {
    ghost MOST = { 65535 };

    const MOST: u64 = 0xffff;
}

impl NumberType for u32 {
    ghost MOST = { 4294967295 };

    const MOST: u64 = 0xffff_ffff;
}

impl NumberType for usize {
    ghost MOST = { 18446744073709551615 };

    const MOST: u64 = u64::MAX;
}

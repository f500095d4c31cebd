ghost use Rattle.std.specs.Prelude.{◌≡◌, ◌<◌, [], ◌∷◌, IfSome, IfOk, Some, None, MatchOption};
ghost use Rattle.script.specs.Hexadecimal.{digit_value, octets_of_digits, digit_of, hexadecimal_text, OctetsReadBack};

use std::alloc::{AllocError, Global};
use std::fmt;

// The value of a hexadecimal digit of either case: three ranges, each with its own.
fn digit_value(octet: u8) -> Option<u8>
    ensures value { result ≡ digit_value octet }
    ensures small { IfSome result (λ v. v < 16) }
{
    match octet {
        b'0'..=b'9' => Some(octet - b'0'),
        b'a'..=b'f' => Some(octet - b'a' + 10),
        b'A'..=b'F' => Some(octet - b'A' + 10),
        _ => None,
    }
}

// The octets that a word says by two digits each, or none where it is not made so.
pub fn octets(heap: Global, word: &[u8]) -> Result<Option<Vec<u8>>, AllocError>
    ensures { IfOk result (λ o. MatchOption o (octets_of_digits word.now ≡ None) (λ v. octets_of_digits word.now ≡ Some v.items)) }
{
    if word.len() % 2 != 0 {
        return Ok(None);
    }
    let mut octets = Vec::with_capacity(heap, word.len() / 2)?;
    let mut rest = word;
    // Two digits at a time; a loop, since the memory for an octet may run out.
    while let [high, low, behind @ ..] = rest {
        let Some(high) = digit_value(*high) else {
            return Ok(None);
        };
        let Some(low) = digit_value(*low) else {
            return Ok(None);
        };
        octets.push(high * 16 + low)?;
        rest = behind;
    }
    Ok(rest.is_empty().then_some(octets))
}

// A digit in lower case.
fn digit(n: u8) -> u8
    requires { n < 16 }
    ensures { result ≡ digit_of n }
{
    if n < 10 { n + b'0' } else { n - 10 + b'a' }
}

// Octets printed by two digits each, in lower case; no octets as a dash.
#[derive(Clone, Copy)]
pub struct Hexadecimal<'a>(pub &'a [u8]);

impl fmt::Display for Hexadecimal<'_> {
    ghost output = { λ h. Some (hexadecimal_text h.0.now) };

    fn fmt<W: fmt::Write>(&self, f: &mut fmt::Formatter<W>) -> fmt::Result {
        if self.0.is_empty() {
            return write!(f, "-");
        }
        let mut rest = self.0;
        // Eight octets at a time, since each text that is written has its price.
        while let [a, b, c, d, e, g, h, i, behind @ ..] = rest {
            let digits = [
                digit(*a / 16),
                digit(*a % 16),
                digit(*b / 16),
                digit(*b % 16),
                digit(*c / 16),
                digit(*c % 16),
                digit(*d / 16),
                digit(*d % 16),
                digit(*e / 16),
                digit(*e % 16),
                digit(*g / 16),
                digit(*g % 16),
                digit(*h / 16),
                digit(*h % 16),
                digit(*i / 16),
                digit(*i % 16),
            ];
            f.write_str(str::from_utf8(&digits).map_err(|_| fmt::Error)?)?;
            rest = behind;
        }
        while let [octet, behind @ ..] = rest {
            let digits = [digit(*octet / 16), digit(*octet % 16)];
            f.write_str(str::from_utf8(&digits).map_err(|_| fmt::Error)?)?;
            rest = behind;
        }
        Ok(())
    }
}

// What was written is read back.
pub fn octets_read_back()
    ensures { OctetsReadBack }
{}

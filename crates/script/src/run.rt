ghost use Rattle.std.specs.Prelude.{◌≡◌, ◌≤◌, length};
ghost use Rattle.script.specs.Runs.{in_class, run_length};

use crate::cut::{cut_at_first, is_blank};

// A class of octets of a text.
#[derive(Clone, Copy)]
pub enum Class {
    // A space, a tabulator or a carriage return.
    Blank,
    // What words are made of.
    Word,
    // All but the end of a line.
    Line,
    // A decimal digit.
    Digit,
}

fn belongs(class: Class, octet: u8) -> bool
    ensures { result ≡ in_class class octet }
{
    match class {
        Class::Blank => is_blank(octet),
        Class::Word => !is_blank(octet),
        Class::Line => octet != b'\n',
        Class::Digit => octet.is_ascii_digit(),
    }
}

// How many octets at the front of the text are of the class.
pub fn run_length(text: &[u8], class: Class) -> usize
    ensures answer { result ≡ run_length class text.now }
    ensures within { result ≤ length text.now }
{
    let (front, _) = cut_at_first(text, |octet| !belongs(class, octet));
    front.len()
}

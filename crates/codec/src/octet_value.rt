ghost use Rattle.std.specs.Prelude.{◌≡◌, ℕ, Some, Option, Result};
ghost use Rattle.codec.specs.OctetValues.{known};
ghost use Rattle.codec.specs.declared.octet_value.UnknownOctet.{UnknownOctet};

// An octet that stands for no value of its field.
#[derive(Clone, Copy, Debug, PartialEq, Eq)]
pub struct UnknownOctet {
    pub octet: u8,
}

// A value that an octet stands for.
pub trait OctetValue: TryFrom<u8, Error = UnknownOctet> + Into<u8> {
    // The value that a number stands for.
    ghost value_of: { ℕ → Option Self };

    // The octet that stands for a value.
    ghost octet_of: { Self → ℕ };

    // `try_from` answers the value that its octet stands for.
    ghost decodes: { (n : ℕ) (r : Result Self UnknownOctet) → Self.try_from_gives n r → r ≡ known (value_of n) n };

    // `into` answers the octet that stands for the value.
    ghost encodes: { (v : Self) (n : ℕ) → Self.converts v n → n ≡ octet_of v };

    // An octet that was made from a value stands for it.
    ghost given_back: { (v : Self) → value_of (octet_of v) ≡ Some v };
}

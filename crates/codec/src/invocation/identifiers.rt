ghost use Rattle.std.specs.Prelude.{◌≡◌, ◌≤◌, length};
ghost use Rattle.std.specs.Str.{bytes_eq};
ghost use Rattle.std.specs.Ordering.{on};
ghost use Rattle.std.specs.Cmp.{partial_equiv_from_equiv};
ghost use Rattle.std.proofs.lemmas.Cmp.{nat_list_eq_equiv, on_equiv};
ghost use Rattle.codec.specs.Limits.{shortest_identifier, longest_identifier};
ghost use Rattle.codec.specs.Invocations.{named, named_if, identifier_from};

use super::{Identifier, LONGEST_IDENTIFIER, SHORTEST_IDENTIFIER};
use crate::blocks::place_block;

impl Identifier {
    // The identifier of these octets, if an identifier may have so many.
    pub fn new(octets: &[u8]) -> Option<Identifier>
        ensures { named_if result ≡ identifier_from octets.now }
    {
        if octets.len() < SHORTEST_IDENTIFIER || octets.len() > LONGEST_IDENTIFIER {
            return None;
        }
        Some(Identifier::of_octets(octets))
    }

    // The identifier of octets that are as many as an identifier may have.
    pub(super) fn of_octets(octets: &[u8]) -> Identifier
        requires low { shortest_identifier ≤ length octets.now }
        requires high { length octets.now ≤ longest_identifier }
        ensures { named result ≡ octets.now }
    {
        let mut held = [0; LONGEST_IDENTIFIER];
        place_block(&mut held, 0, octets);
        Identifier {
            octets: held,
            count: octets.len(),
        }
    }

    pub fn octets(&self) -> &[u8]
        ensures { result.now ≡ named self.now }
    {
        &self.octets[0..self.count]
    }
}

// Two identifiers are equal where they have the same octets.
impl PartialEq for Identifier {
    ghost eq = { on named bytes_eq };

    ghost laws = { partial_equiv_from_equiv (on_equiv named nat_list_eq_equiv) };

    fn eq(&self, other: &Identifier) -> bool {
        self.octets() == other.octets()
    }
}

impl Eq for Identifier {
    ghost laws = { on_equiv named nat_list_eq_equiv };
}

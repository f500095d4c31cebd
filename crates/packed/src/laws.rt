ghost use Rattle.packed.specs.Laws.{Unpacks, Repacks};

// Packing and unpacking are inverse.
pub fn packing_is_inverse()
    ensures records { Unpacks }
    ensures octets { Repacks }
{}

ghost use Rattle.std.specs.Prelude.{◌≡◌, ℕ, ◌<◌, ◌≤◌, Bool, true, List, []};

// What a queue means: the records that it holds, oldest first; the largest length of a record; and for each
// length whether it has room for a record of that length now.
pub trait Meaning {
    ghost held: { Self → List (List ℕ) };

    ghost largest: { Self → ℕ };

    ghost room: { Self → ℕ → Bool };

    // An empty queue has room for every length from 1 to its largest.
    ghost vacant: { (q : Self) (n : ℕ) → held q ≡ [] → 0 < n → n ≤ largest q → room q n ≡ true };

    // No queue has room for 0, or for more than its largest.
    ghost bounded: { (q : Self) (n : ℕ) → room q n ≡ true → (0 < n) × (n ≤ largest q) };
}

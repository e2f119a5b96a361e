// The ground that the other crates stand on. `specs/` defines counting, the first that passes, runs of
// equal size, the elements that pass, and entries laid into a list as many as fit; `proofs/` has their
// laws. Here is the reading of a byte, and the comparison of two texts, that all of them need. They
// answer every input.

#![tactic(auto)]

ghost use Rattle.std.specs.Prelude.{◌≡◌, ◌≤◌, get_or};
ghost use Rattle.base_lists.specs.Count.{bit};
ghost use Rattle.base_lists.specs.Parts.{alike};

// 1 for a test that passes, 0 for one that fails.
pub fn bit_of(b: bool) -> usize
    ensures { (result ≡ bit b) × (result ≤ 1) }
{
    usize::from(b)
}

// The byte at i, 0 past the end.
pub fn byte_at(s: &[u8], i: usize) -> u8
    ensures { result ≡ get_or s.now i 0 }
{
    s.get(i).copied().unwrap_or(0)
}

// Whether two texts are the same.
pub fn same(s: &[u8], t: &[u8]) -> bool
    ensures { result ≡ alike s.now t.now }
{
    s == t
}

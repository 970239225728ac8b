// When two texts are the same.
#![tactic(auto)]

ghost use Rattle.std.specs.Prelude.{◌≡◌};
ghost use Rattle.comparing.specs.Same.{same};

// The lengths first: bytes that agree up to the shorter one are not the same. Then the last byte, where most names that
// follow each other differ. From there on there is no way out: texts that come so far are mostly the same, and a loop
// without one takes many bytes at once.
// Not a zip: getting its two iterators ready takes a few instructions more.
pub fn same(a: &[u8], b: &[u8]) -> bool
    ensures { result ≡ same a.now b.now }
{
    if a.len() != b.len() {
        return false;
    }
    let n = a.len();
    if n == 0 {
        return true;
    }
    if a[n - 1] != b[n - 1] {
        return false;
    }
    let mut equal = true;
    for i in 0..n {
        equal &= a[i] == b[i];
    }
    equal
}

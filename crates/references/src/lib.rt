// What a name refers to at position 0, and the name whose rows it leans on.
#![tactic(auto)]

ghost use Rattle.std.specs.Prelude.{◌≡◌};
ghost use Rattle.references.specs.References.{anew, reference_of, leans_on};

use distances::Reference;
use spans::Distance;

// Name n refers to no earlier one.
fn is_anew(n: u32) -> bool
    ensures { result ≡ anew n }
{
    n == 0
}

// What name n is after the name just before it.
pub fn reference_of(n: u32, before: &[u8], name: &[u8]) -> Reference
    ensures { result ≡ reference_of n before.now name.now }
{
    if is_anew(n) {
        return Reference::Diff(Distance(0));
    }
    if comparing::same(before, name) {
        return Reference::Dup(Distance(1));
    }
    Reference::Diff(Distance(1))
}

// The name whose rows name n leans on: the one just before, or none.
pub fn leans_on(n: u32, before: &[u8]) -> &[u8]
    ensures { result.now ≡ leans_on n before.now }
{
    if is_anew(n) {
        return &before[..0];
    }
    before
}

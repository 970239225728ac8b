// The distance of a name's head: how far back DUP and DIFF may refer.
#![tactic(auto)]

ghost use Rattle.std.specs.Prelude.{◌≡◌};
ghost use Rattle.distances.specs.Distances.{dup_fits, diff_fits, dup_head, diff_head};

use refusals::Reason;
use spans::{Cursor, Distance};

// What position 0 says of a name.
#[derive(Clone, Copy)]
pub enum Reference {
    Dup(Distance),
    Diff(Distance),
}

fn dup_fits(d: Distance, n: u32) -> bool
    ensures { result ≡ dup_fits d.0 n }
{
    1 <= d.0 && d.0 <= n
}

// A distance of 0 is no earlier name, which every name may have (C-11).
fn diff_fits(d: Distance, n: u32) -> bool
    ensures { result ≡ diff_fits d.0 n }
{
    let distance = d.0;
    distance <= n
}

pub fn dup_head(n: u32, found: Option<(u32, Cursor)>) -> Result<Reference, Reason>
    ensures { result ≡ dup_head n found }
{
    let (v, _) = found.ok_or(Reason::Short)?;
    let d = Distance(v);
    if dup_fits(d, n) {
        Ok(Reference::Dup(d))
    } else {
        Err(Reason::BadDistance)
    }
}

pub fn diff_head(n: u32, found: Option<(u32, Cursor)>) -> Result<Reference, Reason>
    ensures { result ≡ diff_head n found }
{
    let (v, _) = found.ok_or(Reason::Short)?;
    let d = Distance(v);
    if diff_fits(d, n) {
        Ok(Reference::Diff(d))
    } else {
        Err(Reason::BadDistance)
    }
}

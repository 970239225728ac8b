// Claims: does a name that the card returned have all the bytes of the name that was read, and nothing else?
// A claim is handed no row table, judges nothing about rows and changes nothing.
#![tactic(auto)]

ghost use Rattle.std.specs.Prelude.{◌≡◌};
ghost use Rattle.claims.specs.Claims.{claim_of};

use block::State;
use kept::judgement;
use refusals::{Reason, Refusal};

#[derive(Clone, Copy, PartialEq, Eq)]
pub enum Verdict {
    Confirmed,
    Denied,
}

pub fn claim(
    number: u32,
    claimed: &[u8],
    state: State,
    text: &[u8],
    names: &[u32],
) -> Result<Verdict, Refusal>
    ensures { result ≡ claim_of number claimed.now state text.now names.now }
{
    if !judgement::text_counts(state, text.len(), names.len()) {
        return Err(Refusal::Plain(Reason::Outside));
    }
    if state.names <= number {
        return Err(Refusal::At(Reason::NoSuchName, number));
    }
    let e = tables::entry_at(names, number);
    if !judgement::entry_text(state, e) {
        return Err(Refusal::At(Reason::Outside, number));
    }
    let start = e.start as usize;
    let end = start + e.length as usize;
    if comparing::same(claimed, &text[start..end]) {
        Ok(Verdict::Confirmed)
    } else {
        Ok(Verdict::Denied)
    }
}

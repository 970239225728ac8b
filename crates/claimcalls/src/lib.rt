// A claim as a C function answers it: the verdict one number.
#![tactic(auto)]

ghost use Rattle.std.specs.Prelude.{◌≡◌};
ghost use Rattle.claimcalls.specs.Calls.{claim_call};

pub fn claim(number: u32, claim: &[u8], text: &[u8], names: &[u32], state: &[u32; 4]) -> u64
    ensures { result ≡ claim_call number claim.now text.now names.now state.now }
{
    answers::judged(claims::claim(number, claim, codes::state_in(state), text, names))
}

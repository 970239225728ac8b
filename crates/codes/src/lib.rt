// The numbers of the C boundary: a code with its value as one, and the state as four.
#![tactic(auto)]

ghost use Rattle.std.specs.Prelude.{◌≡◌};
ghost use Rattle.codes.specs.Codes.{packed, refusal_number, state_in, state_out};

use block::State;
use refusals::Refusal;

const NO_NAME: u32 = 4294967295;

// The code below the value.
pub fn pack(code: u32, value: u32) -> u64
    ensures { result ≡ packed code value }
{
    (code as u64) + 4294967296 * (value as u64)
}

pub fn refused(r: Refusal) -> u64
    ensures { result ≡ refusal_number r }
{
    match r {
        Refusal::Plain(reason) => pack(reason.number(), NO_NAME),
        Refusal::At(reason, name) => pack(reason.number(), name),
    }
}

pub fn state_in(state: &[u32; 4]) -> State
    ensures { result ≡ state_in state.now }
{
    State {
        count: state[0],
        names: state[1],
        text: state[2],
        rows: state[3],
    }
}

pub fn state_out(s: State) -> [u32; 4]
    ensures { result ≡ state_out s }
{
    [s.count, s.names, s.text, s.rows]
}

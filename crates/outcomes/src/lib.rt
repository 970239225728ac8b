// What a read leaves: a refusal, or a name kept.
#![tactic(auto)]

ghost use Rattle.std.specs.Prelude.{◌≡◌};
ghost use Rattle.outcomes.specs.Outcomes.{refusing, refusing_plain};

use block::State;
use entries::Reading;
use refusals::{Reason, Refusal};

// A refusal that carries the number of the name being read.
pub fn refuse(reason: Reason, state: State) -> Reading
    ensures { result ≡ refusing state reason }
{
    Reading {
        answer: Err(Refusal::At(reason, state.names)),
        state,
    }
}

// A refusal that carries no name.
pub fn refuse_plain(reason: Reason, state: State) -> Reading
    ensures { result ≡ refusing_plain state reason }
{
    Reading {
        answer: Err(Refusal::Plain(reason)),
        state,
    }
}

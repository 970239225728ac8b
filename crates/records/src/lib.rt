// The model as one record, lent: it is taken apart, and its parts are lent on.
#![tactic(auto)]

ghost use Rattle.std.specs.Prelude.{◌≡◌};
ghost use Rattle.model.specs.Sound.{Sound};
ghost use Rattle.replays.specs.Replays.{replaying, table_in, step_of, replay_of};

use model::Model;
use refusals::Refusal;

pub fn replay(m: &mut Model, size: u32, trace: &[u8]) -> Result<(), Refusal>
    ensures { replaying result m.new ≡ replay_of size trace.now m.old }
{
    replays::replay(
        size,
        trace,
        &mut m.symbols,
        &mut m.frequencies,
        &mut m.total,
    )
}

// One symbol seen: it adds 8, halves if needed, swaps. What a replay or a step left is a sound table.
pub fn step(m: &mut Model, size: u32, symbol: u8) -> Result<(), Refusal>
    requires { Sound size (table_in size m.old) }
    ensures { replaying result m.new ≡ step_of size symbol m.old }
{
    replays::step(
        size,
        symbol,
        &mut m.symbols,
        &mut m.frequencies,
        &mut m.total,
    )
}

// A trace of symbols replayed: the table that a model should end with.
#![tactic(auto)]

ghost use Rattle.std.specs.Prelude.{◌≡◌, length};
ghost use Rattle.model.specs.Model.{model};
ghost use Rattle.model.specs.Sound.{Sound};
ghost use Rattle.replays.specs.Replays.{replaying, turn_of, replay_from, table_in, step_of, replay_of};

use model::Model;
use refusals::{Reason, Refusal};

// One symbol of a trace: its step, if it stands in the table.
// Not a struct of the three lent parts: whatever is lent one has to promise that its fields are the same references still.
fn turn(
    symbol: u8,
    symbols: &mut [u32],
    frequencies: &mut [u32],
    total: &mut u32,
) -> Result<(), Refusal>
    requires { Sound (length symbols.old) (model symbols.old frequencies.old total.old) }
    ensures { replaying result (model symbols.new frequencies.new total.new) ≡ turn_of (model symbols.old frequencies.old total.old) symbol }
{
    let at = model::place_of(symbols, symbol);
    if symbols.len() <= at {
        return Err(Refusal::Plain(Reason::BadSymbol));
    }
    model::step(symbols, frequencies, total, at);
    Ok(())
}

// A turn for each symbol of a trace, until one is refused.
fn follow(
    trace: &[u8],
    symbols: &mut [u32],
    frequencies: &mut [u32],
    total: &mut u32,
) -> Result<(), Refusal>
    requires { Sound (length symbols.old) (model symbols.old frequencies.old total.old) }
    ensures { replaying result (model symbols.new frequencies.new total.new) ≡ replay_from (model symbols.old frequencies.old total.old) trace.now }
{
    for symbol in trace {
        turn(*symbol, symbols, frequencies, total)?;
    }
    Ok(())
}

// The public call, on what a model is made of: 17, then 18. Only as many places as the table has are lent on; the total is
// counted in a number of its own, since what is lent is written at each symbol.
pub fn replay(
    size: u32,
    trace: &[u8],
    symbols: &mut [u32; 256],
    frequencies: &mut [u32; 256],
    total: &mut u32,
) -> Result<(), Refusal>
    ensures { replaying result (model symbols.new frequencies.new total.new) ≡ replay_of size trace.now (model symbols.old frequencies.old total.old) }
{
    if size == 0 || Model::PLACES < size {
        return Err(Refusal::Plain(Reason::BadSize));
    }
    let symbols = &mut symbols[..size as usize];
    let frequencies = &mut frequencies[..size as usize];
    model::start(symbols, frequencies);
    let mut sum = size;
    let answer = follow(trace, symbols, frequencies, &mut sum);
    *total = sum;
    answer
}

// One symbol seen by a model, on what it is made of. No public call: no refusal has words for a table that isn't sound.
pub fn step(
    size: u32,
    symbol: u8,
    symbols: &mut [u32; 256],
    frequencies: &mut [u32; 256],
    total: &mut u32,
) -> Result<(), Refusal>
    requires { Sound size (table_in size (model symbols.old frequencies.old total.old)) }
    ensures { replaying result (model symbols.new frequencies.new total.new) ≡ step_of size symbol (model symbols.old frequencies.old total.old) }
{
    let size = size as usize;
    turn(
        symbol,
        &mut symbols[..size],
        &mut frequencies[..size],
        total,
    )
}

// A replay as a C function leaves it: the answer one number, and the record taken apart.
#![tactic(auto)]

ghost use Rattle.std.specs.Prelude.{◌≡◌};
ghost use Rattle.modelcalls.specs.Calls.{replays_left, replay_call_lent};

pub fn replay(
    size: u32,
    trace: &[u8],
    symbols: &mut [u32; 256],
    frequencies: &mut [u32; 256],
    total: &mut u32,
) -> u64
    ensures { replays_left result symbols.new frequencies.new total.new ≡ replay_call_lent size trace.now symbols.old frequencies.old total.old }
{
    match replays::replay(size, trace, symbols, frequencies, total) {
        Ok(()) => codes::pack(0, 0),
        Err(refusal) => codes::refused(refusal),
    }
}

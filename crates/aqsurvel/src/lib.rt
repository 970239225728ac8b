// The C boundary: each call of the library behind a C function that hands on what it is lent.
#![tactic(auto)]

ghost use Rattle.std.specs.Prelude.{◌≡◌};
ghost use Rattle.numbering.specs.Types.{rules_of, draft_plain};
ghost use Rattle.opencalls.specs.Calls.{opens, open_call};
ghost use Rattle.readcalls.specs.Calls.{reads_left, read_call_lent, block_call_lent};
ghost use Rattle.claimcalls.specs.Calls.{claim_call};
ghost use Rattle.writecalls.specs.Calls.{writes, write_call};
ghost use Rattle.modelcalls.specs.Calls.{replays_left, replay_call_lent};

use block::{Kind, Mode, Setting};

// The draft's plain setting, the only one there is for now.
const DRAFT: Setting = Setting {
    kind: Kind::Draft,
    mode: Mode::Plain,
};

#[unsafe(no_mangle)]
pub extern "C" fn aq_open(
    bytes: &[u8],
    dir: &[u32],
    count: u32,
    cursors: &mut [u32],
    state: &mut [u32; 4],
) -> u64
    ensures { opens result cursors.new state.new ≡ open_call bytes.now dir.now count cursors.old state.old }
{
    opencalls::open(bytes, dir, count, cursors, state)
}

#[unsafe(no_mangle)]
pub extern "C" fn aq_read(
    bytes: &[u8],
    dir: &[u32],
    cursors: &mut [u32],
    text: &mut [u8],
    names: &mut [u32],
    rows: &mut [u32],
    state: &mut [u32; 4],
) -> u64
    ensures { reads_left result cursors.new text.new names.new rows.new state.new ≡ read_call_lent (rules_of draft_plain) bytes.now dir.now cursors.old text.old names.old rows.old state.old }
{
    readcalls::read(DRAFT, bytes, dir, cursors, text, names, rows, state)
}

#[unsafe(no_mangle)]
pub extern "C" fn aq_read_block(
    bytes: &[u8],
    dir: &[u32],
    count: u32,
    cursors: &mut [u32],
    text: &mut [u8],
    names: &mut [u32],
    rows: &mut [u32],
    state: &mut [u32; 4],
) -> u64
    ensures { reads_left result cursors.new text.new names.new rows.new state.new ≡ block_call_lent (rules_of draft_plain) bytes.now dir.now count cursors.old text.old names.old rows.old state.old }
{
    readcalls::read_block(DRAFT, bytes, dir, count, cursors, text, names, rows, state)
}

#[unsafe(no_mangle)]
pub extern "C" fn aq_claim(
    number: u32,
    claim: &[u8],
    text: &[u8],
    names: &[u32],
    state: &[u32; 4],
) -> u64
    ensures { result ≡ claim_call number claim.now text.now names.now state.now }
{
    claimcalls::claim(number, claim, text, names, state)
}

#[unsafe(no_mangle)]
pub extern "C" fn aq_write(
    input: &[u8],
    dir: &mut [u32],
    bytes: &mut [u8],
    totals: &mut [u32; 2],
) -> u64
    ensures { writes result dir.new bytes.new totals.new ≡ write_call (rules_of draft_plain) input.now dir.old bytes.old totals.old }
{
    writecalls::write(DRAFT, input, dir, bytes, totals)
}

#[unsafe(no_mangle)]
pub extern "C" fn aq_model_replay(
    size: u32,
    trace: &[u8],
    symbols: &mut [u32; 256],
    frequencies: &mut [u32; 256],
    total: &mut u32,
) -> u64
    ensures { replays_left result symbols.new frequencies.new total.new ≡ replay_call_lent size trace.now symbols.old frequencies.old total.old }
{
    modelcalls::replay(size, trace, symbols, frequencies, total)
}

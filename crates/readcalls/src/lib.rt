// A read and a whole block as C functions leave them: the answer one number, the state as four.
// A refused read leaves what it may write as it was, the state too; a whole block keeps what was done before the refusal.
#![tactic(auto)]

ghost use Rattle.std.specs.Prelude.{◌≡◌};
ghost use Rattle.numbering.specs.Types.{rules_of};
ghost use Rattle.readcalls.specs.Calls.{reads_left, read_call_lent, block_call_lent};

use block::Setting;

pub fn read(
    set: Setting,
    bytes: &[u8],
    dir: &[u32],
    cursors: &mut [u32],
    text: &mut [u8],
    names: &mut [u32],
    rows: &mut [u32],
    state: &mut [u32; 4],
) -> u64
    ensures { reads_left result cursors.new text.new names.new rows.new state.new ≡ read_call_lent (rules_of set) bytes.now dir.now cursors.old text.old names.old rows.old state.old }
{
    let given = codes::state_in(state);
    let r = reading::read(set, bytes, dir, cursors, text, names, rows, given);
    let s = r.state;
    *state = codes::state_out(s);
    let a = r.answer;
    answers::answered(a, s.names)
}

pub fn read_block(
    set: Setting,
    bytes: &[u8],
    dir: &[u32],
    count: u32,
    cursors: &mut [u32],
    text: &mut [u8],
    names: &mut [u32],
    rows: &mut [u32],
    state: &mut [u32; 4],
) -> u64
    ensures { reads_left result cursors.new text.new names.new rows.new state.new ≡ block_call_lent (rules_of set) bytes.now dir.now count cursors.old text.old names.old rows.old state.old }
{
    let given = codes::state_in(state);
    let r = reading::read_block(set, bytes, dir, count, cursors, text, names, rows, given);
    let s = r.state;
    *state = codes::state_out(s);
    let a = r.answer;
    answers::answered(a, s.names)
}

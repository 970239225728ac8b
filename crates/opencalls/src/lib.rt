// Opening as a C function leaves it: the answer one number, the state as four.
// A refused call leaves what it may write as it was, the state too.
#![tactic(auto)]

ghost use Rattle.std.specs.Prelude.{◌≡◌};
ghost use Rattle.opencalls.specs.Calls.{opens, open_call};

use block::Block;

pub fn open(
    bytes: &[u8],
    directory: &[u32],
    count: u32,
    cursors: &mut [u32],
    state: &mut [u32; 4],
) -> u64
    ensures { opens result cursors.new state.new ≡ open_call bytes.now directory.now count cursors.old state.old }
{
    let b = Block { count: count };
    match b.open(bytes, directory, cursors) {
        Ok(s) => {
            *state = codes::state_out(s);
            codes::pack(0, 0)
        }
        Err(r) => codes::refused(r),
    }
}

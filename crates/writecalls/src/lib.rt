// Writing as a C function leaves it: the answer one number, the totals as two.
// A refused call leaves what it may write as it was, the totals too.
#![tactic(auto)]

ghost use Rattle.std.specs.Prelude.{◌≡◌};
ghost use Rattle.numbering.specs.Types.{rules_of};
ghost use Rattle.writecalls.specs.Calls.{writes, write_call};

use block::Setting;

pub fn write(
    set: Setting,
    input: &[u8],
    directory: &mut [u32],
    bytes: &mut [u8],
    totals: &mut [u32; 2],
) -> u64
    ensures { writes result directory.new bytes.new totals.new ≡ write_call (rules_of set) input.now directory.old bytes.old totals.old }
{
    match writing::write(set, input, directory, bytes) {
        Ok(w) => {
            *totals = [w.names, w.bytes];
            codes::pack(0, w.bytes)
        }
        Err(r) => codes::refused(r),
    }
}

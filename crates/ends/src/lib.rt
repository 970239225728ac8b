// A name's END: where the name is judged, that it isn't empty; where it is kept, what follows it.
#![tactic(auto)]

ghost use Rattle.std.specs.Prelude.{◌≡◌, true, [], ◌∷◌, ◌≤◌, ◌<◌, ◌+◌, ◌-◌, ◌^◌, length};
ghost use Rattle.base.specs.Choice.{pick};
ghost use Rattle.base.specs.Memory.{written};
ghost use Rattle.block.specs.Block.{span_of, cursor_of};
ghost use Rattle.moving.specs.Moves.{past};
ghost use Rattle.ends.specs.Ends.{ended_of};
ghost use Rattle.block.specs.Streams.{type_stream};

use block::Stream;
use names::Size;
use refusals::Reason;
use spans::Position;

// END: where the name is kept, byte 10 follows it.
pub fn ended(
    keeping: bool,
    cursors: &mut [u32],
    text: &mut [u8],
    p: Position,
    used: u32,
    len: u32,
) -> Result<Size, Reason>
    requires le_p { ((1 ≤ p.0) × (p.0 ≤ 128)) × ((len ≤ 254) × ((used < 2 ^ 31) × (length cursors.old ≡ 1290))) }
    requires len_in_bounds { keeping ≡ true → (used + len + 1 ≤ length text.old) × (cursor_of cursors.old (span_of p.0 type_stream) + 1 < 2 ^ 32) }
    ensures value { result ≡ ended_of keeping (p.0 - 1) len }
    ensures text_value { text.new ≡ pick keeping (written text.old (used + len) (10 ∷ [])) text.old }
    ensures cursors_value { cursors.new ≡ pick keeping (past cursors.old (span_of p.0 type_stream) 1) cursors.old }
{
    let size = Size {
        rows: p.0 - 1,
        length: len,
    };
    if keeping {
        moving::move_on(cursors, p, Stream::Type, 1);
        base::put(text, (used + len) as usize, 10);
        return Ok(size);
    }
    if len == 0 {
        return Err(Reason::BadName);
    }
    Ok(size)
}

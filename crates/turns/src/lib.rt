// One turn of the walk over a name, which is taken twice: what stands at a position, judged or kept.
#![tactic(auto)]

ghost use Rattle.std.specs.Prelude.{◌≡◌, true, ◌≤◌, ◌+◌};
ghost use Rattle.block.specs.Open.{Open};
ghost use Rattle.sources.specs.Source.{earlier};
ghost use Rattle.repeats.specs.Sound.{Rows};
ghost use Rattle.names.specs.Keeps.{memory_left};
ghost use Rattle.taking.specs.Taking.{place_of, Placed, turn_of};
ghost use Rattle.turns.specs.Turns.{step_lent, turn_put_lent, RoomAt};
ghost use Rattle.tables.specs.Tables.{in_rows};

use block::{Setting, Stream};
use spans::Position;
use taking::{Place, Turn};

pub fn place(p: Position, len: u32, used: u32, row: u32) -> Place
    ensures { result ≡ place_of p.0 len used row }
{
    Place { p, len, used, row }
}

// What stands at a position, judged or kept.
pub fn turn(
    set: Setting,
    keeping: bool,
    bytes: &[u8],
    dir: &[u32],
    cursors: &mut [u32],
    text: &mut [u8],
    rows: &mut [u32],
    first: u32,
    count: u32,
    at: Place,
) -> Turn
    requires fact { Open bytes.now dir.now cursors.old }
    requires rows { Rows at.used (earlier text.old (in_rows rows.old) first count) }
    requires placed { Placed at × (first + count ≤ at.row) }
    requires room_at { keeping ≡ true → RoomAt (step_lent set bytes.now dir.now cursors.old text.old rows.old first count at) at text.old (in_rows rows.old) }
    ensures value { result ≡ turn_of keeping bytes.now text.old at.len (step_lent set bytes.now dir.now cursors.old text.old rows.old first count at) }
    ensures cursors_value { memory_left text.new rows.new cursors.new ≡ turn_put_lent set keeping bytes.now dir.now cursors.old text.old rows.old first count at }
{
    let p = at.p;
    let found = sources::byte_in(bytes, dir, cursors, p, Stream::Type);
    match steps::typed_step(set, bytes, dir, cursors, text, rows, first, count, p, found)? {
        Some((t, c)) => taking::take(set, keeping, t, found, c, bytes, cursors, text, rows, at),
        None => Ok(None),
    }
}

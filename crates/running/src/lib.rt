// A run of MATCHes against rows that are known to be spelt: found by its types, and repeated in one go.
#![tactic(auto)]

ghost use Rattle.std.specs.Prelude.{◌≡◌, true, ◌≤◌, ◌<◌, ◌+◌, ◌^◌};
ghost use Rattle.block.specs.Open.{Open};
ghost use Rattle.sources.specs.Source.{earlier};
ghost use Rattle.repeats.specs.Sound.{Rows};
ghost use Rattle.names.specs.Keeps.{memory_lent, memory_left};
ghost use Rattle.running.specs.Running.{Reaches, run_lent, RunRoom, run_put};
ghost use Rattle.tables.specs.Tables.{in_rows, rows_lent};

use block::{Block, Setting};
use refusals::Reason;
use spans::Position;

// The run from position p on, of a name of `len` bytes so far; kept where the name is being kept. It gives the next position
// and the length behind the run, and refuses a name that gets too long.
pub fn run(
    set: Setting,
    keeping: bool,
    end: Position,
    bytes: &[u8],
    dir: &[u32],
    cursors: &mut [u32],
    text: &mut [u8],
    rows: &mut [u32],
    first: u32,
    count: u32,
    used: u32,
    row: u32,
    p: Position,
    len: u32,
) -> Result<(Position, u32), Reason>
    requires fact { Open bytes.now dir.now cursors.old }
    requires rows { Rows used (earlier text.old (in_rows rows.old) first count) }
    requires reaches { Reaches end.0 (earlier text.old (in_rows rows.old) first count) }
    requires le_p { (1 ≤ p.0) × ((p.0 ≤ 128) × (len ≤ 254)) }
    requires used_bound { (used < 2 ^ 31) × ((first + count ≤ row) × (row < 2 ^ 31)) }
    requires run_room { keeping ≡ true → RunRoom (run_lent set bytes.now dir.now cursors.old text.old rows.old first count end p len) used row text.old (in_rows rows.old) }
    ensures value { result ≡ run_lent set bytes.now dir.now cursors.old text.old rows.old first count end p len }
    ensures cursors_value { memory_left text.new rows.new cursors.new ≡ run_put keeping (earlier text.old (rows_lent rows.old) first count) used row p.0 len result (memory_lent text.old rows.old cursors.old) }
{
    let q = runs::run_end(set, bytes, dir, cursors, p, end);
    if q.0 <= p.0 {
        return Ok((p, len));
    }
    let w = runs::run_length(
        rows,
        (first + (p.0 - 1)) as usize,
        (first + (q.0 - 1)) as usize,
    );
    if Block::BYTES - len < w {
        return Err(Reason::BadName);
    }
    if keeping {
        repeating::repeat(cursors, text, rows, first, p, q, w, used + len, row);
        return Ok((q, len + w));
    }
    Ok((q, len + w))
}

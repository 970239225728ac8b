// A name walked from position 1 to its END: judged over what is lent and not written, or kept, which can't fail any more.
// Both ways are one function, so that whoever walks twice has one place that a step is taken at.
// A refused name alters nothing, and there is no scratch memory to hold it.
#![tactic(auto)]

ghost use Rattle.std.specs.Prelude.{◌≡◌, true, ◌≤◌, ◌<◌, ◌+◌, ◌^◌};
ghost use Rattle.block.specs.Open.{Open};
ghost use Rattle.sources.specs.Source.{earlier};
ghost use Rattle.repeats.specs.Sound.{Rows};
ghost use Rattle.names.specs.Judge.{summary};
ghost use Rattle.names.specs.Keeps.{Roomy, memory_lent, memory_left};
ghost use Rattle.repeating.specs.Repeats.{Repeats};
ghost use Rattle.walks.specs.Walks.{name_lent, walk_put};
ghost use Rattle.tables.specs.Tables.{in_rows};

use block::{Block, Setting};
use names::Size;
use refusals::Reason;
use spans::Position;

// Where it is `known` that the earlier name's rows are spelt, a run of MATCHes is repeated in one go.
// Kept is a name that was judged: its text and byte 10, its rows, and the cursors past it. Its steps are taken in memory that already holds it as far as it is kept, behind all that they look at.
pub fn walk(
    set: Setting,
    keep: bool,
    known: bool,
    bytes: &[u8],
    dir: &[u32],
    cursors: &mut [u32],
    text: &mut [u8],
    rows: &mut [u32],
    first: u32,
    count: u32,
    used: u32,
    row: u32,
) -> Result<Size, Reason>
    requires fact { Open bytes.now dir.now cursors.old }
    requires rows { Rows used (earlier text.old (in_rows rows.old) first count) }
    requires used_bound { (used < 2 ^ 31) × ((first + count ≤ row) × (row < 2 ^ 31)) }
    requires repeats { Repeats known (earlier text.old (in_rows rows.old) first count) }
    requires roomy { keep ≡ true → Roomy (name_lent set bytes.now dir.now cursors.old text.old rows.old first count used) (first + count) used row text.old (in_rows rows.old) }
    ensures value { result ≡ summary (name_lent set bytes.now dir.now cursors.old text.old rows.old first count used) }
    ensures cursors_value { memory_left text.new rows.new cursors.new ≡ walk_put keep used row (name_lent set bytes.now dir.now cursors.old text.old rows.old first count used) (memory_lent text.old rows.old cursors.old) }
{
    let end = runs::last(known, count);
    // Not a `for`: a turn goes past a whole run of MATCHes, so that the position may move on by more than one.
    let mut p = Position(1);
    let mut len: u32 = 0;
    while p.0 <= Block::TOKENS {
        let (q, l) = running::run(
            set, keep, end, bytes, dir, cursors, text, rows, first, count, used, row, p, len,
        )?;
        let at = turns::place(q, l, used, row);
        let Some(w) = turns::turn(set, keep, bytes, dir, cursors, text, rows, first, count, at)?
        else {
            return ends::ended(keep, cursors, text, q, used, l);
        };
        len = l + w;
        p = Position(q.0 + 1);
    }
    Err(Reason::NotEnd)
}

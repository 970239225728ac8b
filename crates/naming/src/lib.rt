// A name read over the rows of an earlier one, kept with its entry.
#![tactic(auto)]

ghost use Rattle.std.specs.Prelude.{◌≡◌, ◌+◌, ◌≤◌};
ghost use Rattle.block.specs.Open.{Open};
ghost use Rattle.tables.specs.Tables.{keeping, in_rows};
ghost use Rattle.kept.specs.Inside.{Counted};
ghost use Rattle.numbering.specs.Types.{rules_of};
ghost use Rattle.sources.specs.Source.{source, earlier};
ghost use Rattle.repeats.specs.Sound.{Rows};
ghost use Rattle.repeating.specs.Repeats.{Repeats};
ghost use Rattle.outcomes.specs.Outcomes.{leaves};
ghost use Rattle.heads.specs.Headed.{Headed};
ghost use Rattle.naming.specs.Naming.{diff_of_lent};
ghost use Rattle.block.specs.Streams.{diff_stream};

use block::{Setting, State, Stream};
use entries::Reading;
use refusals::Reason;
use spans::Distance;

// Rule 4, over the rows of an earlier name that was judged: walked to judge it, and once more to keep it.
pub fn named(
    set: Setting,
    known: bool,
    bytes: &[u8],
    dir: &[u32],
    cursors: &mut [u32],
    text: &mut [u8],
    entries: &mut [u32],
    rows: &mut [u32],
    state: State,
    distance: Distance,
    first: u32,
    count: u32,
) -> Reading
    requires fact { Open bytes.now dir.now cursors.old }
    requires counted { Counted (keeping state text.old entries.old (in_rows rows.old)) }
    requires rows { Rows state.text (earlier text.old (in_rows rows.old) first count) × (first + count ≤ state.rows) }
    requires headed { Headed (source (rules_of set) bytes.now dir.now cursors.old) diff_stream distance.0 state.names }
    requires repeats { Repeats known (earlier text.old (in_rows rows.old) first count) }
    ensures { leaves result cursors.new text.new entries.new rows.new ≡ diff_of_lent set bytes.now dir.now cursors.old text.old entries.old rows.old state distance.0 first count }
{
    let mut keeping = false;
    // Not a `for`: it has two turns at most, and returns in either.
    loop {
        let walked = walks::walk(
            set, keeping, known, bytes, dir, cursors, text, rows, first, count, state.text,
            state.rows,
        );
        let size = match walked {
            Ok(size) => size,
            Err(r) => return outcomes::refuse(r, state),
        };
        if keeping {
            return entries::enter(
                entries,
                state,
                size.length,
                size.rows,
                state.rows,
                size.rows,
                distance,
            );
        }
        if !entries::has_room(state, text, entries, rows, size.length, size.rows) {
            return outcomes::refuse(Reason::NoRoom, state);
        }
        heads::move_head(cursors, Stream::Diff);
        keeping = true;
    }
}

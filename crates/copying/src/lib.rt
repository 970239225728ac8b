// A name that is a copy of an earlier one, kept with its entry.
#![tactic(auto)]

ghost use Rattle.std.specs.Prelude.{◌≡◌, List, ℕ, length};
ghost use Rattle.tables.specs.Tables.{keeping, tables_lent, in_rows};
ghost use Rattle.kept.specs.Inside.{Counted, TextInside};
ghost use Rattle.numbering.specs.Types.{Rules};
ghost use Rattle.sources.specs.Source.{source};
ghost use Rattle.heads.specs.Headed.{Passable};
ghost use Rattle.copying.specs.Copies.{dup_of, leaves_rows};
ghost use Rattle.block.specs.Streams.{dup_stream};

use block::{State, Stream};
use entries::Reading;
use refusals::Reason;
use spans::Distance;
use tables::Entry;

// Rule 3, of an earlier name that was judged. What rules the block is read by and where its bytes and directory lie doesn't matter to it.
pub fn copied(
    cursors: &mut [u32],
    text: &mut [u8],
    entries: &mut [u32],
    rows: &[u32],
    state: State,
    distance: Distance,
    e: Entry,
) -> Reading
    requires counted { Counted (keeping state text.old entries.old (in_rows rows.now)) }
    requires text_inside { TextInside state e }
    requires cursors_len { (length cursors.old ≡ 1290) × Passable cursors.old dup_stream }
    ensures { (rules : Rules) (b d : List ℕ) → leaves_rows result cursors.new text.new entries.new rows.now ≡ dup_of (source rules b d cursors.old) (tables_lent state text.old entries.old rows.now) distance.0 e }
{
    let bytes = e.length;
    if entries::has_room(state, text, entries, rows, bytes, 0) {
        let from = e.start as usize;
        let at = state.text as usize;
        let size = bytes as usize;
        base::copy_within(text, from, from + size, at);
        base::put(text, at + size, 10);
        heads::move_head(cursors, Stream::Dup);
        entries::enter(entries, state, bytes, 0, e.first, e.rows, distance)
    } else {
        outcomes::refuse(Reason::NoRoom, state)
    }
}

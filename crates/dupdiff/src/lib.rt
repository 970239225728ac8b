// DUP and DIFF, with the earlier name judged or known to fit.
#![tactic(auto)]

ghost use Rattle.std.specs.Prelude.{◌≡◌, List, ℕ, ◌≤◌, length};
ghost use Rattle.block.specs.Open.{Open};
ghost use Rattle.tables.specs.Tables.{keeping, tables_lent, in_rows};
ghost use Rattle.kept.specs.Inside.{Counted};
ghost use Rattle.numbering.specs.Types.{Rules, rules_of};
ghost use Rattle.sources.specs.Source.{source, block_lent};
ghost use Rattle.earlier.specs.Fits.{Known};
ghost use Rattle.outcomes.specs.Outcomes.{leaves};
ghost use Rattle.heads.specs.Headed.{Passable, Headed};
ghost use Rattle.copying.specs.Copies.{leaves_rows};
ghost use Rattle.dupdiff.specs.Judged.{dup_judged, diff_judged};
ghost use Rattle.block.specs.Streams.{dup_stream, diff_stream};

use block::{Setting, State};
use earlier::Rows;
use entries::Reading;
use refusals::Reason;
use spans::Distance;

// DUP, with the earlier name judged or known to fit.
pub fn dup(
    known: bool,
    cursors: &mut [u32],
    text: &mut [u8],
    entries: &mut [u32],
    rows: &[u32],
    state: State,
    distance: Distance,
) -> Reading
    requires counted { Counted (keeping state text.old entries.old (in_rows rows.now)) }
    requires le_distance { (1 ≤ distance.0) × (distance.0 ≤ state.names) }
    requires cursors_len { (length cursors.old ≡ 1290) × Passable cursors.old dup_stream }
    requires known { Known known (keeping state text.old entries.old (in_rows rows.now)) }
    ensures { (rules : Rules) (b d : List ℕ) → leaves_rows result cursors.new text.new entries.new rows.now ≡ dup_judged (source rules b d cursors.old) (tables_lent state text.old entries.old rows.now) distance.0 }
{
    let back = state.names - distance.0;
    if earlier::fits_back(known, state, entries, rows, back) {
        let e = tables::entry_at(entries, back);
        copying::copied(cursors, text, entries, rows, state, distance, e)
    } else {
        outcomes::refuse(Reason::Outside, state)
    }
}

// DIFF, with the earlier name judged or known to fit if there is one.
pub fn diff(
    set: Setting,
    known: bool,
    bytes: &[u8],
    dir: &[u32],
    cursors: &mut [u32],
    text: &mut [u8],
    entries: &mut [u32],
    rows: &mut [u32],
    state: State,
    distance: Distance,
) -> Reading
    requires fact { Open bytes.now dir.now cursors.old }
    requires counted { Counted (keeping state text.old entries.old (in_rows rows.old)) }
    requires headed { Headed (source (rules_of set) bytes.now dir.now cursors.old) diff_stream distance.0 state.names }
    requires known { Known known (keeping state text.old entries.old (in_rows rows.old)) }
    ensures { leaves result cursors.new text.new entries.new rows.new ≡ diff_judged (block_lent set bytes.now dir.now cursors.old) (tables_lent state text.old entries.old rows.old) distance.0 }
{
    // Asked here, so that nothing is handed on to a judgement that isn't made.
    let back = if known {
        Ok(earlier::said_back(state, entries, distance))
    } else {
        earlier::leans(state, entries, rows, distance)
    };
    match back {
        Ok(Rows { first, count }) => naming::named(
            set, known, bytes, dir, cursors, text, entries, rows, state, distance, first, count,
        ),
        Err(r) => outcomes::refuse(r, state),
    }
}

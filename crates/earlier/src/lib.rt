// The earlier name: judged or known to fit, and the rows that DIFF goes by.
#![tactic(auto)]

ghost use Rattle.std.specs.Prelude.{◌≡◌, true, [], ◌+◌, ◌*◌, ◌≤◌, length};
ghost use Rattle.tables.specs.Tables.{entry_size, keeping, entry_at, in_rows, row_room, rows_lent};
ghost use Rattle.kept.specs.Judgement.{earlier_fits};
ghost use Rattle.earlier.specs.Back.{rows_from, said_back, back_of};

use block::State;
use kept::judgement;
use refusals::Reason;
use spans::Distance;

// The rows that a DIFF goes by, from one on and so many: none without an earlier name.
#[derive(Clone, Copy)]
pub struct Rows {
    pub first: u32,
    pub count: u32,
}

// Refusal 13 for an earlier name is given where this is false; what is known isn't judged again.
pub fn fits_back(known: bool, state: State, entries: &[u32], rows: &[u32], back: u32) -> bool
    requires entry_size_in_bounds { (entry_size * back + entry_size ≤ length entries.now) × (state.rows ≤ row_room (in_rows rows.now)) }
    requires back_value { known ≡ true → earlier_fits (keeping state [] entries.now (in_rows rows.now)) back ≡ true }
    ensures { result ≡ earlier_fits (keeping state [] entries.now (rows_lent rows.now)) back }
{
    known || judgement::earlier_fits(state, entries, rows, back)
}

// The rows that an entry says.
fn rows_of(entries: &[u32], i: u32) -> Rows
    requires { entry_size * i + entry_size ≤ length entries.now }
    ensures { result ≡ rows_from (entry_at entries.now i).first (entry_at entries.now i).rows }
{
    let e = tables::entry_at(entries, i);
    Rows {
        first: e.first,
        count: e.rows,
    }
}

// The rows that the earlier name's entry says, if there is one. Where all that is kept is known to fit, DIFF goes by these:
// nothing is judged, and no rows are looked at.
pub fn said_back(state: State, entries: &[u32], distance: Distance) -> Rows
    requires names_in_bounds { entry_size * state.names ≤ length entries.now }
    requires distance_le_names { distance.0 ≤ state.names }
    ensures { result ≡ said_back entries.now state.names distance.0 }
{
    if distance.0 == 0 {
        return Rows { first: 0, count: 0 };
    }
    rows_of(entries, state.names - distance.0)
}

// The rows that DIFF goes by, the earlier name being judged if there is one. It doesn't end in `said_back`: where both ways
// did, a whole block took more instructions (docs/MEASURED.md).
pub fn leans(
    state: State,
    entries: &[u32],
    rows: &[u32],
    distance: Distance,
) -> Result<Rows, Reason>
    requires names_in_bounds { (entry_size * state.names ≤ length entries.now) × (state.rows ≤ row_room (in_rows rows.now)) }
    requires distance_le_names { distance.0 ≤ state.names }
    ensures { result ≡ back_of (keeping state [] entries.now (rows_lent rows.now)) distance.0 }
{
    let d = distance.0;
    if d == 0 {
        return Ok(Rows { first: 0, count: 0 });
    }
    let back = state.names - d;
    if judgement::earlier_fits(state, entries, rows, back) {
        Ok(rows_of(entries, back))
    } else {
        Err(Reason::Outside)
    }
}

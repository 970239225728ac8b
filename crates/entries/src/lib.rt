// The answer of a read, and a name's entry: room for it, and the state after it.
#![tactic(auto)]

ghost use Rattle.std.specs.Prelude.{◌≡◌, ◌+◌, ◌*◌, ◌^◌, ◌≤◌, ◌<◌, length};
ghost use Rattle.base.specs.Memory.{written};
ghost use Rattle.tables.specs.Tables.{entry_size, tables_lent};
ghost use Rattle.entries.specs.Entries.{room_of, entry_of, keeping_name};

use block::State;
use refusals::Refusal;
use spans::Distance;
use tables::Entry;

// A read keeps a name and answers its number, or finds the block at its end and answers none, or refuses.
pub type Answer = Result<Option<u32>, Refusal>;

// The answer of a read, and the state after it.
#[derive(Clone, Copy)]
pub struct Reading {
    pub answer: Answer,
    pub state: State,
}

// Refusal 9 is given where this is false.
pub fn has_room(
    state: State,
    text: &[u8],
    entries: &[u32],
    rows: &[u32],
    bytes: u32,
    added: u32,
) -> bool
    ensures { result ≡ room_of (tables_lent state text.now entries.now rows.now) bytes added }
{
    (state.text as usize) + (bytes as usize) + 1 <= text.len()
        && tables::ENTRY * ((state.names as usize) + 1) <= entries.len()
        && tables::ROW * ((state.rows as usize) + (added as usize)) <= rows.len()
}

// The entry and the state of a name whose text and rows are kept.
pub fn enter(
    entries: &mut [u32],
    state: State,
    bytes: u32,
    added: u32,
    first: u32,
    rows: u32,
    distance: Distance,
) -> Reading
    requires entry_size_in_bounds { entry_size * state.names + entry_size ≤ length entries.old }
    requires names_bound { (state.names + 1 < 2 ^ 32) × ((state.text + bytes + 1 < 2 ^ 32) × (state.rows + added < 2 ^ 32)) }
    ensures value { result ≡ keeping_name state bytes added }
    ensures entries_value { entries.new ≡ written entries.old (entry_size * state.names) (entry_of state bytes first rows distance.0) }
{
    let k = state.names;
    let e = Entry {
        start: state.text,
        length: bytes,
        first,
        rows,
        distance: distance.0,
    };
    tables::put_entry(entries, k, e);
    Reading {
        answer: Ok(Some(k)),
        state: State {
            names: k + 1,
            text: state.text + bytes + 1,
            rows: state.rows + added,
            ..state
        },
    }
}

// The kept tables, so many numbers a name and so many a row: how many they are, a function that reads an entry or a row and
// one that puts it (`row_at` is `row_in` for a row's number as tables have it).
// Places are counted in usize, since a size times a number may be past 2^32.
#![tactic(auto)]

ghost use Rattle.std.specs.Prelude.{◌≡◌, ◌≤◌, ◌<◌, ◌+◌, ◌*◌, [], ◌∷◌, length};
ghost use Rattle.base.specs.Memory.{written};
ghost use Rattle.tables.specs.Tables.{entry_size, in_rows, row_room, entry_at, row_at, put_rows, entry_numbers, rows_lent, rows_left};

// A name's five numbers.
#[derive(Clone, Copy)]
pub struct Entry {
    pub start: u32,
    pub length: u32,
    pub first: u32,
    pub rows: u32,
    pub distance: u32,
}

// A row's five numbers.
#[derive(Clone, Copy)]
pub struct Row {
    pub kind: u32,
    pub number: u32,
    pub width: u32,
    pub start: u32,
    pub length: u32,
}

pub const ENTRY: usize = 5;

pub const ROW: usize = 5;

pub fn entry_at(names: &[u32], i: u32) -> Entry
    requires { entry_size * i + entry_size ≤ length names.now }
    ensures { result ≡ entry_at names.now i }
{
    let at = ENTRY * (i as usize);
    Entry {
        start: names[at],
        length: names[at + 1],
        first: names[at + 2],
        rows: names[at + 3],
        distance: names[at + 4],
    }
}

pub fn row_in(rows: &[u32], i: usize) -> Row
    requires { i < row_room (in_rows rows.now) }
    ensures { result ≡ row_at (rows_lent rows.now) i }
{
    let at = ROW * i;
    Row {
        kind: rows[at],
        number: rows[at + 1],
        width: rows[at + 2],
        start: rows[at + 3],
        length: rows[at + 4],
    }
}

pub fn row_at(rows: &[u32], i: u32) -> Row
    requires { i < row_room (in_rows rows.now) }
    ensures { result ≡ row_at (rows_lent rows.now) i }
{
    row_in(rows, i as usize)
}

pub fn put_entry(names: &mut [u32], i: u32, e: Entry)
    requires { entry_size * i + entry_size ≤ length names.old }
    ensures { names.new ≡ written names.old (entry_size * i) (entry_numbers e) }
{
    base::put_five(
        names,
        ENTRY * (i as usize),
        [e.start, e.length, e.first, e.rows, e.distance],
    );
}

pub fn put_row(rows: &mut [u32], i: usize, r: Row)
    requires { i < row_room (in_rows rows.old) }
    ensures { rows_left rows.new ≡ put_rows (rows_lent rows.old) i (r ∷ []) }
{
    base::put_five(
        rows,
        ROW * i,
        [r.kind, r.number, r.width, r.start, r.length],
    );
}

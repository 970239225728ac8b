// "13 in full", in its parts: the counts, an entry, a row, and an earlier name with all its rows.
// Sums are of 64 bits, so that no kept numbers make one wrap.
ghost use Rattle.std.specs.Prelude.{◌≡◌, [], ◌≤◌, ◌+◌, ◌*◌, ◌/◌, length};
ghost use Rattle.tables.specs.Tables.{entry_size, row_size, in_rows, row_room, keeping, rows_lent, tables_lent};
ghost use Rattle.kept.specs.Judgement.{text_counts, row_counts, counts, entry_text, entry_rows, row_kind, row_fits, rows_fit, earlier_fits};

use block::{Block, State};
use tables::{Entry, Row};

// A name's tokens but END, and its bytes with byte 10.
const ROWS: u32 = Block::TOKENS - 1;

const TEXT: u32 = Block::BYTES + 1;

pub fn text_counts(s: State, bytes: usize, numbers: usize) -> bool
    ensures { result ≡ text_counts s bytes (numbers / entry_size) }
{
    let k = s.names as u64;
    let used = s.text as u64;
    (s.names <= s.count)
        & (k <= (numbers / tables::ENTRY) as u64)
        & (s.count <= Block::NAMES)
        & (used <= bytes as u64)
        & (used <= TEXT as u64 * k)
}

fn row_counts(s: State, numbers: usize) -> bool
    ensures { result ≡ row_counts s (numbers / row_size) }
{
    let used = s.rows as u64;
    (used <= (numbers / tables::ROW) as u64) & (used <= ROWS as u64 * s.names as u64)
}

pub fn counts(s: State, text: &[u8], names: &[u32], rows: &[u32]) -> bool
    ensures { result ≡ counts (tables_lent s text.now names.now rows.now) }
{
    text_counts(s, text.len(), names.len()) & row_counts(s, rows.len())
}

pub fn entry_text(s: State, e: Entry) -> bool
    ensures { result ≡ entry_text s e }
{
    (1 <= e.length)
        & (e.length <= Block::BYTES)
        & (e.start as u64 + e.length as u64 <= s.text as u64)
}

pub fn entry_rows(s: State, e: Entry) -> bool
    ensures { result ≡ entry_rows s e }
{
    (1 <= e.rows) & (e.rows <= ROWS) & (e.first as u64 + e.rows as u64 <= s.rows as u64)
}

pub fn row_kind(r: Row) -> bool
    ensures { result ≡ row_kind r }
{
    let kind = r.kind;
    match kind {
        1 => true,
        2 => r.length == 1,
        4 => (r.width <= Block::BYTES) & digits::fits_width(r.number, r.width),
        _ => kind == 7,
    }
}

pub fn row_fits(used: u32, r: Row) -> bool
    ensures { result ≡ row_fits used r }
{
    (r.start as u64 + r.length as u64 <= used as u64) & row_kind(r)
}

// No way out inside the loop: in a sound table every row is looked at.
pub fn rows_fit(used: u32, rows: &[u32], first: u32, many: u32) -> bool
    requires { (first + many ≤ 4294967295) × (first + many ≤ row_room (in_rows rows.now)) }
    ensures { result ≡ rows_fit used (rows_lent rows.now) first many }
{
    let end = first + many;
    let mut ok = true;
    for i in first..end {
        ok = ok & row_fits(used, tables::row_at(rows, i));
    }
    ok
}

// The text itself isn't looked at: the judgement is the same whatever it holds.
pub fn earlier_fits(s: State, names: &[u32], rows: &[u32], i: u32) -> bool
    requires { (entry_size * i + entry_size ≤ length names.now) × (s.rows ≤ row_room (in_rows rows.now)) }
    ensures { result ≡ earlier_fits (keeping s [] names.now (rows_lent rows.now)) i }
{
    let e = tables::entry_at(names, i);
    if entry_text(s, e) & entry_rows(s, e) {
        let first = e.first;
        let many = e.rows;
        rows_fit(s.text, rows, first, many)
    } else {
        false
    }
}

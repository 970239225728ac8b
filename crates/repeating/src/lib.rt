// A run of MATCHes repeated in one go: the texts of its rows, its rows, and the cursors past its types.
#![tactic(auto)]

ghost use Rattle.std.specs.Prelude.{◌≡◌, ℕ, ◌≤◌, ◌<◌, ◌+◌, ◌-◌, ◌^◌, length};
ghost use Rattle.block.specs.Block.{span_of, cursor_of};
ghost use Rattle.tables.specs.Tables.{row_at, in_rows, row_room, put_rows, rows_lent, rows_left};
ghost use Rattle.sources.specs.Source.{earlier};
ghost use Rattle.repeats.specs.Sound.{Rows};
ghost use Rattle.names.specs.Keeps.{memory_lent, memory_left};
ghost use Rattle.repeating.specs.Repeats.{RowsSpelt};
ghost use Rattle.runs.specs.Runs.{text_length};
ghost use Rattle.repeating.specs.Repeating.{moved_rows, types_past, repeat_put};
ghost use Rattle.block.specs.Streams.{type_stream};

use block::Stream;
use spans::Position;
use tables::Row;

// Rows `from` up to `to` once more from `row` on, with their texts at `at`.
fn copy_rows(rows: &mut [u32], from: usize, to: usize, row: usize, at: u32)
    requires from_le_to { (from ≤ to) × ((to ≤ row) × (row + (to - from) ≤ row_room (in_rows rows.old))) }
    requires by_index { (j : ℕ) → from ≤ j → j + 1 < to → (row_at (in_rows rows.old) (j + 1)).start ≡ (row_at (in_rows rows.old) j).start + (row_at (in_rows rows.old) j).length }
    requires by_index_2 { (j : ℕ) → from ≤ j → j < to → at + ((row_at (in_rows rows.old) j).start + (row_at (in_rows rows.old) j).length) < 2 ^ 32 + (row_at (in_rows rows.old) from).start }
    ensures { rows_left rows.new ≡ put_rows (rows_lent rows.old) row (moved_rows (rows_lent rows.old) from (to - from) at) }
{
    let mut start = at;
    for i in from..to {
        let r = tables::row_in(rows, i);
        let moved = Row { start, ..r };
        tables::put_row(rows, row + (i - from), moved);
        start += r.length;
    }
}

fn move_types(cursors: &mut [u32], p: Position, q: Position)
    requires cursors_len { (length cursors.old ≡ 1290) × (q.0 ≤ 128) }
    requires by_index { (i : ℕ) → p.0 ≤ i → i < q.0 → cursor_of cursors.old (span_of i type_stream) + 1 < 2 ^ 32 }
    ensures { cursors.new ≡ types_past cursors.old p.0 (q.0 - p.0) }
{
    for i in p.0..q.0 {
        moving::move_on(cursors, Position(i), Stream::Type, 1);
    }
}

// The run from position p up to q, of w bytes, kept.
pub fn repeat(
    cursors: &mut [u32],
    text: &mut [u8],
    rows: &mut [u32],
    first: u32,
    p: Position,
    q: Position,
    w: u32,
    at: u32,
    row: u32,
)
    requires cursors_len { (length cursors.old ≡ 1290) × ((1 ≤ p.0) × ((p.0 < q.0) × (q.0 ≤ 128))) }
    requires by_index { (i : ℕ) → p.0 ≤ i → i < q.0 → cursor_of cursors.old (span_of i type_stream) + 1 < 2 ^ 32 }
    requires rows { Rows at (earlier text.old (in_rows rows.old) first (q.0 - 1)) }
    requires rows_spelt { RowsSpelt (earlier text.old (in_rows rows.old) first (q.0 - 1)) }
    requires w_value { w ≡ text_length (in_rows rows.old) (first + (p.0 - 1)) (first + (q.0 - 1)) }
    requires w_in_bounds { (at + w ≤ length text.old) × (at + w < 2 ^ 32) }
    requires q_bound { (first + (q.0 - 1) ≤ row) × ((row < 2 ^ 31) × (row + (q.0 - 1) ≤ row_room (in_rows rows.old))) }
    ensures { memory_left text.new rows.new cursors.new ≡ repeat_put first p.0 q.0 w at row (memory_lent text.old rows.old cursors.old) }
{
    let from = (first + (p.0 - 1)) as usize;
    let to = (first + (q.0 - 1)) as usize;
    let lead = tables::row_in(rows, from);
    let start = lead.start as usize;
    base::copy_within(text, start, start + w as usize, at as usize);
    copy_rows(rows, from, to, (row + (p.0 - 1)) as usize, at);
    move_types(cursors, p, q);
}

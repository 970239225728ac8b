// A run of MATCHes found: how far it may go, where it ends by its types, and how many bytes its rows have.
#![tactic(auto)]

ghost use Rattle.std.specs.Prelude.{◌≡◌, ◌≤◌, ◌<◌, ◌+◌, ◌-◌, ◌^◌, length};
ghost use Rattle.base.specs.Choice.{pick};
ghost use Rattle.block.specs.Open.{Open};
ghost use Rattle.tables.specs.Tables.{row_at, in_rows, row_room, rows_lent};
ghost use Rattle.sources.specs.Source.{block_lent};
ghost use Rattle.runs.specs.Runs.{is_match, run_end, text_length};

use block::{Setting, Stream};
use names::keeping;
use numbering::TokenType;
use spans::Position;

// How far a run of MATCHes may go.
pub fn last(known: bool, count: u32) -> Position
    requires { count ≤ 127 }
    ensures { result.0 ≡ pick known (count + 1) 1 }
{
    if !known {
        return Position(1);
    }
    Position(count + 1)
}

fn is_match(t: TokenType) -> bool
    ensures { result ≡ is_match t }
{
    matches!(t, TokenType::Match)
}

// The first position from p on that isn't a MATCH, or `end`.
pub fn run_end(
    set: Setting,
    bytes: &[u8],
    dir: &[u32],
    cursors: &[u32],
    p: Position,
    end: Position,
) -> Position
    requires fact { Open bytes.now dir.now cursors.now }
    requires le_p { (1 ≤ p.0) × (end.0 ≤ 128) }
    ensures { result.0 ≡ run_end (block_lent set bytes.now dir.now cursors.now) p.0 (end.0 - p.0) }
{
    let stop = end.0;
    // Not a `for` over p..end: where p is past `end`, the answer is p.
    let mut q = p.0;
    while q < stop {
        let found = sources::byte_in(bytes, dir, cursors, Position(q), Stream::Type);
        if !is_match(keeping::type_in(set, found)) {
            return Position(q);
        }
        q += 1;
    }
    Position(q)
}

// The first row and the last tell it, since the texts lie one behind the other.
pub fn run_length(rows: &[u32], from: usize, to: usize) -> u32
    requires from_lt_to { (from < to) × (to ≤ row_room (in_rows rows.now)) }
    requires from_bound { (row_at (in_rows rows.now) from).start ≤ (row_at (in_rows rows.now) (to - 1)).start + (row_at (in_rows rows.now) (to - 1)).length }
    requires to_bound { (row_at (in_rows rows.now) (to - 1)).start + (row_at (in_rows rows.now) (to - 1)).length < 2 ^ 32 }
    ensures { result ≡ text_length (rows_lent rows.now) from to }
{
    let lead = tables::row_in(rows, from);
    let last = tables::row_in(rows, to - 1);
    last.start + last.length - lead.start
}

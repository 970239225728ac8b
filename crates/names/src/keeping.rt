// A token that was judged, kept: its text, its row, and the cursors past it.
ghost use Rattle.std.specs.Prelude.{◌≡◌, ◌≤◌, ◌<◌, ◌+◌, ◌^◌, length};
ghost use Rattle.block.specs.Block.{span_of, cursor_of};
ghost use Rattle.numbering.specs.Types.{numbers_of};
ghost use Rattle.tokens.specs.Tokens.{length_of};
ghost use Rattle.tokens.specs.Inside.{Inside, KeptBelow};
ghost use Rattle.names.specs.Names.{type_in};
ghost use Rattle.moving.specs.Moves.{Movable};
ghost use Rattle.names.specs.Keeps.{put_token, memory_lent, memory_left};
ghost use Rattle.block.specs.Streams.{type_stream};
ghost use Rattle.tables.specs.Tables.{in_rows, row_room};

use block::Setting;
use numbering::TokenType;
use spans::{Cursor, Position};
use tokens::Token;

pub fn type_in(set: Setting, found: Option<(u8, Cursor)>) -> TokenType
    ensures { result ≡ type_in (numbers_of set.kind) found }
{
    match found {
        Some((b, _)) => {
            let kind = set.kind;
            numbering::type_of(kind, b)
        }
        None => TokenType::Other,
    }
}

// One token. Putting it down tells its length, which is not found a second time.
pub fn keep_token(
    t: Token,
    bytes: &[u8],
    cursors: &mut [u32],
    text: &mut [u8],
    rows: &mut [u32],
    p: Position,
    ty: TokenType,
    c: Cursor,
    at: u32,
    row: u32,
) -> u32
    requires inside { Inside bytes.now text.old t }
    requires kept_below { KeptBelow at t }
    requires t_in_bounds { (at + length_of t ≤ length text.old) × (row < row_room (in_rows rows.old)) }
    requires cursors_len { (length cursors.old ≡ 1290) × ((p.0 ≤ 128) × (cursor_of cursors.old (span_of p.0 type_stream) + 1 < 2 ^ 32)) }
    requires movable { Movable ty p.0 cursors.old }
    ensures value { result ≡ length_of t }
    ensures cursors_value { memory_left text.new rows.new cursors.new ≡ put_token bytes.now (memory_lent text.old rows.old cursors.old) t ty p.0 c.0 at row }
{
    let len = tokens::put(t, bytes, text, at as usize);
    tokens::put_row(t, len, rows, row as usize, at);
    moving::advance(cursors, p, ty, c);
    len
}

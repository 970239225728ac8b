// The cursors past what a name has read.
#![tactic(auto)]

ghost use Rattle.std.specs.Prelude.{◌≡◌, ◌≤◌, ◌<◌, ◌+◌, ◌^◌, length, set};
ghost use Rattle.block.specs.Block.{span_of, cursor_of};
ghost use Rattle.moving.specs.Moves.{past, value_past, Movable};
ghost use Rattle.block.specs.Streams.{stream_number, type_stream, digits0_stream, dzlen_stream};

use block::Stream;
use numbering::TokenType;
use spans::{Cursor, Position};

// A cursor so many bytes on.
pub fn move_on(cursors: &mut [u32], p: Position, stream: Stream, n: u32)
    requires cursors_len { (length cursors.old ≡ 1290) × (p.0 ≤ 128) }
    requires n_bound { cursor_of cursors.old (span_of p.0 (stream_number stream)) + n < 2 ^ 32 }
    ensures { cursors.new ≡ past cursors.old (span_of p.0 (stream_number stream)) n }
{
    let span = block::span_of(p, stream);
    let i = span.0;
    let at = cursors[i];
    cursors[i] = at + n;
}

fn move_to(cursors: &mut [u32], p: Position, stream: Stream, c: Cursor)
    requires { (length cursors.old ≡ 1290) × (p.0 ≤ 128) }
    ensures { cursors.new ≡ set cursors.old (span_of p.0 (stream_number stream)) c.0 }
{
    let span = block::span_of(p, stream);
    let i = span.0;
    cursors[i] = c.0;
}

// A number and, a byte each, its width.
fn move_padded(cursors: &mut [u32], p: Position, c: Cursor)
    requires cursors_len { (length cursors.old ≡ 1290) × (p.0 ≤ 128) }
    requires dzlen_stream_bound { cursor_of cursors.old (span_of p.0 dzlen_stream) + 1 < 2 ^ 32 }
    ensures { cursors.new ≡ past (set cursors.old (span_of p.0 digits0_stream) c.0) (span_of p.0 dzlen_stream) 1 }
{
    move_to(cursors, p, Stream::Digits0, c);
    move_on(cursors, p, Stream::Dzlen, 1);
}

fn move_value(cursors: &mut [u32], p: Position, t: TokenType, c: Cursor)
    requires cursors_len { (length cursors.old ≡ 1290) × (p.0 ≤ 128) }
    requires movable { Movable t p.0 cursors.old }
    ensures { cursors.new ≡ value_past t p.0 c.0 cursors.old }
{
    match t {
        TokenType::String => move_to(cursors, p, Stream::String, c),
        TokenType::Char => move_to(cursors, p, Stream::Char, c),
        TokenType::Digits => move_to(cursors, p, Stream::Digits, c),
        TokenType::Digits0 => move_padded(cursors, p, c),
        TokenType::Delta => move_to(cursors, p, Stream::Ddelta, c),
        TokenType::Delta0 => move_to(cursors, p, Stream::Ddelta0, c),
        TokenType::Match => {}
        TokenType::End => {}
        TokenType::Other => {}
    }
}

// The cursors past a token: its type, and its value up to where the step came.
pub fn advance(cursors: &mut [u32], p: Position, t: TokenType, c: Cursor)
    requires cursors_len { (length cursors.old ≡ 1290) × (p.0 ≤ 128) }
    requires type_stream_bound { cursor_of cursors.old (span_of p.0 type_stream) + 1 < 2 ^ 32 }
    requires movable { Movable t p.0 cursors.old }
    ensures { cursors.new ≡ value_past t p.0 c.0 (past cursors.old (span_of p.0 type_stream) 1) }
{
    move_on(cursors, p, Stream::Type, 1);
    move_value(cursors, p, t, c);
}

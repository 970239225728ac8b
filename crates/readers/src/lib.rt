// The reader of one span: a small thing that holds the bytes left to it and gives the next byte, the next four or a text.
// Few functions take it, and each only takes it apart; callers with bytes and cursors use byte_in, four_in and text_in.
#![tactic(auto)]

ghost use Rattle.std.specs.Prelude.{◌≡◌, ◌≤◌, length};
ghost use Rattle.base.specs.Memory.{part};
ghost use Rattle.spans.specs.Spans.{byte_at, four_at, text_at};
ghost use Rattle.readers.specs.Readers.{left_end, byte_of, four_of, text_of};

use spans::{Bytes, Cursor};

#[derive(Clone, Copy)]
pub struct SpanReader<'a> {
    pub left: &'a [u8],
}

// A cursor counts in 32 bits, and a slice may be longer.
fn left_end(left: &[u8]) -> Cursor
    ensures { result.0 ≡ left_end left.now }
{
    if left.len() <= 4294967295 {
        return Cursor(left.len() as u32);
    }
    Cursor(4294967295)
}

// What a reader is asked, on its bytes. Its cursors count from the first of them.
fn byte_of(left: &[u8]) -> Option<(u8, Cursor)>
    ensures { result ≡ byte_of left.now }
{
    Cursor(0).next_byte(left, left_end(left))
}

fn four_of(left: &[u8]) -> Option<(u32, Cursor)>
    ensures { result ≡ four_of left.now }
{
    Cursor(0).next_four(left, left_end(left))
}

fn text_of(left: &[u8]) -> Option<Bytes>
    ensures { result ≡ text_of left.now }
{
    Cursor(0).next_text(left, left_end(left))
}

pub fn reader_of<'a>(left: &'a [u8]) -> SpanReader<'a>
    ensures { result.left ≡ left.entry }
{
    SpanReader { left }
}

pub fn next_byte<'a>(r: SpanReader<'a>) -> Option<(u8, Cursor)>
    ensures { result ≡ byte_of r.entry.left.now }
{
    byte_of(r.left)
}

pub fn next_four<'a>(r: SpanReader<'a>) -> Option<(u32, Cursor)>
    ensures { result ≡ four_of r.entry.left.now }
{
    four_of(r.left)
}

pub fn text_to_zero<'a>(r: SpanReader<'a>) -> Option<Bytes>
    ensures { result ≡ text_of r.entry.left.now }
{
    text_of(r.left)
}

// A reader is made and asked once.
fn first_byte(left: &[u8]) -> Option<(u8, Cursor)>
    ensures { result ≡ byte_of left.now }
{
    next_byte(reader_of(left))
}

fn first_four(left: &[u8]) -> Option<(u32, Cursor)>
    ensures { result ≡ four_of left.now }
{
    next_four(reader_of(left))
}

fn first_text(left: &[u8]) -> Option<Bytes>
    ensures { result ≡ text_of left.now }
{
    text_to_zero(reader_of(left))
}

// The bytes that a cursor leaves of a span.
fn left_of(bytes: &[u8], at: Cursor, end: Cursor) -> &[u8]
    requires { (at.0 ≤ end.0) × (end.0 ≤ length bytes.now) }
    ensures { result.now ≡ part bytes.now at.0 end.0 }
{
    let from = at.0 as usize;
    let to = end.0 as usize;
    &bytes[from..to]
}

pub fn byte_in(bytes: &[u8], at: Cursor, end: Cursor) -> Option<(u8, Cursor)>
    requires { (at.0 ≤ end.0) × (end.0 ≤ length bytes.now) }
    ensures { result ≡ byte_at bytes.now at.0 end.0 }
{
    let (b, next) = first_byte(left_of(bytes, at, end))?;
    Some((b, Cursor(at.0 + next.0)))
}

pub fn four_in(bytes: &[u8], at: Cursor, end: Cursor) -> Option<(u32, Cursor)>
    requires { (at.0 ≤ end.0) × (end.0 ≤ length bytes.now) }
    ensures { result ≡ four_at bytes.now at.0 end.0 }
{
    let (v, next) = first_four(left_of(bytes, at, end))?;
    Some((v, Cursor(at.0 + next.0)))
}

pub fn text_in(bytes: &[u8], at: Cursor, end: Cursor) -> Option<Bytes>
    requires { (at.0 ≤ end.0) × (end.0 ≤ length bytes.now) }
    ensures { result ≡ text_at bytes.now at.0 end.0 }
{
    let text = first_text(left_of(bytes, at, end))?;
    Some(Bytes {
        start: Cursor(at.0 + text.start.0),
        end: Cursor(at.0 + text.end.0),
        next: Cursor(at.0 + text.next.0),
    })
}

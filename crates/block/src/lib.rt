// The block: a lent run of bytes, a directory of spans with a cursor each, and a count of names.
// Its limits, where its spans and cursors are, the judgement of both, and opening.
#![tactic(auto)]

ghost use Rattle.std.specs.Prelude.{◌≡◌, ℕ, ◌≤◌, ◌<◌, ◌+◌, ◌*◌, ◌^◌, leb, length};
ghost use Rattle.block.specs.Block.{span_of, end_of, cursor_of, sound_from, sound, all_inside, verdict, verdict_of, all_at_end, starts, opening, open_of};
ghost use Rattle.block.specs.Streams.{stream_number};

use refusals::{Reason, Refusal};
use spans::{Cursor, Position};

#[derive(Clone, Copy)]
pub struct Block {
    pub count: u32,
}

// What kind of block it is: it decides the numbers of the types.
#[derive(Clone, Copy)]
pub enum Kind {
    Draft,
}

// How its tokens are read.
#[derive(Clone, Copy)]
pub enum Mode {
    Plain,
}

// Which block is read or written; calls hand it on, and only what differs by kind or mode takes it apart.
#[derive(Clone, Copy)]
pub struct Setting {
    pub kind: Kind,
    pub mode: Mode,
}

// The count of the block, k names kept, text bytes used and rows used.
#[derive(Clone, Copy)]
pub struct State {
    pub count: u32,
    pub names: u32,
    pub text: u32,
    pub rows: u32,
}

// The ten spans of a position, in the directory's order.
#[derive(Clone, Copy, PartialEq, Eq)]
pub enum Stream {
    Type,
    String,
    Char,
    Digits0,
    Dzlen,
    Dup,
    Diff,
    Digits,
    Ddelta,
    Ddelta0,
}

impl Stream {
    fn number(self) -> u32
        ensures { result ≡ stream_number self }
    {
        match self {
            Stream::Type => 0,
            Stream::String => 1,
            Stream::Char => 2,
            Stream::Digits0 => 3,
            Stream::Dzlen => 4,
            Stream::Dup => 5,
            Stream::Diff => 6,
            Stream::Digits => 7,
            Stream::Ddelta => 8,
            Stream::Ddelta0 => 9,
        }
    }
}

// Counts spans, position by position. Only `span_of` makes one, so that no other index is taken for it.
#[derive(Clone, Copy)]
pub struct Span(pub usize);

pub fn span_of(p: Position, stream: Stream) -> Span
    requires { p.0 ≤ 128 }
    ensures { result.0 ≡ span_of p.0 (stream_number stream) }
{
    Span((Block::STREAMS * p.0 + stream.number()) as usize)
}

pub fn end_of(dir: &[u32], span: Span) -> Cursor
    requires { (length dir.now ≡ 2580) × (span.0 < 1290) }
    ensures { result.0 ≡ end_of dir.now span.0 }
{
    let i = span.0;
    Cursor(dir[2 * i + 1])
}

pub fn cursor_of(cursors: &[u32], span: Span) -> Cursor
    requires { (length cursors.now ≡ 1290) × (span.0 < 1290) }
    ensures { result.0 ≡ cursor_of cursors.now span.0 }
{
    let i = span.0;
    Cursor(cursors[i])
}

// An end has 32 bits, and numbers of one width are judged faster.
fn reach(bytes: &[u8]) -> u32
    ensures { (end : ℕ) → end < 2 ^ 32 → leb end result ≡ leb end (length bytes.now) }
{
    let n = bytes.len();
    if n < 4294967295 { n as u32 } else { 4294967295 }
}

// No way out inside the loop, here and below, so that several spans are judged at a time.
fn spans_sound(n: u32, dir: &[u32]) -> bool
    requires { length dir.now ≡ 2580 }
    ensures { result ≡ sound_from n dir.now 0 1290 }
{
    let mut ok = true;
    for i in 0..Block::SPANS {
        let start = dir[2 * i];
        let end = dir[2 * i + 1];
        ok = ok & (start <= end) & (end <= n);
    }
    ok
}

// Refusal 1 is given where this is false.
fn sound(bytes: &[u8], dir: &[u32], cursors: &[u32]) -> bool
    ensures { result ≡ sound (length bytes.now) dir.now cursors.now }
{
    if dir.len() != Block::DIRECTORY {
        return false;
    }
    if cursors.len() != Block::SPANS {
        return false;
    }
    spans_sound(reach(bytes), dir)
}

// Both in one pass over each table: a cursor inside its span is told by two comparisons, which tell too that the span's
// start isn't above its end. Only where a span fails is it asked, in a second pass, which of 1 and 13 it is.
fn judge_spans(n: u32, dir: &[u32], cursors: &[u32]) -> Result<(), Reason>
    requires { (length dir.now ≡ 2580) × (length cursors.now ≡ 1290) }
    ensures { result ≡ verdict (sound_from n dir.now 0 1290) (all_inside dir.now cursors.now) }
{
    let mut fine = true;
    for i in 0..Block::SPANS {
        let start = dir[2 * i];
        let end = dir[2 * i + 1];
        let cursor = cursors[i];
        fine = fine & (start <= cursor) & (cursor <= end) & (end <= n);
    }
    if fine {
        return Ok(());
    }
    if spans_sound(n, dir) {
        Err(Reason::Outside)
    } else {
        Err(Reason::Unsound)
    }
}

// Refusals 1 and 13, in this order.
pub fn judge(bytes: &[u8], dir: &[u32], cursors: &[u32]) -> Result<(), Reason>
    ensures { result ≡ verdict_of (length bytes.now) dir.now cursors.now }
{
    if dir.len() != Block::DIRECTORY {
        return Err(Reason::Unsound);
    }
    if cursors.len() != Block::SPANS {
        return Err(Reason::Unsound);
    }
    judge_spans(reach(bytes), dir, cursors)
}

// With all names read, "done" where this is true and refusal 10 where not.
pub fn at_end(dir: &[u32], cursors: &[u32]) -> bool
    requires { (length dir.now ≡ 2580) × (length cursors.now ≡ 1290) }
    ensures { result ≡ all_at_end dir.now cursors.now }
{
    let mut ok = true;
    for i in 0..Block::SPANS {
        let end = dir[2 * i + 1];
        let cursor = cursors[i];
        ok = ok & (cursor == end);
    }
    ok
}

fn set_starts(dir: &[u32], cursors: &mut [u32])
    requires { (length dir.now ≡ 2580) × (length cursors.old ≡ 1290) }
    ensures { cursors.new ≡ starts dir.now }
{
    for i in 0..Block::SPANS {
        cursors[i] = dir[2 * i];
    }
}

// The limits belong to the block.
impl Block {
    pub const NAMES: u32 = 65536;
    // Tokens a name, counting END: positions 1 to 128.
    pub const TOKENS: u32 = 128;

    pub const BYTES: u32 = 254;
    // Digits to a number written.
    pub const DIGITS: u32 = 9;

    pub const STREAMS: u32 = 10;

    pub const SPANS: usize = 1290;

    pub const DIRECTORY: usize = 2580;

    pub fn open(self, bytes: &[u8], dir: &[u32], cursors: &mut [u32]) -> Result<State, Refusal>
        ensures { opening result cursors.new ≡ open_of (length bytes.now) dir.now self.count cursors.old }
    {
        let count = self.count;
        if !sound(bytes, dir, cursors) {
            return Err(Refusal::Plain(Reason::Unsound));
        }
        if Block::NAMES < count {
            return Err(Refusal::Plain(Reason::BadCount));
        }
        set_starts(dir, cursors);
        Ok(State {
            count,
            names: 0,
            text: 0,
            rows: 0,
        })
    }
}

// The resolved token: one of four things, two of them carrying a number; what it prints and the row that it keeps.
#![tactic(auto)]

ghost use Rattle.std.specs.Prelude.{◌≡◌, true, ◌≤◌, ◌<◌, ◌+◌, ◌-◌, [], ◌∷◌, length};
ghost use Rattle.base.specs.Choice.{pick};
ghost use Rattle.base.specs.Memory.{written, part};
ghost use Rattle.classes.specs.Classes.{all_allowed};
ghost use Rattle.tables.specs.Tables.{in_rows, row_room, put_rows, rows_lent, rows_left};
ghost use Rattle.tokens.specs.Tokens.{bytes_of, kind_of, number_of, width_of, length_of, row_of};
ghost use Rattle.tokens.specs.Inside.{Inside, KeptBelow};

use tables::Row;

// A number printed with zeros in front up to its width.
#[derive(Clone, Copy)]
pub struct Padded {
    pub number: u32,
    pub width: u32,
}

// Where the bytes of a STRING lie: in the block's bytes, or in the kept text where MATCH repeats an earlier one.
#[derive(Clone, Copy)]
pub struct Text {
    pub kept: bool,
    pub start: u32,
    pub end: u32,
}

#[derive(Clone, Copy)]
pub enum Token {
    String(Text),
    Char(u8),
    Digits(u32),
    Digits0(Padded),
}

pub fn kind(t: Token) -> u32
    ensures { result ≡ kind_of t }
{
    match t {
        Token::String(_) => 1,
        Token::Char(_) => 2,
        Token::Digits(_) => 7,
        Token::Digits0(_) => 4,
    }
}

pub fn number(t: Token) -> u32
    ensures { result ≡ number_of t }
{
    match t {
        Token::String(_) => 0,
        Token::Char(_) => 0,
        Token::Digits(n) => n,
        Token::Digits0(p) => p.number,
    }
}

pub fn width(t: Token) -> u32
    ensures { result ≡ width_of t }
{
    match t {
        Token::String(_) => 0,
        Token::Char(_) => 0,
        Token::Digits(_) => 0,
        Token::Digits0(p) => p.width,
    }
}

fn text_length(t: Text) -> u32
    ensures { result ≡ t.end - t.start }
{
    let start = t.start;
    let end = t.end;
    if start < end { end - start } else { 0 }
}

// How many bytes are printed.
pub fn length(t: Token) -> u32
    ensures { result ≡ length_of t }
{
    match t {
        Token::String(s) => text_length(s),
        Token::Char(_) => 1,
        Token::Digits(n) => digits::count(n) as u32,
        Token::Digits0(p) => p.width,
    }
}

fn text_allowed(t: Text, bytes: &[u8], text: &[u8]) -> bool
    requires { (t.start ≤ t.end) × (t.end ≤ length (pick t.kept text.now bytes.now)) }
    ensures { result ≡ all_allowed (part (pick t.kept text.now bytes.now) t.start t.end) }
{
    let from = t.start as usize;
    let to = t.end as usize;
    if t.kept {
        classes::all_allowed(&text[from..to])
    } else {
        classes::all_allowed(&bytes[from..to])
    }
}

// Every byte printed is one that SAM allows; a number has digits only.
pub fn allowed(t: Token, bytes: &[u8], text: &[u8]) -> bool
    requires { Inside bytes.now text.now t }
    ensures { result ≡ all_allowed (bytes_of bytes.now text.now t) }
{
    match t {
        Token::String(s) => text_allowed(s, bytes, text),
        Token::Char(b) => classes::is_allowed(b),
        Token::Digits(_) => true,
        Token::Digits0(_) => true,
    }
}

fn put_text(t: Text, bytes: &[u8], text: &mut [u8], at: usize)
    requires start_le_end { (t.start ≤ t.end) × (t.end ≤ length (pick t.kept text.old bytes.now)) }
    requires end_le_at { t.kept ≡ true → t.end ≤ at }
    requires start_in_bounds { at + (t.end - t.start) ≤ length text.old }
    ensures { text.new ≡ written text.old at (part (pick t.kept text.old bytes.now) t.start t.end) }
{
    let from = t.start as usize;
    let to = t.end as usize;
    if t.kept {
        base::copy_within(text, from, to, at);
    } else {
        base::put_all(text, at, &bytes[from..to]);
    }
}

// A token's printed bytes at a place of the text, and how many they are; a number is printed anew.
pub fn put(t: Token, bytes: &[u8], text: &mut [u8], at: usize) -> u32
    requires inside { Inside bytes.now text.old t }
    requires kept_below { KeptBelow at t }
    requires t_in_bounds { at + length_of t ≤ length text.old }
    ensures value { result ≡ length_of t }
    ensures text_value { text.new ≡ written text.old at (bytes_of bytes.now text.old t) }
{
    match t {
        Token::String(s) => {
            put_text(s, bytes, text, at);
            text_length(s)
        }
        Token::Char(b) => {
            base::put(text, at, b);
            1
        }
        Token::Digits(n) => digits::print(n, text, at) as u32,
        Token::Digits0(p) => {
            digits::print_padded(p.number, p.width, text, at);
            p.width
        }
    }
}

// A token's row, its text starting at a place. Who puts it has found the token's length before.
pub fn put_row(t: Token, len: u32, rows: &mut [u32], row: usize, at: u32)
    requires len_value { len ≡ length_of t }
    requires row_bound { row < row_room (in_rows rows.old) }
    ensures { rows_left rows.new ≡ put_rows (rows_lent rows.old) row (row_of t at ∷ []) }
{
    let r = Row {
        kind: kind(t),
        number: number(t),
        width: width(t),
        start: at,
        length: len,
    };
    tables::put_row(rows, row, r);
}

// The tokens that lean on the earlier name's row at their position.
#![tactic(auto)]

ghost use Rattle.std.specs.Prelude.{◌≡◌, List, ℕ, ◌≤◌, ◌<◌, ◌+◌, ◌-◌, ◌^◌, length};
ghost use Rattle.block.specs.Open.{Open};
ghost use Rattle.tables.specs.Tables.{row_at, in_rows, row_room, rows_lent};
ghost use Rattle.kept.specs.Inside.{RowInside};
ghost use Rattle.sources.specs.Source.{earlier, source};
ghost use Rattle.numbering.specs.Types.{Rules};
ghost use Rattle.repeats.specs.Repeats.{token_of, match_of, fitting, delta_at, delta0_at, match_at};
ghost use Rattle.repeats.specs.Sound.{Rows, reach};

use block::Stream;
use refusals::Reason;
use spans::{Cursor, Position};
use tables::Row;
use tokens::{Padded, Text, Token};
use values::Step;

// The value that a row keeps. Its text is looked at for STRING and CHAR only.
fn token_of(text: &[u8], r: Row) -> Token
    requires { RowInside (reach text.now) r }
    ensures { result ≡ token_of text.now r }
{
    let start = r.start;
    let kind = r.kind;
    match kind {
        1 => Token::String(Text {
            kept: true,
            start: start,
            end: start + r.length,
        }),
        2 => {
            let i = start as usize;
            Token::Char(text[i])
        }
        4 => Token::Digits0(Padded {
            number: r.number,
            width: r.width,
        }),
        _ => Token::Digits(r.number),
    }
}

// The earlier name's row at a position: rows are counted from 0, positions from 1.
fn row_here(rows: &[u32], first: u32, p: Position) -> Row
    requires { (1 ≤ p.0) × ((first + p.0 < 2 ^ 32) × (first + p.0 ≤ row_room (in_rows rows.now))) }
    ensures { result ≡ row_at (rows_lent rows.now) (first + (p.0 - 1)) }
{
    tables::row_at(rows, first + (p.0 - 1))
}

// The same, if the earlier name has a row of that kind there.
fn fitting(rows: &[u32], first: u32, count: u32, p: Position, kind: u32) -> Result<Row, Reason>
    requires count_bound { first + count ≤ row_room (in_rows rows.now) }
    requires count_bound_2 { (first + count < 2 ^ 32) × (1 ≤ p.0) }
    ensures { (text : List ℕ) → result ≡ fitting (earlier text (rows_lent rows.now) first count) p.0 kind }
{
    if count < p.0 {
        return Err(Reason::NoRow);
    }
    let r = row_here(rows, first, p);
    if r.kind == kind {
        Ok(r)
    } else {
        Err(Reason::NoRow)
    }
}

pub fn delta_at(
    bytes: &[u8],
    dir: &[u32],
    cursors: &[u32],
    rows: &[u32],
    first: u32,
    count: u32,
    p: Position,
) -> Step
    requires fact { Open bytes.now dir.now cursors.now }
    requires count_bound { first + count ≤ row_room (in_rows rows.now) }
    requires count_bound_2 { (first + count < 2 ^ 32) × ((1 ≤ p.0) × (p.0 ≤ 128)) }
    ensures { (rules : Rules) (text : List ℕ) → result ≡ delta_at (source rules bytes.now dir.now cursors.now) (earlier text (rows_lent rows.now) first count) p.0 }
{
    let r = fitting(rows, first, count, p, 7)?;
    let found = sources::byte_in(bytes, dir, cursors, p, Stream::Ddelta);
    sums::delta_step(r.number, found)
}

pub fn delta0_at(
    bytes: &[u8],
    dir: &[u32],
    cursors: &[u32],
    rows: &[u32],
    first: u32,
    count: u32,
    p: Position,
) -> Step
    requires fact { Open bytes.now dir.now cursors.now }
    requires count_bound { first + count ≤ row_room (in_rows rows.now) }
    requires count_bound_2 { (first + count < 2 ^ 32) × ((1 ≤ p.0) × (p.0 ≤ 128)) }
    ensures { (rules : Rules) (text : List ℕ) → result ≡ delta0_at (source rules bytes.now dir.now cursors.now) (earlier text (rows_lent rows.now) first count) p.0 }
{
    let r = fitting(rows, first, count, p, 4)?;
    let found = sources::byte_in(bytes, dir, cursors, p, Stream::Ddelta0);
    sums::delta0_step(r.number, r.width, found)
}

fn match_of(text: &[u8], r: Row, c: Cursor) -> Step
    requires { RowInside (reach text.now) r }
    ensures { result ≡ match_of text.now r c }
{
    Ok(Some((token_of(text, r), c)))
}

pub fn match_at(text: &[u8], rows: &[u32], first: u32, count: u32, p: Position, c: Cursor) -> Step
    requires rows { Rows (reach text.now) (earlier text.now (in_rows rows.now) first count) }
    requires count_bound { (first + count < 2 ^ 32) × ((1 ≤ p.0) × (p.0 ≤ 128)) }
    ensures { result ≡ match_at (earlier text.now (rows_lent rows.now) first count) p.0 c }
{
    let at = p.0;
    if count < at {
        return Err(Reason::NoRow);
    }
    let r = row_here(rows, first, p);
    match_of(text, r, c)
}

// The tokens whose values stand in the block's bytes.
#![tactic(auto)]

ghost use Rattle.std.specs.Prelude.{◌≡◌, ◌≤◌};
ghost use Rattle.block.specs.Open.{Open};
ghost use Rattle.sources.specs.Source.{source};
ghost use Rattle.numbering.specs.Types.{Rules};
ghost use Rattle.values.specs.Values.{string_step, char_step, digits_step, with_width, padded_of, padded_in, padded_step, digits0_step};

use block::Stream;
use refusals::Reason;
use spans::{Bytes, Cursor, Position};
use tokens::{Padded, Text, Token};

// What a step gives: a resolved token, beside the cursor past the bytes of its value (of its type, where MATCH has no value);
// nothing at END; or why it is refused. It reads and judges, and writes nothing.
pub type Step = Result<Option<(Token, Cursor)>, Reason>;

pub fn string_step(found: Option<Bytes>) -> Step
    ensures { result ≡ string_step found }
{
    let text = found.ok_or(Reason::Short)?;
    let token = Token::String(Text {
        kept: false,
        start: text.start.0,
        end: text.end.0,
    });
    Ok(Some((token, text.next)))
}

pub fn char_step(found: Option<(u8, Cursor)>) -> Step
    ensures { result ≡ char_step found }
{
    let (b, c) = found.ok_or(Reason::Short)?;
    Ok(Some((Token::Char(b), c)))
}

pub fn digits_step(found: Option<(u32, Cursor)>) -> Step
    ensures { result ≡ digits_step found }
{
    let (n, c) = found.ok_or(Reason::Short)?;
    Ok(Some((Token::Digits(n), c)))
}

// A number that must fit its width.
pub fn padded_step(number: u32, width: u32, c: Cursor) -> Step
    ensures { result ≡ padded_step number width c }
{
    if !digits::fits_width(number, width) {
        return Err(Reason::BadNumber);
    }
    Ok(Some((Token::Digits0(Padded { number, width }), c)))
}

fn with_width(number: u32, c: Cursor, width: Option<(u8, Cursor)>) -> Option<(Padded, Cursor)>
    ensures { result ≡ with_width number c width }
{
    let (w, _) = width?;
    let width = w as u32;
    Some((Padded { number, width }, c))
}

fn padded_of(number: Option<(u32, Cursor)>, width: Option<(u8, Cursor)>) -> Option<(Padded, Cursor)>
    ensures { result ≡ padded_of number width }
{
    let (number, c) = number?;
    with_width(number, c, width)
}

// Four bytes, and a width from DZLEN.
fn padded_in(bytes: &[u8], dir: &[u32], cursors: &[u32], p: Position) -> Option<(Padded, Cursor)>
    requires fact { Open bytes.now dir.now cursors.now }
    requires p_bound { p.0 ≤ 128 }
    ensures { (rules : Rules) → result ≡ padded_in (source rules bytes.now dir.now cursors.now) p.0 }
{
    let number = sources::four_in(bytes, dir, cursors, p, Stream::Digits0);
    let width = sources::byte_in(bytes, dir, cursors, p, Stream::Dzlen);
    padded_of(number, width)
}

fn digits0_step(found: Option<(Padded, Cursor)>) -> Step
    ensures { result ≡ digits0_step found }
{
    let (x, c) = found.ok_or(Reason::Short)?;
    padded_step(x.number, x.width, c)
}

pub fn digits0_at(bytes: &[u8], dir: &[u32], cursors: &[u32], p: Position) -> Step
    requires fact { Open bytes.now dir.now cursors.now }
    requires p_bound { p.0 ≤ 128 }
    ensures { (rules : Rules) → result ≡ digits0_step (padded_in (source rules bytes.now dir.now cursors.now) p.0) }
{
    digits0_step(padded_in(bytes, dir, cursors, p))
}

// One token: read at its position's spans and resolved against the earlier name's row there.
// A step reads and judges; it writes nothing.
#![tactic(auto)]

ghost use Rattle.std.specs.Prelude.{◌≡◌, ℕ, ◌≤◌, ◌<◌, ◌+◌, ◌^◌, Err};
ghost use Rattle.block.specs.Open.{Open};
ghost use Rattle.base.specs.Choice.{pick};
ghost use Rattle.spans.specs.declared.Cursor.{Cursor};
ghost use Rattle.refusals.specs.declared.Reason.TheVariants.{NotEnd};
ghost use Rattle.bars.specs.Bars.{carries};
ghost use Rattle.sources.specs.Source.{Source, Earlier, source, earlier, block_lent};
ghost use Rattle.numbering.specs.Types.{Rules};
ghost use Rattle.steps.specs.Steps.{value_step, typed_step};
ghost use Rattle.repeats.specs.Sound.{Rows, reach};
ghost use Rattle.tables.specs.Tables.{in_rows, rows_lent};

use block::{Setting, Stream};
use numbering::TokenType;
use refusals::Reason;
use spans::{Cursor, Position};
use values::Step;

// The token of a type that has been read, c being the cursor past it.
pub fn value_step(
    bytes: &[u8],
    dir: &[u32],
    cursors: &[u32],
    text: &[u8],
    rows: &[u32],
    first: u32,
    count: u32,
    p: Position,
    c: Cursor,
    t: TokenType,
) -> Step
    requires fact { Open bytes.now dir.now cursors.now }
    requires rows { Rows (reach text.now) (earlier text.now (in_rows rows.now) first count) }
    requires count_bound { (first + count < 2 ^ 32) × ((1 ≤ p.0) × (p.0 ≤ 128)) }
    ensures { (rules : Rules) → result ≡ value_step (source rules bytes.now dir.now cursors.now) (earlier text.now (rows_lent rows.now) first count) p.0 c t }
{
    match t {
        TokenType::String => values::string_step(sources::text_in(
            bytes,
            dir,
            cursors,
            p,
            Stream::String,
        )),
        TokenType::Char => values::char_step(sources::byte_in(
            bytes,
            dir,
            cursors,
            p,
            Stream::Char,
        )),
        TokenType::Digits => values::digits_step(sources::four_in(
            bytes,
            dir,
            cursors,
            p,
            Stream::Digits,
        )),
        TokenType::Digits0 => values::digits0_at(bytes, dir, cursors, p),
        TokenType::Delta => repeats::delta_at(bytes, dir, cursors, rows, first, count, p),
        TokenType::Delta0 => repeats::delta0_at(bytes, dir, cursors, rows, first, count, p),
        TokenType::Match => repeats::match_at(text, rows, first, count, p, c),
        TokenType::End => Ok(None),
        TokenType::Other => Err(Reason::UnknownType),
    }
}

// At the last position, which takes END alone; 3 is judged before 7.
#[tactic(auto, unfolding(base::specs::Choice::pick, bars::specs::Bars::carries, crate::specs::Steps::value_step))]
fn last_step(t: TokenType) -> Step
    ensures { (s : Source) (e : Earlier) (p : ℕ) (c : Cursor) → result ≡ pick (carries t) (Err NotEnd) (value_step s e p c t) }
{
    match t {
        TokenType::End => Ok(None),
        TokenType::Other => Err(Reason::UnknownType),
        _ => Err(Reason::NotEnd),
    }
}

// The token behind a type byte that has been looked for. The type is told where it is known whether this is the last
// position, so that it is dispatched on once.
pub fn typed_step(
    set: Setting,
    bytes: &[u8],
    dir: &[u32],
    cursors: &[u32],
    text: &[u8],
    rows: &[u32],
    first: u32,
    count: u32,
    p: Position,
    found: Option<(u8, Cursor)>,
) -> Step
    requires fact { Open bytes.now dir.now cursors.now }
    requires rows { Rows (reach text.now) (earlier text.now (in_rows rows.now) first count) }
    requires count_bound { (first + count < 2 ^ 32) × ((1 ≤ p.0) × (p.0 ≤ 128)) }
    ensures { result ≡ typed_step (block_lent set bytes.now dir.now cursors.now) (earlier text.now (rows_lent rows.now) first count) p.0 found }
{
    let (b, c) = found.ok_or(Reason::Short)?;
    let kind = set.kind;
    if bars::is_last(p) {
        last_step(numbering::type_of(kind, b))
    } else {
        let t = numbering::type_of(kind, b);
        value_step(bytes, dir, cursors, text, rows, first, count, p, c, t)
    }
}

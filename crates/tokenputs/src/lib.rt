// What a name's tokens put into the spans, each its type and its value, for whatever the pass does with it.
#![tactic(auto)]

ghost use Rattle.std.specs.Prelude.{◌≡◌, ◌≤◌, ◌<◌};
ghost use Rattle.classes.specs.Classes.{class_table};
ghost use Rattle.choices.specs.Choices.{ChoiceWithin, choices_of};
ghost use Rattle.numbering.specs.Types.{rules_of};
ghost use Rattle.laying.specs.Passes.{world, run_of, Roomy};
ghost use Rattle.tokenputs.specs.TokenPuts.{piece_type, choice_type, choice_puts, token_puts};

use block::{Setting, Stream};
use choices::Choice;
use laying::Pass;
use numbering::TokenType;
use pieces::Piece;
use spans::Position;

fn piece_type(t: Piece) -> TokenType
    ensures { result ≡ piece_type t }
{
    match t {
        Piece::String { start: _, end: _ } => TokenType::String,
        Piece::Char(_) => TokenType::Char,
        Piece::Digits(_) => TokenType::Digits,
        Piece::Digits0(_) => TokenType::Digits0,
    }
}

fn choice_type(c: Choice) -> TokenType
    ensures { result ≡ choice_type c }
{
    match c {
        Choice::Itself(t) => piece_type(t),
        Choice::Delta(_) => TokenType::Delta,
        Choice::Delta0(_) => TokenType::Delta0,
        Choice::Match => TokenType::Match,
        Choice::End => TokenType::End,
    }
}

// Its type, then its value.
fn put_choice(
    set: Setting,
    pass: Pass,
    total: u32,
    directory: &mut [u32],
    bytes: &mut [u8],
    name: &[u8],
    p: Position,
    c: Choice,
) -> u32
    requires p_bound { (p.0 ≤ 128) × ChoiceWithin name.now c }
    requires roomy { Roomy pass (choice_puts (rules_of set) name.now p.0 c) (world total directory.old bytes.old) }
    ensures { world result directory.new bytes.new ≡ run_of pass (choice_puts (rules_of set) name.now p.0 c) (world total directory.old bytes.old) }
{
    let kind = set.kind;
    let b = numbering::type_number(kind, choice_type(c));
    let span = block::span_of(p, Stream::Type);
    let next = laying::put_byte(pass, total, directory, bytes, span, b);
    valueputs::put_value(pass, next, directory, bytes, name, p, c)
}

// The tokens of a name and END; the earlier name is split again in step.
pub fn put_tokens(
    set: Setting,
    pass: Pass,
    total: u32,
    directory: &mut [u32],
    bytes: &mut [u8],
    table: &[u8; 256],
    before: &[u8],
    name: &[u8],
) -> u32
    requires table_value { table.now ≡ class_table }
    requires roomy { Roomy pass (token_puts (rules_of set) name.now 1 (choices_of before.now name.now)) (world total directory.old bytes.old) }
    ensures { world result directory.new bytes.new ≡ run_of pass (token_puts (rules_of set) name.now 1 (choices_of before.now name.now)) (world total directory.old bytes.old) }
{
    let mut sum = total;
    let mut p: u32 = 1;
    let mut a: usize = 0;
    let mut b: usize = 0;
    // Not a `for`: where the next tokens of the two names start is found from where these end.
    while a < name.len() {
        let here = Position(p);
        let e = splitting::cut_at(table, name, here, a);
        let f = splitting::cut_at(table, before, here, b);
        let c = choices::choice_at(table, before, name, here, a, e, b, f);
        sum = put_choice(set, pass, sum, directory, bytes, name, here, c);
        a = e.end;
        b = f.end;
        p += 1;
    }
    let kind = set.kind;
    let b = numbering::type_number(kind, TokenType::End);
    let span = block::span_of(Position(p), Stream::Type);
    laying::put_byte(pass, sum, directory, bytes, span, b)
}

// The types of tokens, as the stream says them: the numbers that a kind of block gives them, there and back.
#![tactic(auto)]

ghost use Rattle.std.specs.Prelude.{◌≡◌};
ghost use Rattle.numbering.specs.Types.{draft_numbers, numbers_of, type_of, type_number};

use block::Kind;

// What a type byte says. Document 01's table, and `Other` for a byte that is not in it.
#[derive(Clone, Copy)]
pub enum TokenType {
    String,
    Char,
    Digits,
    Digits0,
    Delta,
    Delta0,
    Match,
    End,
    Other,
}

// The types at position 0, which are no tokens.
pub fn dup_number(kind: Kind) -> u8
    ensures { result ≡ (numbers_of kind).dup }
{
    match kind {
        Kind::Draft => 5,
    }
}

pub fn diff_number(kind: Kind) -> u8
    ensures { result ≡ (numbers_of kind).diff }
{
    match kind {
        Kind::Draft => 6,
    }
}

fn draft_type(b: u8) -> TokenType
    ensures { result ≡ type_of draft_numbers b }
{
    match b {
        1 => TokenType::String,
        2 => TokenType::Char,
        4 => TokenType::Digits0,
        7 => TokenType::Digits,
        11 => TokenType::Delta,
        12 => TokenType::Delta0,
        13 => TokenType::Match,
        14 => TokenType::End,
        _ => TokenType::Other,
    }
}

pub fn type_of(kind: Kind, b: u8) -> TokenType
    ensures { result ≡ type_of (numbers_of kind) b }
{
    match kind {
        Kind::Draft => draft_type(b),
    }
}

// The byte that says a type.
fn draft_number(t: TokenType) -> u8
    ensures { result ≡ type_number draft_numbers t }
{
    match t {
        TokenType::String => 1,
        TokenType::Char => 2,
        TokenType::Digits => 7,
        TokenType::Digits0 => 4,
        TokenType::Delta => 11,
        TokenType::Delta0 => 12,
        TokenType::Match => 13,
        TokenType::End => 14,
        TokenType::Other => 0,
    }
}

pub fn type_number(kind: Kind, t: TokenType) -> u8
    ensures { result ≡ type_number (numbers_of kind) t }
{
    match kind {
        Kind::Draft => draft_number(t),
    }
}

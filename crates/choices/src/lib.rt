// The writer's choice for each token of a name: the token itself, a delta, MATCH or END.
#![tactic(auto)]

ghost use Rattle.std.specs.Prelude.{◌≡◌, ◌≤◌, ◌<◌, length};
ghost use Rattle.classes.specs.Classes.{class_table};
ghost use Rattle.splitting.specs.Split.{cut_of};
ghost use Rattle.pieces.specs.Pieces.{Within};
ghost use Rattle.choices.specs.Choices.{lean_string, lean_char, by_rise, lean_digits, by_rise0, lean_digits0, lean, choice_at};

use pieces::Piece;
use rises::Rise;
use spans::Position;
use splitting::Cut;
use tokens::Padded;

// What is written at a position.
#[derive(Clone, Copy)]
pub enum Choice {
    Itself(Piece),
    Delta(u8),
    Delta0(u8),
    Match,
    End,
}

fn lean_string(name: &[u8], a: usize, e: usize, before: &[u8], u: Piece) -> Choice
    requires a_le_e { (a ≤ e) × (e ≤ length name.now) }
    requires within { Within before.now u }
    ensures { result ≡ lean_string name.now a e before.now u }
{
    match u {
        Piece::String { start, end } => {
            if comparing::same(&name[a..e], &before[start..end]) {
                return Choice::Match;
            }
            Choice::Itself(Piece::String { start: a, end: e })
        }
        _ => Choice::Itself(Piece::String { start: a, end: e }),
    }
}

fn lean_char(a: u8, u: Piece) -> Choice
    ensures { result ≡ lean_char a u }
{
    match u {
        Piece::Char(b) => {
            if a == b {
                return Choice::Match;
            }
            Choice::Itself(Piece::Char(a))
        }
        _ => Choice::Itself(Piece::Char(a)),
    }
}

fn by_rise(n: u32, r: Rise) -> Choice
    ensures { result ≡ by_rise n r }
{
    match r {
        Rise::Same => Choice::Match,
        Rise::Up(d) => Choice::Delta(d),
        Rise::Other => Choice::Itself(Piece::Digits(n)),
    }
}

fn lean_digits(n: u32, u: Piece) -> Choice
    ensures { result ≡ lean_digits n u }
{
    match u {
        Piece::Digits(m) => by_rise(n, rises::rise_of(m, n)),
        _ => Choice::Itself(Piece::Digits(n)),
    }
}

fn by_rise0(x: Padded, r: Rise) -> Choice
    ensures { result ≡ by_rise0 x r }
{
    match r {
        Rise::Same => Choice::Match,
        Rise::Up(d) => Choice::Delta0(d),
        Rise::Other => Choice::Itself(Piece::Digits0(x)),
    }
}

// Only a DIGITS0 of equal width is leaned on.
fn lean_digits0(x: Padded, u: Piece) -> Choice
    ensures { result ≡ lean_digits0 x u }
{
    match u {
        Piece::Digits0(y) => {
            if x.width == y.width {
                return by_rise0(x, rises::rise_of(y.number, x.number));
            }
            Choice::Itself(Piece::Digits0(x))
        }
        _ => Choice::Itself(Piece::Digits0(x)),
    }
}

fn lean(name: &[u8], t: Piece, before: &[u8], u: Piece) -> Choice
    requires within { Within name.now t }
    requires within_2 { Within before.now u }
    ensures { result ≡ lean name.now t before.now u }
{
    match t {
        Piece::String { start, end } => lean_string(name, start, end, before, u),
        Piece::Char(a) => lean_char(a, u),
        Piece::Digits(n) => lean_digits(n, u),
        Piece::Digits0(x) => lean_digits0(x, u),
    }
}

// What is written for the token from a on, cut at e, the earlier name's row at this position being from b on, cut at f.
// The cuts come from whoever walks the names, who wants them too.
pub fn choice_at(
    table: &[u8; 256],
    before: &[u8],
    name: &[u8],
    p: Position,
    a: usize,
    e: Cut,
    b: usize,
    f: Cut,
) -> Choice
    requires table_value { table.now ≡ class_table }
    requires a_in_bounds { (a < length name.now) × ((e ≡ cut_of name.now p.0 a) × (f ≡ cut_of before.now p.0 b)) }
    ensures { result ≡ choice_at before.now name.now p.0 a b }
{
    let t = pieces::piece_at(table, name, p, a, e);
    if before.len() <= b {
        return Choice::Itself(t);
    }
    let u = pieces::piece_at(table, before, p, b, f);
    lean(name, t, before, u)
}

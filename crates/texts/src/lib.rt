// A token as it is listed: its type, and its text or number.
#![tactic(auto)]

ghost use Rattle.std.specs.Prelude.{◌≡◌, ◌≤◌, length};
ghost use Rattle.pieces.specs.Pieces.{Within};
ghost use Rattle.choices.specs.Choices.{ChoiceWithin};
ghost use Rattle.pages.specs.Page.{page, said, HasRoom};
ghost use Rattle.texts.specs.Texts.{string_text, char_text, padded_text, piece_text, choice_text};

use choices::Choice;
use pieces::Piece;
use tokens::Padded;

fn put_string(out: &mut [u8], at: usize, name: &[u8], from: usize, to: usize) -> usize
    requires from_le_to { (from ≤ to) × (to ≤ length name.now) }
    requires has_room { HasRoom (string_text name.now from to) (page out.old at) }
    ensures { page out.new result ≡ said (string_text name.now from to) (page out.old at) }
{
    let next = pages::put(out, at, b" STRING ");
    pages::put(out, next, &name[from..to])
}

fn put_char(out: &mut [u8], at: usize, b: u8) -> usize
    requires { HasRoom (char_text b) (page out.old at) }
    ensures { page out.new result ≡ said (char_text b) (page out.old at) }
{
    let next = pages::put(out, at, b" CHAR ");
    pages::put(out, next, &[b])
}

// The number without its zeros, and the width.
fn put_padded(out: &mut [u8], at: usize, x: Padded) -> usize
    requires { HasRoom (padded_text x) (page out.old at) }
    ensures { page out.new result ≡ said (padded_text x) (page out.old at) }
{
    let next = pages::put_labelled(out, at, b" DIGITS0 ", x.number);
    pages::put_labelled(out, next, b"/", x.width)
}

fn put_piece(out: &mut [u8], at: usize, name: &[u8], t: Piece) -> usize
    requires within { Within name.now t }
    requires has_room { HasRoom (piece_text name.now t) (page out.old at) }
    ensures { page out.new result ≡ said (piece_text name.now t) (page out.old at) }
{
    match t {
        Piece::String { start, end } => put_string(out, at, name, start, end),
        Piece::Char(b) => put_char(out, at, b),
        Piece::Digits(n) => pages::put_labelled(out, at, b" DIGITS ", n),
        Piece::Digits0(x) => put_padded(out, at, x),
    }
}

pub fn put_choice(out: &mut [u8], at: usize, name: &[u8], c: Choice) -> usize
    requires choice_within { ChoiceWithin name.now c }
    requires has_room { HasRoom (choice_text name.now c) (page out.old at) }
    ensures { page out.new result ≡ said (choice_text name.now c) (page out.old at) }
{
    match c {
        Choice::Itself(t) => put_piece(out, at, name, t),
        Choice::Delta(d) => pages::put_labelled(out, at, b" DDELTA ", d as u32),
        Choice::Delta0(d) => pages::put_labelled(out, at, b" DDELTA0 ", d as u32),
        Choice::Match => pages::put(out, at, b" MATCH"),
        Choice::End => pages::put(out, at, b" END"),
    }
}

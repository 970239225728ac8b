// What stands between a place of a name and its cut.
#![tactic(auto)]

ghost use Rattle.std.specs.Prelude.{◌≡◌, ◌≤◌, ◌<◌, ◌-◌, length};
ghost use Rattle.base.specs.Memory.{part};
ghost use Rattle.digits.specs.Digits.{value_of};
ghost use Rattle.classes.specs.Classes.{class_table};
ghost use Rattle.splitting.specs.Split.{cut_of};
ghost use Rattle.pieces.specs.Pieces.{text_piece, number_piece, piece_at};

use classes::Class;
use spans::Position;
use splitting::{Cut, LAST};
use tokens::Padded;

// A token of a name, split from the left.
#[derive(Clone, Copy)]
pub enum Piece {
    String { start: usize, end: usize },
    Char(u8),
    Digits(u32),
    Digits0(Padded),
}

fn text_piece(name: &[u8], at: usize, end: usize) -> Piece
    requires { (at < end) × (end ≤ length name.now) }
    ensures { result ≡ text_piece name.now at end }
{
    if end == at + 1 {
        return Piece::Char(name[at]);
    }
    Piece::String { start: at, end }
}

fn number_piece(name: &[u8], at: usize, end: usize, number: u32) -> Piece
    requires { (at < end) × ((end ≤ length name.now) × ((end - at ≤ 9) × (number ≡ value_of (part name.now at end)))) }
    ensures { result ≡ number_piece name.now at end }
{
    if name[at] == 48 {
        let width = (end - at) as u32;
        return Piece::Digits0(Padded { number, width });
    }
    Piece::Digits(number)
}

// The token that begins at a place, cut.
pub fn piece_at(table: &[u8; 256], name: &[u8], p: Position, at: usize, cut: Cut) -> Piece
    requires table_value { table.now ≡ class_table }
    requires at_in_bounds { (at < length name.now) × (cut ≡ cut_of name.now p.0 at) }
    ensures { result ≡ piece_at name.now p.0 at }
{
    if p.0 == LAST {
        return text_piece(name, at, cut.end);
    }
    if classes::class_in(table, name[at]) == Class::Digit {
        return number_piece(name, at, cut.end, cut.number);
    }
    text_piece(name, at, cut.end)
}

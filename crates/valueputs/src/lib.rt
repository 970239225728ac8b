// What the value of a token puts into the spans, for whatever the pass does with it.
#![tactic(auto)]

ghost use Rattle.std.specs.Prelude.{◌≡◌, ◌≤◌};
ghost use Rattle.pieces.specs.Pieces.{Within};
ghost use Rattle.choices.specs.Choices.{ChoiceWithin};
ghost use Rattle.laying.specs.Passes.{world, run_of, Roomy};
ghost use Rattle.valueputs.specs.ValuePuts.{piece_puts, value_puts};

use block::Stream;
use choices::Choice;
use laying::Pass;
use pieces::Piece;
use spans::Position;

fn put_piece(
    pass: Pass,
    total: u32,
    directory: &mut [u32],
    bytes: &mut [u8],
    name: &[u8],
    p: Position,
    t: Piece,
) -> u32
    requires p_bound { (p.0 ≤ 128) × Within name.now t }
    requires roomy { Roomy pass (piece_puts name.now p.0 t) (world total directory.old bytes.old) }
    ensures { world result directory.new bytes.new ≡ run_of pass (piece_puts name.now p.0 t) (world total directory.old bytes.old) }
{
    match t {
        Piece::String { start, end } => {
            let span = block::span_of(p, Stream::String);
            laying::put_text(pass, total, directory, bytes, span, &name[start..end])
        }
        Piece::Char(b) => {
            let span = block::span_of(p, Stream::Char);
            laying::put_byte(pass, total, directory, bytes, span, b)
        }
        Piece::Digits(n) => {
            let span = block::span_of(p, Stream::Digits);
            laying::put_four(pass, total, directory, bytes, span, n)
        }
        Piece::Digits0(x) => {
            let numbers = block::span_of(p, Stream::Digits0);
            let next = laying::put_four(pass, total, directory, bytes, numbers, x.number);
            let widths = block::span_of(p, Stream::Dzlen);
            laying::put_byte(pass, next, directory, bytes, widths, x.width as u8)
        }
    }
}

pub fn put_value(
    pass: Pass,
    total: u32,
    directory: &mut [u32],
    bytes: &mut [u8],
    name: &[u8],
    p: Position,
    c: Choice,
) -> u32
    requires p_bound { (p.0 ≤ 128) × ChoiceWithin name.now c }
    requires roomy { Roomy pass (value_puts name.now p.0 c) (world total directory.old bytes.old) }
    ensures { world result directory.new bytes.new ≡ run_of pass (value_puts name.now p.0 c) (world total directory.old bytes.old) }
{
    match c {
        Choice::Itself(t) => put_piece(pass, total, directory, bytes, name, p, t),
        Choice::Delta(d) => {
            let span = block::span_of(p, Stream::Ddelta);
            laying::put_byte(pass, total, directory, bytes, span, d)
        }
        Choice::Delta0(d) => {
            let span = block::span_of(p, Stream::Ddelta0);
            laying::put_byte(pass, total, directory, bytes, span, d)
        }
        Choice::Match => total,
        Choice::End => total,
    }
}

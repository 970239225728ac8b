// Bytes put into spans: sizes counted, spans laid one after another in directory order with no gaps, then filled.
// Nothing here knows names or tokens.
#![tactic(auto)]

ghost use Rattle.std.specs.Prelude.{◌≡◌, [], ◌∷◌, ◌++◌, ◌≤◌, ◌<◌, ◌+◌, ◌-◌, ◌^◌, length};
ghost use Rattle.base.specs.Memory.{part};
ghost use Rattle.spans.specs.Spans.{four_bytes};
ghost use Rattle.laying.specs.Puts.{put};
ghost use Rattle.laying.specs.Passes.{world, step_of, Room, cleared, offset_in, places_of};

use block::{Block, Span};

// What a pass over the puts does: it finds the total, counts each span's size, or fills.
#[derive(Clone, Copy)]
pub enum Pass {
    Total,
    Sizes,
    Fill,
}

// Some bytes at a span's end, which they move on.
fn put_bytes(
    pass: Pass,
    total: u32,
    directory: &mut [u32],
    bytes: &mut [u8],
    span: Span,
    xs: &[u8],
) -> u32
    requires { Room pass span.0 (length xs.now) (world total directory.old bytes.old) }
    ensures { world result directory.new bytes.new ≡ step_of pass (put span.0 xs.now) (world total directory.old bytes.old) }
{
    let i = 2 * span.0 + 1;
    let end = directory[i];
    let n = xs.len() as u32;
    match pass {
        Pass::Total => {}
        Pass::Sizes => directory[i] = end + n,
        Pass::Fill => {
            base::put_all(bytes, end as usize, xs);
            directory[i] = end + n;
        }
    }
    total + n
}

pub fn put_byte(
    pass: Pass,
    total: u32,
    directory: &mut [u32],
    bytes: &mut [u8],
    span: Span,
    b: u8,
) -> u32
    requires { Room pass span.0 1 (world total directory.old bytes.old) }
    ensures { world result directory.new bytes.new ≡ step_of pass (put span.0 (b ∷ [])) (world total directory.old bytes.old) }
{
    put_bytes(pass, total, directory, bytes, span, &[b])
}

// The low byte first.
#[tactic(auto, unfolding(spans::specs::Spans::four_bytes))]
pub fn put_four(
    pass: Pass,
    total: u32,
    directory: &mut [u32],
    bytes: &mut [u8],
    span: Span,
    v: u32,
) -> u32
    requires { Room pass span.0 4 (world total directory.old bytes.old) }
    ensures { world result directory.new bytes.new ≡ step_of pass (put span.0 (four_bytes v)) (world total directory.old bytes.old) }
{
    put_bytes(pass, total, directory, bytes, span, &v.to_le_bytes())
}

// A text and its zero byte.
pub fn put_text(
    pass: Pass,
    total: u32,
    directory: &mut [u32],
    bytes: &mut [u8],
    span: Span,
    text: &[u8],
) -> u32
    requires { Room pass span.0 (length text.now + 1) (world total directory.old bytes.old) }
    ensures { world result directory.new bytes.new ≡ step_of pass (put span.0 (text.now ++ 0 ∷ [])) (world total directory.old bytes.old) }
{
    let next = put_bytes(pass, total, directory, bytes, span, text);
    put_byte(pass, next, directory, bytes, span, 0)
}

// A directory of empty spans.
pub fn clear(directory: &mut [u32])
    requires { length directory.old ≡ 2580 }
    ensures { directory.new ≡ cleared }
{
    directory.fill(0);
}

// Sizes made places: each span's start, and its end where its first byte goes.
pub fn lay_out(directory: &mut [u32])
    requires { (length directory.old ≡ 2580) × (offset_in directory.old 1290 < 2 ^ 32) }
    ensures { directory.new ≡ places_of directory.old }
{
    let mut at: u32 = 0;
    for i in 0..Block::SPANS {
        let size = directory[2 * i + 1];
        directory[2 * i] = at;
        directory[2 * i + 1] = at;
        at += size;
    }
}

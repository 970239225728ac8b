// What a position's spans give next.
#![tactic(auto)]

ghost use Rattle.std.specs.Prelude.{◌≡◌, ◌≤◌};
ghost use Rattle.block.specs.Open.{Open};
ghost use Rattle.sources.specs.Source.{byte_in, four_in, text_in, source};
ghost use Rattle.numbering.specs.Types.{Rules};
ghost use Rattle.block.specs.Streams.{stream_number};

use block::Stream;
use spans::{Bytes, Cursor, Position};

pub fn byte_in(
    bytes: &[u8],
    dir: &[u32],
    cursors: &[u32],
    p: Position,
    stream: Stream,
) -> Option<(u8, Cursor)>
    requires fact { Open bytes.now dir.now cursors.now }
    requires p_bound { p.0 ≤ 128 }
    ensures { (rules : Rules) → result ≡ byte_in (source rules bytes.now dir.now cursors.now) p.0 (stream_number stream) }
{
    let span = block::span_of(p, stream);
    let c = block::cursor_of(cursors, span);
    let end = block::end_of(dir, span);
    readers::byte_in(bytes, c, end)
}

pub fn four_in(
    bytes: &[u8],
    dir: &[u32],
    cursors: &[u32],
    p: Position,
    stream: Stream,
) -> Option<(u32, Cursor)>
    requires fact { Open bytes.now dir.now cursors.now }
    requires p_bound { p.0 ≤ 128 }
    ensures { (rules : Rules) → result ≡ four_in (source rules bytes.now dir.now cursors.now) p.0 (stream_number stream) }
{
    let span = block::span_of(p, stream);
    let c = block::cursor_of(cursors, span);
    let end = block::end_of(dir, span);
    readers::four_in(bytes, c, end)
}

pub fn text_in(
    bytes: &[u8],
    dir: &[u32],
    cursors: &[u32],
    p: Position,
    stream: Stream,
) -> Option<Bytes>
    requires fact { Open bytes.now dir.now cursors.now }
    requires p_bound { p.0 ≤ 128 }
    ensures { (rules : Rules) → result ≡ text_in (source rules bytes.now dir.now cursors.now) p.0 (stream_number stream) }
{
    let span = block::span_of(p, stream);
    let c = block::cursor_of(cursors, span);
    let end = block::end_of(dir, span);
    readers::text_in(bytes, c, end)
}

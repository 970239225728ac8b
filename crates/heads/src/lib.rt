// Position 0: DUP or DIFF, and the distance.
#![tactic(auto)]

ghost use Rattle.std.specs.Prelude.{◌≡◌, ◌≤◌, length};
ghost use Rattle.block.specs.Open.{Open};
ghost use Rattle.numbering.specs.Types.{Rules};
ghost use Rattle.sources.specs.Source.{source, block_lent};
ghost use Rattle.heads.specs.Headed.{Passable};
ghost use Rattle.heads.specs.Heads.{distance_in, head_of, head_past};
ghost use Rattle.block.specs.Streams.{stream_number};

use block::{Setting, Stream};
use distances::Reference;
use refusals::Reason;
use spans::{Cursor, Position};

fn distance_in(bytes: &[u8], dir: &[u32], cursors: &[u32], stream: Stream) -> Option<(u32, Cursor)>
    requires fact { Open bytes.now dir.now cursors.now }
    ensures { (rules : Rules) → result ≡ distance_in (source rules bytes.now dir.now cursors.now) (stream_number stream) }
{
    sources::four_in(bytes, dir, cursors, Position(0), stream)
}

// Name n's.
pub fn head(
    set: Setting,
    bytes: &[u8],
    dir: &[u32],
    cursors: &[u32],
    n: u32,
) -> Result<Reference, Reason>
    requires { Open bytes.now dir.now cursors.now }
    ensures { result ≡ head_of (block_lent set bytes.now dir.now cursors.now) n }
{
    let found = sources::byte_in(bytes, dir, cursors, Position(0), Stream::Type);
    let (t, _) = found.ok_or(Reason::Short)?;
    let kind = set.kind;
    if t == numbering::dup_number(kind) {
        distances::dup_head(n, distance_in(bytes, dir, cursors, Stream::Dup))
    } else if t == numbering::diff_number(kind) {
        distances::diff_head(n, distance_in(bytes, dir, cursors, Stream::Diff))
    } else {
        Err(Reason::UnknownType)
    }
}

// The cursors past both.
pub fn move_head(cursors: &mut [u32], stream: Stream)
    requires cursors_len { (length cursors.old ≡ 1290) × (1 ≤ stream_number stream) }
    requires passable { Passable cursors.old (stream_number stream) }
    ensures { cursors.new ≡ head_past cursors.old (stream_number stream) }
{
    moving::move_on(cursors, Position(0), Stream::Type, 1);
    moving::move_on(cursors, Position(0), stream, 4);
}

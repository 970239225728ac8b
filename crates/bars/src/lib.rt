// The last position.
#![tactic(auto)]

ghost use Rattle.std.specs.Prelude.{◌≡◌};
ghost use Rattle.bars.specs.Bars.{is_last};

use block::Block;
use spans::Position;

// It has room for END alone.
pub fn is_last(p: Position) -> bool
    ensures { result ≡ is_last p.0 }
{
    p.0 == Block::TOKENS
}

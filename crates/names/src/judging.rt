// A token judged, over what is lent and not written.
ghost use Rattle.std.specs.Prelude.{◌≡◌, ◌≤◌};
ghost use Rattle.tokens.specs.Tokens.{bytes_of, length_of};
ghost use Rattle.tokens.specs.Inside.{Inside};
ghost use Rattle.names.specs.Names.{printable};

use block::Block;
use tokens::Token;

// Refusal 8 is given where this is false. The length is looked at first, being the cheaper: which of the two it is can't be seen.
pub fn prints(t: Token, length: u32, bytes: &[u8], text: &[u8], before: u32) -> bool
    requires length_len { (length ≡ length_of t) × (before ≤ 254) }
    requires inside { Inside bytes.now text.now t }
    ensures { result ≡ printable (bytes_of bytes.now text.now t) before }
{
    if Block::BYTES - before < length {
        return false;
    }
    tokens::allowed(t, bytes, text)
}

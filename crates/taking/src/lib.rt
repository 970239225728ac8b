// One token of a name taken where a turn stands: judged over what is lent and not written, or kept.
#![tactic(auto)]

ghost use Rattle.std.specs.Prelude.{◌≡◌, true, Ok, Some};
ghost use Rattle.numbering.specs.Types.{numbers_of};
ghost use Rattle.tokens.specs.Inside.{Inside};
ghost use Rattle.names.specs.Names.{type_in};
ghost use Rattle.names.specs.Keeps.{memory_lent, memory_left};
ghost use Rattle.taking.specs.Taking.{Placed, turn_of, KeepableAt, take_put};
ghost use Rattle.tables.specs.Tables.{in_rows};

use block::Setting;
use names::{judging, keeping};
use refusals::Reason;
use spans::{Cursor, Position};
use tokens::Token;

// What a turn of the walk makes of a name: so many bytes longer, nothing at its END, or why it is refused.
pub type Turn = Result<Option<u32>, Reason>;

// Where a turn stands: its position, the name's length so far, and where the name's text and rows begin.
#[derive(Clone, Copy)]
pub struct Place {
    pub p: Position,
    pub len: u32,
    pub used: u32,
    pub row: u32,
}

// One token, judged or kept. Its length is found once: where it is kept, by putting it down.
pub fn take(
    set: Setting,
    keeping: bool,
    t: Token,
    found: Option<(u8, Cursor)>,
    c: Cursor,
    bytes: &[u8],
    cursors: &mut [u32],
    text: &mut [u8],
    rows: &mut [u32],
    at: Place,
) -> Turn
    requires inside { Inside bytes.now text.old t }
    requires placed { Placed at }
    requires keepable_at { keeping ≡ true → KeepableAt at t (type_in (numbers_of set.kind) found) cursors.old text.old (in_rows rows.old) }
    ensures value { result ≡ turn_of keeping bytes.now text.old at.len (Ok (Some (t, c))) }
    ensures cursors_value { memory_left text.new rows.new cursors.new ≡ take_put keeping bytes.now t (type_in (numbers_of set.kind) found) c at (memory_lent text.old rows.old cursors.old) }
{
    if keeping {
        let ty = keeping::type_in(set, found);
        let p = at.p;
        let to = at.used + at.len;
        let row = at.row + (p.0 - 1);
        let w = keeping::keep_token(t, bytes, cursors, text, rows, p, ty, c, to, row);
        return Ok(Some(w));
    }
    let w = tokens::length(t);
    if judging::prints(t, w, bytes, text, at.len) {
        Ok(Some(w))
    } else {
        Err(Reason::BadName)
    }
}

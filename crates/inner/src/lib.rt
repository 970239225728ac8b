// The inner read: one name, where the block is known to be open and the counts to be judged;
// the earlier name too, where all that is kept is known to fit and to be spelt: from opening on that stays so.
#![tactic(auto)]

ghost use Rattle.std.specs.Prelude.{◌≡◌, length};
ghost use Rattle.block.specs.Open.{Open};
ghost use Rattle.block.specs.Block.{all_at_end};
ghost use Rattle.tables.specs.Tables.{keeping, tables_lent, in_rows};
ghost use Rattle.kept.specs.Inside.{Counted};
ghost use Rattle.sources.specs.Source.{block_lent};
ghost use Rattle.earlier.specs.Fits.{Known};
ghost use Rattle.outcomes.specs.Outcomes.{finishing, leaves};
ghost use Rattle.inner.specs.Next.{next_of};

use block::{Setting, State};
use distances::Reference;
use entries::Reading;
use refusals::Reason;

// With all names read.
fn finish(dir: &[u32], cursors: &[u32], state: State) -> Reading
    requires { (length dir.now ≡ 2580) × (length cursors.now ≡ 1290) }
    ensures { result ≡ finishing state (all_at_end dir.now cursors.now) }
{
    if block::at_end(dir, cursors) {
        Reading {
            answer: Ok(None),
            state,
        }
    } else {
        outcomes::refuse_plain(Reason::Unread, state)
    }
}

pub fn next(
    set: Setting,
    known: bool,
    bytes: &[u8],
    dir: &[u32],
    cursors: &mut [u32],
    text: &mut [u8],
    entries: &mut [u32],
    rows: &mut [u32],
    state: State,
) -> Reading
    requires fact { Open bytes.now dir.now cursors.old }
    requires counted { Counted (keeping state text.old entries.old (in_rows rows.old)) }
    requires known { Known known (keeping state text.old entries.old (in_rows rows.old)) }
    ensures { leaves result cursors.new text.new entries.new rows.new ≡ next_of (block_lent set bytes.now dir.now cursors.old) (tables_lent state text.old entries.old rows.old) }
{
    let k = state.names;
    if k == state.count {
        return finish(dir, cursors, state);
    }
    match heads::head(set, bytes, dir, cursors, k) {
        Ok(Reference::Dup(d)) => dupdiff::dup(known, cursors, text, entries, rows, state, d),
        Ok(Reference::Diff(d)) => dupdiff::diff(
            set, known, bytes, dir, cursors, text, entries, rows, state, d,
        ),
        Err(r) => outcomes::refuse(r, state),
    }
}

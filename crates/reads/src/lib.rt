// Reads one after another, each of them the inner read.
#![tactic(auto)]

ghost use Rattle.std.specs.Prelude.{◌≡◌};
ghost use Rattle.base.specs.Choice.{both};
ghost use Rattle.block.specs.Open.{Open};
ghost use Rattle.tables.specs.Tables.{keeping, tables_lent, in_rows};
ghost use Rattle.kept.specs.Inside.{Counted};
ghost use Rattle.sources.specs.Source.{block_lent};
ghost use Rattle.earlier.specs.Fits.{Known};
ghost use Rattle.outcomes.specs.Outcomes.{leaves};
ghost use Rattle.reads.specs.Reads.{is_kept, whole_or_one};

use block::{Setting, State};
use entries::{Answer, Reading};

fn goes_on(whole: bool, a: Answer) -> bool
    ensures { result ≡ both whole (is_kept a) }
{
    whole && matches!(a, Ok(Some(_)))
}

// Reads of a whole block, until "done" or a refusal, or one read; each of them the inner one: what it needs holds again after it.
// Both ways are one function, so that the inner read is called at one place.
pub fn reads(
    set: Setting,
    whole: bool,
    bytes: &[u8],
    dir: &[u32],
    cursors: &mut [u32],
    text: &mut [u8],
    entries: &mut [u32],
    rows: &mut [u32],
    state: State,
) -> Reading
    requires fact { Open bytes.now dir.now cursors.old }
    requires counted { Counted (keeping state text.old entries.old (in_rows rows.old)) }
    requires known { Known whole (keeping state text.old entries.old (in_rows rows.old)) }
    ensures { leaves result cursors.new text.new entries.new rows.new ≡ whole_or_one whole (block_lent set bytes.now dir.now cursors.old) (tables_lent state text.old entries.old rows.old) }
{
    let mut so_far = state;
    // Not a `for`: what ends it is an answer.
    loop {
        let r = inner::next(set, whole, bytes, dir, cursors, text, entries, rows, so_far);
        let answer = r.answer;
        if goes_on(whole, answer) {
            so_far = r.state;
        } else {
            return r;
        }
    }
}

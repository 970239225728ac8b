// Reading: one name judged and then kept, one name a call, and a whole block.
// What the public calls judge is what the inner read requires, so that a whole block judges it once.
#![tactic(auto)]

ghost use Rattle.std.specs.Prelude.{◌≡◌};
ghost use Rattle.tables.specs.Tables.{tables_lent};
ghost use Rattle.sources.specs.Source.{block_lent};
ghost use Rattle.outcomes.specs.Outcomes.{leaves};
ghost use Rattle.reads.specs.Reads.{read_of};
ghost use Rattle.reading.specs.Blocks.{block_of};

use block::{Block, Setting, State};
use entries::Reading;
use kept::judgement;
use refusals::Reason;

// One name a call.
pub fn read(
    set: Setting,
    bytes: &[u8],
    dir: &[u32],
    cursors: &mut [u32],
    text: &mut [u8],
    entries: &mut [u32],
    rows: &mut [u32],
    state: State,
) -> Reading
    ensures { leaves result cursors.new text.new entries.new rows.new ≡ read_of (block_lent set bytes.now dir.now cursors.old) (tables_lent state text.old entries.old rows.old) }
{
    match block::judge(bytes, dir, cursors) {
        Ok(()) => {
            if judgement::counts(state, text, entries, rows) {
                reads::reads(set, false, bytes, dir, cursors, text, entries, rows, state)
            } else {
                outcomes::refuse_plain(Reason::Outside, state)
            }
        }
        Err(r) => outcomes::refuse_plain(r, state),
    }
}

// A whole block: opening, then reads.
pub fn read_block(
    set: Setting,
    bytes: &[u8],
    dir: &[u32],
    count: u32,
    cursors: &mut [u32],
    text: &mut [u8],
    entries: &mut [u32],
    rows: &mut [u32],
    state: State,
) -> Reading
    ensures { leaves result cursors.new text.new entries.new rows.new ≡ block_of (block_lent set bytes.now dir.now cursors.old) (tables_lent state text.old entries.old rows.old) count }
{
    let b = Block { count };
    match b.open(bytes, dir, cursors) {
        Ok(start) => reads::reads(set, true, bytes, dir, cursors, text, entries, rows, start),
        Err(r) => Reading {
            answer: Err(r),
            state,
        },
    }
}

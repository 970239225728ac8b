// Where a name is split into tokens: runs, and the cut behind each token.
// Places count bytes of the name, from its start.
#![tactic(auto)]

ghost use Rattle.std.specs.Prelude.{◌≡◌, ◌≤◌, ◌<◌, ◌-◌, length, get_or};
ghost use Rattle.classes.specs.declared.Class.TheVariants.{Digit};
ghost use Rattle.classes.specs.Classes.{class_of, class_table};
ghost use Rattle.splitting.specs.Split.{run_end, number_run, run_limit, cut_of};

use block::Block;
use classes::Class;
use spans::Position;

// The last position of a token; END comes behind it.
pub const LAST: u32 = Block::TOKENS - 1;

// Where a token ends, and the number that it says if it is one.
#[derive(Clone, Copy)]
pub struct Cut {
    pub end: usize,
    pub number: u32,
}

// Where a run of a class ends.
fn run_end(table: &[u8; 256], name: &[u8], class: Class, at: usize) -> usize
    requires table_value { table.now ≡ class_table }
    requires at_in_bounds { at ≤ length name.now }
    ensures { result ≡ run_end name.now class at (length name.now - at) }
{
    for i in at..name.len() {
        if classes::class_in(table, name[i]) != class {
            return i;
        }
    }
    name.len()
}

// A run of digits, read while its end is looked for.
fn number_run(table: &[u8; 256], name: &[u8], at: usize, to: usize) -> Cut
    requires table_value { table.now ≡ class_table }
    requires at_le_to { (at ≤ to) × ((to ≤ length name.now) × (to - at ≤ 9)) }
    ensures { result ≡ number_run name.now at (to - at) }
{
    let mut n: u32 = 0;
    for i in at..to {
        let b = name[i];
        if classes::class_in(table, b) != Class::Digit {
            return Cut { end: i, number: n };
        }
        n = 10 * n + (b as u32 - 48);
    }
    Cut { end: to, number: n }
}

// A run of digits is cut after 9.
fn digits_limit(name: &[u8], at: usize) -> usize
    requires { (at < length name.now) × (class_of (get_or name.now at 0) ≡ Digit) }
    ensures { result ≡ run_limit name.now at }
{
    let digits = Block::DIGITS as usize;
    if digits < name.len() - at {
        return at + digits;
    }
    name.len()
}

// Where the token that begins at a place ends.
pub fn cut_at(table: &[u8; 256], name: &[u8], p: Position, at: usize) -> Cut
    requires { table.now ≡ class_table }
    ensures { result ≡ cut_of name.now p.0 at }
{
    if name.len() <= at {
        return Cut { end: at, number: 0 };
    }
    if p.0 == LAST {
        return Cut {
            end: name.len(),
            number: 0,
        };
    }
    match classes::class_in(table, name[at]) {
        Class::Digit => number_run(table, name, at, digits_limit(name, at)),
        Class::Letter => Cut {
            end: run_end(table, name, Class::Letter, at),
            number: 0,
        },
        Class::Other => Cut {
            end: at + 1,
            number: 0,
        },
    }
}

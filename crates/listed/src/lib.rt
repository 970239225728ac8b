// The listing of an input: a line a name, as the writer writes it, and the totals; or the writer's refusal.
#![tactic(auto)]

ghost use Rattle.std.specs.Prelude.{◌≡◌, ◌≤◌, length};
ghost use Rattle.base.specs.Memory.{written};
ghost use Rattle.classes.specs.Classes.{class_table};
ghost use Rattle.numbering.specs.Types.{draft_plain, rules_of};
ghost use Rattle.laying.specs.Puts.{total_of};
ghost use Rattle.inputs.specs.Inputs.{names_of};
ghost use Rattle.nameputs.specs.NamePuts.{puts_of};
ghost use Rattle.pages.specs.Page.{page, said, HasRoom};
ghost use Rattle.listed.specs.Listing.{listed_of, Good};

use block::{Block, Kind, Mode, Setting};
use laying::Pass;
use refusals::{Reason, Refusal};

// Most bytes of an input.
const MOST: usize = 4096;

// The bytes that the names put, by the writer's pass that finds the total and writes nothing.
fn total(table: &[u8; 256], input: &[u8]) -> u32
    requires table_value { table.now ≡ class_table }
    requires good { Good input.now }
    ensures { result ≡ total_of (puts_of (rules_of draft_plain) (names_of input.now)) }
{
    let set = Setting {
        kind: Kind::Draft,
        mode: Mode::Plain,
    };
    let mut directory = [0u32; Block::DIRECTORY];
    let mut bytes = [0u8; 1];
    nameputs::put_names(set, Pass::Total, &mut directory, &mut bytes, table, input)
}

fn put_listing(out: &mut [u8], table: &[u8; 256], input: &[u8]) -> usize
    requires table_value { table.now ≡ class_table }
    requires good { Good input.now }
    requires has_room { HasRoom (listed_of input.now) (page out.old 0) }
    requires input_len_bound { length input.now ≤ 4096 }
    ensures { page out.new result ≡ said (listed_of input.now) (page out.old 0) }
{
    let next = lines::put_lines(out, table, input);
    let names = inputs::count(input) as u32;
    let bytes = total(table, input);
    closing::put_totals(out, next, names, bytes)
}

fn put_listed(out: &mut [u8], input: &[u8]) -> usize
    requires { HasRoom (listed_of input.now) (page out.old 0) }
    ensures { page out.new result ≡ said (listed_of input.now) (page out.old 0) }
{
    if MOST < input.len() {
        return closing::put_refusal(out, 0, Refusal::Plain(Reason::NoRoom));
    }
    if !inputs::all_ended(input) {
        return closing::put_refusal(out, 0, Refusal::Plain(Reason::BadCount));
    }
    let table = classes::table();
    match inputs::judge(&table, input) {
        Some(n) => closing::put_refusal(out, 0, Refusal::At(Reason::BadName, n)),
        None => put_listing(out, &table, input),
    }
}

// What the program prints for an input; every listing has enough of this room.
pub fn list(input: &[u8], out: &mut [u8]) -> usize
    requires { 131072 ≤ length out.old }
    ensures { (result ≡ length (listed_of input.now)) × (out.new ≡ written out.old 0 (listed_of input.now)) }
{
    put_listed(out, input)
}

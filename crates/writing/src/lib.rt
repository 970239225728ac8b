// Writing: names, each ended by byte 10, into token streams.
// Judged first, with nothing written; then sizes, places and bytes, the directory counting on the way.
#![tactic(auto)]

ghost use Rattle.std.specs.Prelude.{◌≡◌, length};
ghost use Rattle.classes.specs.Classes.{class_table};
ghost use Rattle.numbering.specs.Types.{rules_of};
ghost use Rattle.inputs.specs.Inputs.{names_of};
ghost use Rattle.filling.specs.Ready.{Ready};
ghost use Rattle.writing.specs.Writes.{writing, laid_of, write_of};

use block::{Block, Setting};
use refusals::{Reason, Refusal};

#[derive(Clone, Copy)]
pub struct Written {
    pub names: u32,
    pub bytes: u32,
}

// Refusal 9, or all of it.
fn lay(
    set: Setting,
    directory: &mut [u32],
    bytes: &mut [u8],
    table: &[u8; 256],
    input: &[u8],
    names: u32,
) -> Result<Written, Refusal>
    requires table_value { table.now ≡ class_table }
    requires ready { Ready input.now directory.old }
    requires names_value { names ≡ length (names_of input.now) }
    ensures { writing result directory.new bytes.new ≡ laid_of (rules_of set) (names_of input.now) directory.old bytes.old }
{
    if !filling::fits(set, directory, bytes, table, input) {
        return Err(Refusal::Plain(Reason::NoRoom));
    }
    let total = filling::fill(set, directory, bytes, table, input);
    Ok(Written {
        names,
        bytes: total,
    })
}

pub fn write(
    set: Setting,
    input: &[u8],
    directory: &mut [u32],
    bytes: &mut [u8],
) -> Result<Written, Refusal>
    ensures { writing result directory.new bytes.new ≡ write_of (rules_of set) input.now directory.old bytes.old }
{
    if directory.len() != Block::DIRECTORY {
        return Err(Refusal::Plain(Reason::Unsound));
    }
    if !inputs::all_ended(input) {
        return Err(Refusal::Plain(Reason::BadCount));
    }
    let count = inputs::count(input);
    if (Block::NAMES as usize) < count {
        return Err(Refusal::Plain(Reason::BadCount));
    }
    let table = classes::table();
    match inputs::judge(&table, input) {
        Some(n) => Err(Refusal::At(Reason::BadName, n)),
        None => lay(set, directory, bytes, &table, input, count as u32),
    }
}

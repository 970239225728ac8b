// Room for all that the names put, and the directory and the bytes filled with it.
#![tactic(auto)]

ghost use Rattle.std.specs.Prelude.{◌≡◌, ◌≤◌, leb, length};
ghost use Rattle.classes.specs.Classes.{class_table};
ghost use Rattle.numbering.specs.Types.{rules_of};
ghost use Rattle.laying.specs.Puts.{total_of};
ghost use Rattle.inputs.specs.Inputs.{names_of};
ghost use Rattle.nameputs.specs.NamePuts.{puts_of};
ghost use Rattle.filling.specs.Ready.{Ready, Filled};

use block::Setting;
use laying::Pass;

// The most bytes that a byte of input is written as: a zero alone is a type, a number and a width.
const MOST: usize = 6;

// Whether there is room for the bytes. Where it suffices for any names, nobody counts them.
pub fn fits(
    set: Setting,
    directory: &mut [u32],
    bytes: &mut [u8],
    table: &[u8; 256],
    input: &[u8],
) -> bool
    requires table_value { table.now ≡ class_table }
    requires ready { Ready input.now directory.old }
    ensures { (result ≡ leb (total_of (puts_of (rules_of set) (names_of input.now))) (length bytes.old)) × ((directory.new ≡ directory.old) × (bytes.new ≡ bytes.old)) }
{
    if input.len() <= bytes.len() / MOST {
        return true;
    }
    let total = nameputs::put_names(set, Pass::Total, directory, bytes, table, input);
    total as usize <= bytes.len()
}

// Sizes, places, bytes, and how many.
pub fn fill(
    set: Setting,
    directory: &mut [u32],
    bytes: &mut [u8],
    table: &[u8; 256],
    input: &[u8],
) -> u32
    requires table_value { table.now ≡ class_table }
    requires ready { Ready input.now directory.old }
    requires input_in_bounds { total_of (puts_of (rules_of set) (names_of input.now)) ≤ length bytes.old }
    ensures { Filled (rules_of set) result directory.new bytes.new bytes.old input.now }
{
    laying::clear(directory);
    nameputs::put_names(set, Pass::Sizes, directory, bytes, table, input);
    laying::lay_out(directory);
    nameputs::put_names(set, Pass::Fill, directory, bytes, table, input)
}

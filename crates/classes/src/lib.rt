// Digit, letter or another, and allowed by SAM or not: a property of each of the 256 byte values, tabled.
// A caller makes the table once and lends it, since a constant is built anew wherever it is read.
// Reading asks only what SAM allows and holds no table: it compares.
#![tactic(auto)]

ghost use Rattle.std.specs.Prelude.{◌≡◌, ◌≤◌, length};
ghost use Rattle.base.specs.Memory.{part};
ghost use Rattle.classes.specs.Classes.{is_allowed, class_of, tabled_of, class_table, all_allowed};

mod entries;

use crate::entries::CLASSES;

// The three classes.
#[derive(Clone, Copy, PartialEq, Eq)]
pub enum Class {
    Other,
    Digit,
    Letter,
}

// What is tabled of a byte that SAM does not allow, of a digit and of a letter; of any other byte it is 1.
const BARRED: u8 = 0;

const DIGIT: u8 = 2;

const LETTER: u8 = 3;

// The table, to be lent.
pub fn table() -> [u8; 256]
    ensures { result ≡ class_table }
{
    CLASSES
}

// What is tabled of a byte.
pub fn tabled_in(table: &[u8; 256], b: u8) -> u8
    requires { table.now ≡ class_table }
    ensures { result ≡ tabled_of b }
{
    let i = b as usize;
    table[i]
}

// The same where only one byte is asked for.
pub fn tabled(b: u8) -> u8
    ensures { result ≡ tabled_of b }
{
    let t = table();
    tabled_in(&t, b)
}

// A byte's class by the table.
pub fn class_in(table: &[u8; 256], b: u8) -> Class
    requires { table.now ≡ class_table }
    ensures { result ≡ class_of b }
{
    match tabled_in(table, b) {
        DIGIT => Class::Digit,
        LETTER => Class::Letter,
        _ => Class::Other,
    }
}

// A byte is one that SAM allows, by the table.
pub fn allowed_in(table: &[u8; 256], b: u8) -> bool
    requires { table.now ≡ class_table }
    ensures { result ≡ is_allowed b }
{
    tabled_in(table, b) != BARRED
}

// SAM's rule by comparison. Not a pattern: its arms are jumps that follow the byte, and a test of two ranges has none.
#[tactic(auto, unfolding(crate::specs::Classes::is_allowed, base::specs::Choice::pick))]
pub fn is_allowed(b: u8) -> bool
    ensures { result ≡ is_allowed b }
{
    (33..=63).contains(&b) || (65..=126).contains(&b)
}

// Every byte is one that SAM allows, by comparison.
pub fn all_allowed(bytes: &[u8]) -> bool
    ensures { result ≡ all_allowed bytes.now }
{
    for b in bytes {
        if !is_allowed(*b) {
            return false;
        }
    }
    true
}

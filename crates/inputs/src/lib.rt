// The names of an input, found by their byte 10, counted and judged.
#![tactic(auto)]

ghost use Rattle.std.specs.Prelude.{◌≡◌, true, ◌≤◌, ◌<◌, ◌+◌, ◌-◌, [], length, drop};
ghost use Rattle.classes.specs.Classes.{class_table};
ghost use Rattle.inputs.specs.Inputs.{NameAt, AllowedTo, names_after, names_of, ended, judged_from};

use block::Block;

// A part of an input whose names are counted in a byte. The compiled loop takes 32 bytes at once: of their multiples this
// is the greatest that a byte can count up to.
const PART: usize = 224;

// Where the name that starts at a place ends.
pub fn name_end(input: &[u8], at: usize) -> usize
    requires { (at < length input.now) × (ended input.now ≡ true) }
    ensures { NameAt input.now at result }
{
    // Not a `for` over the rest: byte 10 ends the loop, so no byte costs a test of the length.
    let mut i = at;
    while input[i] != 10 {
        i += 1;
    }
    i
}

pub fn all_ended(input: &[u8]) -> bool
    ensures { result ≡ ended input.now }
{
    let n = input.len();
    if n == 0 {
        return true;
    }
    input[n - 1] == 10
}

// How many names end in a part of the input, counted in a byte: such a loop over bytes takes many of them at once.
fn ends_in(input: &[u8], from: usize, to: usize) -> u8
    requires { (from ≤ to) × ((to ≤ length input.now) × (to - from ≤ 255)) }
    ensures { (result ≤ to - from) × (result + length (names_after [] (drop to input.now)) ≡ length (names_after [] (drop from input.now))) }
{
    let mut n: u8 = 0;
    for b in &input[from..to] {
        if *b == 10 {
            n += 1;
        }
    }
    n
}

// How many names there are, part by part.
pub fn count(input: &[u8]) -> usize
    ensures { result ≡ length (names_of input.now) }
{
    // Not a `for` over chunks: what is counted is told by the place in the whole input, which a chunk doesn't have.
    let mut n: usize = 0;
    let mut i: usize = 0;
    while PART < input.len() - i {
        n += ends_in(input, i, i + PART) as usize;
        i += PART;
    }
    n + ends_in(input, i, input.len()) as usize
}

// Where the bytes that SAM allows end, from a place on. Byte 10 isn't one of them, so there is such a place.
fn allowed_end(table: &[u8; 256], input: &[u8], at: usize) -> usize
    requires table_value { table.now ≡ class_table }
    requires at_in_bounds { (at < length input.now) × (ended input.now ≡ true) }
    ensures { AllowedTo input.now at result }
{
    // Not a `for` either, for the same reason.
    let mut i = at;
    while classes::allowed_in(table, input[i]) {
        i += 1;
    }
    i
}

// The first name that SAM does not allow, if there is one: refusal 8 is given for it. Each byte is looked at once: the first that isn't allowed ends a good name.
pub fn judge(table: &[u8; 256], input: &[u8]) -> Option<u32>
    requires table_value { table.now ≡ class_table }
    requires input_value { (ended input.now ≡ true) × (length (names_of input.now) ≤ 65536) }
    ensures { result ≡ judged_from 0 (names_of input.now) }
{
    // Not a `for`: where the next name starts is found from where this one ends.
    let mut n: u32 = 0;
    let mut start: usize = 0;
    while start < input.len() {
        let end = allowed_end(table, input, start);
        if input[end] != 10 {
            return Some(n);
        }
        let size = end - start;
        if size < 1 {
            return Some(n);
        }
        if (Block::BYTES as usize) < size {
            return Some(n);
        }
        n += 1;
        start = end + 1;
    }
    None
}

// What every layer stands on: choosing by a test, parts of lent memory and writes to it.
// Nothing here knows the format.
#![tactic(auto)]

ghost use Rattle.std.specs.Prelude.{◌≡◌, [], ◌∷◌, ◌≤◌, ◌+◌, ◌-◌, length};
ghost use Rattle.base.specs.Memory.{written, part};

// One element at a place.
pub fn put<T: Copy>(buf: &mut [T], at: usize, x: T)
    requires { at + 1 ≤ length buf.old }
    ensures { buf.new ≡ written buf.old at (x ∷ []) }
{
    buf[at] = x;
}

// Five numbers at a place.
pub fn put_five(table: &mut [u32], at: usize, numbers: [u32; 5])
    requires { at + 5 ≤ length table.old }
    ensures { table.new ≡ written table.old at numbers }
{
    for i in 0..5 {
        table[at + i] = numbers[i];
    }
}

// A text at a place of a buffer. Not std's `copy_from_slice`: it calls the C library.
pub fn put_all(buf: &mut [u8], at: usize, text: &[u8])
    requires { at + length text.now ≤ length buf.old }
    ensures { buf.new ≡ written buf.old at text.now }
{
    for j in 0..text.len() {
        buf[at + j] = text[j];
    }
}

// A part of a buffer at a later place of the same buffer. Not `copy_within` of std, which first has to see which way the
// part moves and takes longer for short ones.
pub fn copy_within(buf: &mut [u8], from: usize, to: usize, at: usize)
    requires { (from ≤ to) × ((to ≤ at) × (at + (to - from) ≤ length buf.old)) }
    ensures { buf.new ≡ written buf.old at (part buf.old from to) }
{
    for j in 0..to - from {
        buf[at + j] = buf[from + j];
    }
}

// The leaves, exported for tests: printing, widths, classes, what stands at a cursor, the judgement of the tables; and the listing.
// Not for users: the library's own boundary is another crate.
#![tactic(auto)]

ghost use Rattle.std.specs.Prelude.{◌≡◌, true, ◌+◌, leb, length};
ghost use Rattle.base.specs.Choice.{pick, both};
ghost use Rattle.digits.specs.Digits.{printed, padded, fits_width};
ghost use Rattle.classes.specs.Classes.{tabled_of};
ghost use Rattle.spans.specs.Spans.{byte_at, four_at, text_at};
ghost use Rattle.block.specs.Block.{sound, all_inside};
ghost use Rattle.listed.specs.Listing.{listed_of};
ghost use Rattle.leaves.specs.Leaves.{nothing, leaves, placed, byte_number, four_left, text_number};

use spans::Cursor;

const NOTHING: u64 = 18446744073709551615;

fn has_room(len: usize, at: usize, n: usize) -> bool
    ensures { result ≡ leb (at + n) len }
{
    at <= len && n <= len - at
}

#[unsafe(no_mangle)]
pub extern "C" fn leaf_print(n: u32, buf: &mut [u8], at: usize) -> u64
    ensures { leaves result buf.new ≡ placed true (printed n) at buf.old }
{
    let w = digits::count(n);
    if has_room(buf.len(), at, w) {
        digits::print(n, buf, at) as u64
    } else {
        NOTHING
    }
}

#[unsafe(no_mangle)]
pub extern "C" fn leaf_print_padded(n: u32, width: u32, buf: &mut [u8], at: usize) -> u64
    ensures { leaves result buf.new ≡ placed (both (leb width 254) (fits_width n width)) (padded n width) at buf.old }
{
    if 254 < width {
        return NOTHING;
    }
    if !digits::fits_width(n, width) {
        return NOTHING;
    }
    if !has_room(buf.len(), at, width as usize) {
        return NOTHING;
    }
    digits::print_padded(n, width, buf, at);
    width as u64
}

#[unsafe(no_mangle)]
pub extern "C" fn leaf_fits(n: u32, width: u32) -> u32
    ensures { result ≡ pick (fits_width n width) 1 0 }
{
    digits::fits_width(n, width) as u32
}

#[unsafe(no_mangle)]
pub extern "C" fn leaf_class(b: u8) -> u32
    ensures { result ≡ tabled_of b }
{
    classes::tabled(b) as u32
}

#[unsafe(no_mangle)]
pub extern "C" fn leaf_byte(bytes: &[u8], at: u32, end: u32) -> u64
    ensures { result ≡ pick (leb end (length bytes.now)) (byte_number (byte_at bytes.now at end)) nothing }
{
    if bytes.len() < end as usize {
        return NOTHING;
    }
    match Cursor(at).next_byte(bytes, Cursor(end)) {
        Some((b, c)) => (b as u64) + 4294967296 * (c.0 as u64),
        None => NOTHING,
    }
}

#[unsafe(no_mangle)]
pub extern "C" fn leaf_four(bytes: &[u8], at: u32, end: u32, next: &mut [u32; 1]) -> u64
    ensures { leaves result next.new ≡ pick (leb end (length bytes.now)) (four_left next.old (four_at bytes.now at end)) (leaves nothing next.old) }
{
    if bytes.len() < end as usize {
        return NOTHING;
    }
    match Cursor(at).next_four(bytes, Cursor(end)) {
        Some((n, c)) => {
            next[0] = c.0;
            n as u64
        }
        None => NOTHING,
    }
}

#[unsafe(no_mangle)]
pub extern "C" fn leaf_text(bytes: &[u8], at: u32, end: u32) -> u64
    ensures { result ≡ pick (leb end (length bytes.now)) (text_number (text_at bytes.now at end)) nothing }
{
    if bytes.len() < end as usize {
        return NOTHING;
    }
    match Cursor(at).next_text(bytes, Cursor(end)) {
        Some(text) => text.end.0 as u64,
        None => NOTHING,
    }
}

#[unsafe(no_mangle)]
pub extern "C" fn leaf_judge(bytes: &[u8], directory: &[u32], cursors: &[u32]) -> u32
    ensures { result ≡ pick (sound (length bytes.now) directory.now cursors.now) (pick (all_inside directory.now cursors.now) 0 13) 1 }
{
    match block::judge(bytes, directory, cursors) {
        Ok(()) => 0,
        Err(r) => r.number(),
    }
}

// The listing of an input, which users have as a program; nothing where the buffer may not have room for it.
#[unsafe(no_mangle)]
pub extern "C" fn leaf_list(input: &[u8], out: &mut [u8]) -> u64
    ensures { leaves result out.new ≡ placed (leb 131072 (length out.old)) (listed_of input.now) 0 out.old }
{
    if out.len() < 131072 {
        return NOTHING;
    }
    listed::list(input, out) as u64
}

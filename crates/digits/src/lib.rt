// Numbers in base ten: how many digits, printed plainly or at a width, and read back.
// How a number is printed is known here only; callers go by the laws of proofs/Laws.
#![tactic(auto)]

ghost use Rattle.std.specs.Prelude.{◌≡◌, true, ◌+◌, ◌*◌, ◌/◌, ◌%◌, ◌^◌, ◌≤◌, ◌<◌, length};
ghost use Rattle.base.specs.Memory.{written};
ghost use Rattle.digits.specs.Digits.{padded, digit_count, printed, fits_width};
ghost use Rattle.digits.specs.Fractions.{whole, leading, Begins};

// Numbers are printed from fractions, so that no digit takes a division; so many parts are a whole.
const WHOLE: u64 = 1152921504606846976;

// How many digits a number has. Comparisons, since a division for each digit is slower.
// Not a match on ranges, which takes a few instructions more for small numbers as it is compiled.
pub fn count(n: u32) -> usize
    ensures { result ≡ digit_count n }
{
    if n < 10 {
        1
    } else if n < 100 {
        2
    } else if n < 1000 {
        3
    } else if n < 10000 {
        4
    } else if n < 100000 {
        5
    } else if n < 1000000 {
        6
    } else if n < 10000000 {
        7
    } else if n < 100000000 {
        8
    } else if n < 1000000000 {
        9
    } else {
        10
    }
}

// A number modulo another; mostly it is below it already.
fn below(n: u32, t: u32) -> u32
    requires { 0 < t }
    ensures { result ≡ n % t }
{
    if n < t { n } else { n % t }
}

// The fraction whose first w digits are a number's lowest. A factor is a whole by ten to the w, rounded up. At ten digits,
// which are all that a number has, that would be too coarse: there it is 32 wholes by ten to the tenth, and one part more
// makes up for what the division by 32 takes off.
fn fraction(n: u32, w: usize) -> u64
    requires { w ≤ 10 }
    ensures { (result < whole) × (leading result w ≡ n % 10 ^ w) }
{
    match w {
        0 => 0,
        1 => (below(n, 10) as u64) * 115292150460684698,
        2 => (below(n, 100) as u64) * 11529215046068470,
        3 => (below(n, 1000) as u64) * 1152921504606847,
        4 => (below(n, 10000) as u64) * 115292150460685,
        5 => (below(n, 100000) as u64) * 11529215046069,
        6 => (below(n, 1000000) as u64) * 1152921504607,
        7 => (below(n, 10000000) as u64) * 115292150461,
        8 => (below(n, 100000000) as u64) * 11529215047,
        9 => (below(n, 1000000000) as u64) * 1152921505,
        _ => (n as u64) * 3689348815 / 32 + 1,
    }
}

// A digit as a byte, and what is left of the fraction that it led.
#[derive(Clone, Copy)]
struct Digit {
    byte: u8,
    rest: u64,
}

// The leading digit of a fraction is what is whole of ten times it.
fn lead(f: u64) -> Digit
    requires { f < whole }
    ensures { (result.byte ≡ 48 + f * 10 / whole) × (result.rest ≡ f * 10 % whole) }
{
    let tens = f * 10;
    let byte = (48 + tens / WHOLE) as u8;
    let rest = tens % WHOLE;
    Digit { byte, rest }
}

// The first w digits of a fraction at a place, the leading one first.
// Not a `for`: over the places or the bytes there, a few instructions more are spent on each number. Nor is it one with the
// loop of `put_wide`, which looks at each digit whether the number begins there.
fn put_digits(f: u64, w: usize, buf: &mut [u8], at: usize)
    requires { (f < whole) × (at + w ≤ length buf.old) }
    ensures { buf.new ≡ written buf.old at (padded (leading f w) w) }
{
    let mut rest = f;
    let mut left = w;
    let mut place = at;
    while 0 < left {
        let d = lead(rest);
        buf[place] = d.byte;
        rest = d.rest;
        place += 1;
        left -= 1;
    }
}

// A number with no leading zeros at a place, and how many bytes that is.
pub fn print(n: u32, buf: &mut [u8], at: usize) -> usize
    requires { at + length (printed n) ≤ length buf.old }
    ensures { (result ≡ length (printed n)) × (buf.new ≡ written buf.old at (printed n)) }
{
    let w = count(n);
    let f = fraction(n, w);
    put_digits(f, w, buf, at);
    w
}

// The fraction as it stands where w digits are left: 0 for zeros, until the number begins at its tenth last digit.
fn begun(n: u32, w: usize, rest: u64) -> u64
    requires { (w ≡ 10 → ⊥) → Begins n w rest }
    ensures { Begins n w result }
{
    if w == 10 { fraction(n, w) } else { rest }
}

// A number with more than ten digits, of which the first are zeros. They aren't put by a loop of their own, since the
// compiler calls the C library for that.
fn put_wide(n: u32, w: usize, buf: &mut [u8], at: usize)
    requires { (10 < w) × (at + w ≤ length buf.old) }
    ensures { buf.new ≡ written buf.old at (padded n w) }
{
    let end = at + w;
    let mut rest = 0;
    for place in at..end {
        let f = begun(n, end - place, rest);
        let d = lead(f);
        buf[place] = d.byte;
        rest = d.rest;
    }
}

// A number padded with zeros to a width, at a place.
pub fn print_padded(n: u32, width: u32, buf: &mut [u8], at: usize)
    requires { at + width ≤ length buf.old }
    ensures { buf.new ≡ written buf.old at (padded n width) }
{
    let w = width as usize;
    if 10 < w {
        put_wide(n, w, buf, at);
    } else {
        let f = fraction(n, w);
        put_digits(f, w, buf, at);
    }
}

// Width at least 1 and number below ten to the width: told by the digits, since ten to the width may be past any number.
pub fn fits_width(n: u32, w: u32) -> bool
    ensures { result ≡ fits_width n w }
{
    1 <= w && count(n) <= w as usize
}

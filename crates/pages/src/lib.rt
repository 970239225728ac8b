// A text put behind what is written: bytes, a part of a name, a number, a word with its number.
// Each function puts a text behind what is written and answers the place behind it.
#![tactic(auto)]

ghost use Rattle.std.specs.Prelude.{◌≡◌, ◌++◌, ◌≤◌, length};
ghost use Rattle.base.specs.Memory.{part};
ghost use Rattle.digits.specs.Digits.{printed};
ghost use Rattle.pages.specs.Page.{page, said, HasRoom};

pub fn put(out: &mut [u8], at: usize, text: &[u8]) -> usize
    requires { HasRoom text.now (page out.old at) }
    ensures { page out.new result ≡ said text.now (page out.old at) }
{
    base::put_all(out, at, text);
    at + text.len()
}

pub fn put_number(out: &mut [u8], at: usize, n: u32) -> usize
    requires { HasRoom (printed n) (page out.old at) }
    ensures { page out.new result ≡ said (printed n) (page out.old at) }
{
    let w = digits::print(n, out, at);
    at + w
}

pub fn put_labelled(out: &mut [u8], at: usize, word: &[u8], n: u32) -> usize
    requires { HasRoom (word.now ++ printed n) (page out.old at) }
    ensures { page out.new result ≡ said (word.now ++ printed n) (page out.old at) }
{
    let next = put(out, at, word);
    put_number(out, next, n)
}

// The line that closes a listing: the totals, of names and of bytes; or the refusal, which stands alone.
#![tactic(auto)]

ghost use Rattle.std.specs.Prelude.{◌≡◌};
ghost use Rattle.pages.specs.Page.{page, said, HasRoom};
ghost use Rattle.closing.specs.Closing.{refusal_text, totals_text};

use refusals::Refusal;

pub fn put_refusal(out: &mut [u8], at: usize, r: Refusal) -> usize
    requires { HasRoom (refusal_text r) (page out.old at) }
    ensures { page out.new result ≡ said (refusal_text r) (page out.old at) }
{
    match r {
        Refusal::Plain(reason) => {
            let next = pages::put_labelled(out, at, b"refused ", reason.number());
            pages::put(out, next, b"\n")
        }
        Refusal::At(reason, name) => {
            let next = pages::put_labelled(out, at, b"refused ", reason.number());
            let last = pages::put_labelled(out, next, b" at ", name);
            pages::put(out, last, b"\n")
        }
    }
}

pub fn put_totals(out: &mut [u8], at: usize, names: u32, bytes: u32) -> usize
    requires { HasRoom (totals_text names bytes) (page out.old at) }
    ensures { page out.new result ≡ said (totals_text names bytes) (page out.old at) }
{
    let next = pages::put_number(out, at, names);
    let last = pages::put_labelled(out, next, b" names ", bytes);
    pages::put(out, last, b" bytes\n")
}

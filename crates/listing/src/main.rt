// The listing program: names on standard input, a line a name on standard output, and the totals; or a refusal.
// What it prints is the contract of `listed::list`; that its own room always suffices is proved there too.
#![tactic(auto)]

ghost use Rattle.std.specs.Prelude.{◌≤◌, length, IfOk};

use std::io::{self, ErrorKind, Read, Write};

// Reads until the buffer is full or the input ends, and says how many bytes came.
fn read_full<R: Read>(from: &mut R, buffer: &mut [u8]) -> io::Result<usize>
    ensures { IfOk result (λ n. n ≤ length buffer.new) }
{
    let mut n = 0;
    for _ in 0..u64::MAX {
        if n == buffer.len() {
            break;
        }
        match from.read(&mut buffer[n..]) {
            Ok(0) => break,
            Ok(more) => n += more,
            Err(e) => {
                if e.kind() != ErrorKind::Interrupted {
                    return Err(e);
                }
            }
        }
    }
    Ok(n)
}

fn main(rt: HostRuntime) -> io::Result<()> {
    // One byte more than an input may have tells that there are more.
    let mut input = [0u8; 4097];
    let n = read_full(&mut rt.stdin(), &mut input)?;
    let mut out = [0u8; 131072];
    let end = listed::list(&input[..n], &mut out);
    rt.stdout().write_all(&out[..end])
}

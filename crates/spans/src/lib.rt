// What stands at a cursor: the next byte, the next four as a number, or the text up to a zero byte.
// Distances, positions and cursors are types of their own, so that none is taken for another.
#![tactic(auto)]

ghost use Rattle.std.specs.Prelude.{◌≡◌, ◌≤◌, ◌+◌, ◌*◌, length};
ghost use Rattle.spans.specs.Spans.{byte_at, four_at, text_at};

// Counts names back.
#[derive(Clone, Copy)]
pub struct Distance(pub u32);

// Counts tokens.
#[derive(Clone, Copy)]
pub struct Position(pub u32);

// Counts bytes.
#[derive(Clone, Copy)]
pub struct Cursor(pub u32);

// Where a text lies, and the cursor behind the zero byte that ends it.
#[derive(Clone, Copy)]
pub struct Bytes {
    pub start: Cursor,
    pub end: Cursor,
    pub next: Cursor,
}

// The number of four bytes, the low byte first.
pub fn join(b0: u8, b1: u8, b2: u8, b3: u8) -> u32
    ensures { result ≡ b0 + 256 * b1 + 65536 * b2 + 16777216 * b3 }
{
    (b0 as u32) + 256 * (b1 as u32) + 65536 * (b2 as u32) + 16777216 * (b3 as u32)
}

impl Cursor {
    pub fn next_byte(self, bytes: &[u8], end: Cursor) -> Option<(u8, Cursor)>
        requires { end.0 ≤ length bytes.now }
        ensures { result ≡ byte_at bytes.now self.0 end.0 }
    {
        let at = self.0;
        let stop = end.0;
        if stop <= at {
            return None;
        }
        Some((bytes[at as usize], Cursor(at + 1)))
    }

    pub fn next_four(self, bytes: &[u8], end: Cursor) -> Option<(u32, Cursor)>
        requires { end.0 ≤ length bytes.now }
        ensures { result ≡ four_at bytes.now self.0 end.0 }
    {
        let at = self.0;
        let stop = end.0;
        if stop < at {
            return None;
        }
        if stop - at < 4 {
            return None;
        }
        let i = at as usize;
        let b0 = bytes[i];
        let b1 = bytes[i + 1];
        let b2 = bytes[i + 2];
        let b3 = bytes[i + 3];
        Some((join(b0, b1, b2, b3), Cursor(at + 4)))
    }

    // The zero byte is dropped; one at the end or behind it does not count.
    pub fn next_text(self, bytes: &[u8], end: Cursor) -> Option<Bytes>
        requires { end.0 ≤ length bytes.now }
        ensures { result ≡ text_at bytes.now self.0 end.0 }
    {
        let at = self.0;
        let stop = end.0 as usize;
        for i in at as usize..stop {
            if bytes[i] == 0 {
                let zero = i as u32;
                return Some(Bytes {
                    start: Cursor(at),
                    end: Cursor(zero),
                    next: Cursor(zero + 1),
                });
            }
        }
        None
    }
}

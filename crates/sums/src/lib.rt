// One byte added to a number of the earlier name: DDELTA and DDELTA0 once their row is found.
#![tactic(auto)]

ghost use Rattle.std.specs.Prelude.{◌≡◌};
ghost use Rattle.sums.specs.Sums.{delta_step, delta0_step};

use refusals::Reason;
use spans::Cursor;
use tokens::Token;
use values::Step;

// One byte added to a number; the sum is taken in 64 bits.
pub fn delta_step(number: u32, found: Option<(u8, Cursor)>) -> Step
    ensures { result ≡ delta_step number found }
{
    let (d, c) = found.ok_or(Reason::Short)?;
    let sum = (number as u64) + (d as u64);
    if 4294967296 <= sum {
        return Err(Reason::BadNumber);
    }
    Ok(Some((Token::Digits(sum as u32), c)))
}

// The same at a width, which does not grow.
pub fn delta0_step(number: u32, width: u32, found: Option<(u8, Cursor)>) -> Step
    ensures { result ≡ delta0_step number width found }
{
    let (d, c) = found.ok_or(Reason::Short)?;
    let sum = (number as u64) + (d as u64);
    if 4294967296 <= sum {
        return Err(Reason::BadNumber);
    }
    values::padded_step(sum as u32, width, c)
}

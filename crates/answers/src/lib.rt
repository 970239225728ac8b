// The answer of a read and the verdict on a claim as numbers.
#![tactic(auto)]

ghost use Rattle.std.specs.Prelude.{◌≡◌, ℕ};
ghost use Rattle.codes.specs.Codes.{refusal_number};
ghost use Rattle.answers.specs.Answers.{read_number, coded_number, verdict_by};

use claims::Verdict;
use entries::Answer;
use refusals::Refusal;

pub fn answered(a: Answer, k: u32) -> u64
    ensures { result ≡ read_number k a }
{
    match a {
        Ok(Some(n)) => codes::pack(0, n),
        Ok(None) => codes::pack(256, k),
        Err(r) => codes::refused(r),
    }
}

// A refusal that has a number at the C boundary. A verdict's refusals are any that have one, not the reasons' alone.
pub trait Numbered {
    ghost number: { Self → ℕ };

    fn number(self) -> u64
        ensures { result ≡ number self };
}

impl Numbered for Refusal {
    ghost number = { refusal_number };

    fn number(self) -> u64 {
        codes::refused(self)
    }
}

// A refusal by its code, whatever that is, and the name that goes with it or 0xFFFFFFFF.
#[derive(Clone, Copy)]
pub struct Coded {
    pub code: u32,
    pub name: u32,
}

impl Numbered for Coded {
    ghost number = { coded_number };

    fn number(self) -> u64 {
        codes::pack(self.code, self.name)
    }
}

pub fn judged<R: Numbered>(v: Result<Verdict, R>) -> u64
    ensures { result ≡ verdict_by R.number v }
{
    match v {
        Ok(Verdict::Confirmed) => codes::pack(0, 1),
        Ok(Verdict::Denied) => codes::pack(0, 0),
        Err(r) => r.number(),
    }
}

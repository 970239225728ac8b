// Why a call refuses: the paper's reasons with their numbers, and the name that goes with one.
#![tactic(auto)]

ghost use Rattle.std.specs.Prelude.{◌≡◌};
ghost use Rattle.refusals.specs.Refusals.{number_of};

// In the order of the paper's table; the last two are of the model.
#[derive(Clone, Copy, PartialEq, Eq)]
pub enum Reason {
    // A directory or cursor table of another length, a start above its end, an end above the bytes.
    Unsound,
    // A span ends before what is wanted.
    Short,
    // A type that isn't DUP or DIFF at position 0, or not in the table behind it.
    UnknownType,
    // A distance outside rule 2.
    BadDistance,
    // MATCH, DDELTA or DDELTA0 with no earlier name or no fitting row.
    NoRow,
    // A sum of 2^32 or more, a width of 0, a number too long for its width.
    BadNumber,
    // At the last position, a type in the table other than END.
    NotEnd,
    // A byte SAM doesn't allow, a running length above 254, END with length 0.
    BadName,
    // No room for what is to be kept or written.
    NoRoom,
    // A read with all names read while a cursor is short of its end.
    Unread,
    // A claim on a name that isn't kept.
    NoSuchName,
    // A count above 65,536; in writing, more names than that or a last one without byte 10.
    BadCount,
    // Kept numbers that point outside.
    Outside,
    // A model of no size or of more than 256 places.
    BadSize,
    // A symbol that isn't in the model's table.
    BadSymbol,
}

impl Reason {
    pub fn number(self) -> u32
        ensures { result ≡ number_of self }
    {
        match self {
            Reason::Unsound => 1,
            Reason::Short => 2,
            Reason::UnknownType => 3,
            Reason::BadDistance => 4,
            Reason::NoRow => 5,
            Reason::BadNumber => 6,
            Reason::NotEnd => 7,
            Reason::BadName => 8,
            Reason::NoRoom => 9,
            Reason::Unread => 10,
            Reason::NoSuchName => 11,
            Reason::BadCount => 12,
            Reason::Outside => 13,
            Reason::BadSize => 17,
            Reason::BadSymbol => 18,
        }
    }
}

// A reason, and the number of the name that goes with it where the paper says that one does.
#[derive(Clone, Copy, PartialEq, Eq)]
pub enum Refusal {
    Plain(Reason),
    At(Reason, u32),
}

// Refusals: their numbers, and which of two comes first on the ladder.
#![tactic(auto)]

ghost use Rattle.std.specs.Prelude.{◌≡◌};
ghost use Rattle.rules.specs.Refusal.{number as page_number, earlier, first_of, ◌when◌};
ghost use Rattle.refusal.specs.Meaning.{refusal_of, fault_of};

// The page's refusals, in the order of the ladder: of two, the lesser stands first. No order goes by the number.
#[derive(Clone, Copy, PartialEq, Eq, PartialOrd, Ord)]
pub enum Refusal {
    NoDesk,
    Damaged,
    DayFull,
    Offset,
    TooLong,
    NotUtf8,
    Markup,
    Type,
    Shape,
    Value,
    Date,
    Clock,
    Zone,
    Rule,
    UnknownBound,
    TooMany,
    NotWritable,
    NoRoom,
    NoRow,
    Total,
}

// The number that a caller is told.
pub fn number(r: Refusal) -> u64
    ensures { result ≡ page_number (refusal_of r) }
{
    match r {
        Refusal::NoDesk => 23,
        Refusal::Damaged => 21,
        Refusal::DayFull => 25,
        Refusal::Offset => 1,
        Refusal::TooLong => 2,
        Refusal::NotUtf8 => 3,
        Refusal::Markup => 4,
        Refusal::Type => 5,
        Refusal::Shape => 6,
        Refusal::Value => 7,
        Refusal::Date => 13,
        Refusal::Clock => 14,
        Refusal::Zone => 15,
        Refusal::Rule => 8,
        Refusal::UnknownBound => 9,
        Refusal::TooMany => 10,
        Refusal::NotWritable => 12,
        Refusal::NoRoom => 11,
        Refusal::NoRow => 16,
        Refusal::Total => 17,
    }
}

// A refusal, exactly if something is so.
pub fn refused_if(refusal: Refusal, so: bool) -> Result<(), Refusal>
    ensures { fault_of result ≡ first_of (refusal_of refusal when so) }
{
    if so { Err(refusal) } else { Ok(()) }
}

// Of two verdicts the one that comes first on the ladder; an acceptance gives way.
#[tactic(auto, using(crate::proofs::Ranks::least_first))]
pub fn first(a: Result<(), Refusal>, b: Result<(), Refusal>) -> Result<(), Refusal>
    ensures { fault_of result ≡ earlier (fault_of a) (fault_of b) }
{
    let Err(x) = a else {
        return b;
    };
    let Err(y) = b else {
        return a;
    };
    Err(x.min(y))
}

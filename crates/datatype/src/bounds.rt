// The sides of an interval of times, what one of them says, and which bounds are pushed.
ghost use Rattle.std.specs.Prelude.{◌≡◌};
ghost use Rattle.rules.specs.Invariants.{is_pushed};
ghost use Rattle.timestamp.specs.Moments.{moment_of};
ghost use Rattle.datatype.specs.Bounds.{side_meant};

use timestamp::Moment;

// A side of an interval.
#[derive(Clone, Copy)]
pub enum Side {
    Low,
    High,
}

// What a side says: a value, that there is no bound, or nothing (the bound is missing, or null otherwise).
#[derive(Clone, Copy)]
pub enum Endpoint {
    Valued(Moment),
    Infinite,
    Unknown,
}

// Whether a bound is pushed to the next unit's start: a closed high or an open low, coarser than a second.
pub fn is_pushed(m: Moment, side: Side, closed: bool) -> bool
    ensures { result ≡ is_pushed (side_meant side) closed (moment_of m) }
{
    let coarse = m.precision < 14;
    match side {
        Side::Low => coarse & !closed,
        Side::High => coarse & closed,
    }
}

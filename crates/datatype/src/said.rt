// What an element of a time says as a bound.
ghost use Rattle.std.specs.Prelude.{◌≡◌, List, ℕ, ◌-◌, ◌≤◌, length};
ghost use Rattle.std.proofs.Math.Option.{Option};
ghost use Rattle.rules.specs.Refusal.{faults_of, first_of};
ghost use Rattle.rules.specs.Markup.{Attribute};
ghost use Rattle.refusal.specs.Meaning.{fault_of};
ghost use Rattle.timestamp.specs.Moments.{outcome_of};
ghost use Rattle.element.specs.Tags.{Place, Tells, TagIn};
ghost use Rattle.datatype.specs.Bounds.{endpoint_meant};
ghost use Rattle.datatype.specs.Said.{said_meant, said_flavor, said_value, value_fault, said_by, time_fault, endpoint_said, wrong_said};

use crate::bounds::{Endpoint, Side};
use crate::places::has_text;
use element::name::{NULL_FLAVOR, VALUE};
use element::tag::Tag;
use element::value;
use refusal::Refusal;
use timestamp::{Moment, Shift};

// A value; that there is no bound below, or none above; or nothing.
#[derive(Clone, Copy)]
pub enum Said {
    Valued(Moment),
    Below,
    Above,
    Nothing,
}

// An element of a time: what its value is refused for, and what it says.
#[derive(Clone, Copy)]
pub struct Time {
    pub fault: Result<(), Refusal>,
    pub said: Said,
}

// What the flavor at a place says.
fn flavor_said(s: &[u8], place: usize) -> Said
    requires { place ≤ length s.now }
    ensures { (o : Option (List ℕ)) → Place s.now o place → said_meant result ≡ said_flavor o }
{
    if has_text(s, place, b"NINF") {
        return Said::Below;
    }
    if has_text(s, place, b"PINF") {
        return Said::Above;
    }
    Said::Nothing
}

// The time of the value at a place.
pub fn time_at(s: &[u8], place: usize, shift: Shift) -> Time
    requires { place ≤ length s.now - 1 }
    ensures { (o : Option (List ℕ)) → Place s.now o place → (fault_of result.fault ≡ value_fault shift.minutes o) × (said_meant result.said ≡ said_value shift.minutes o) }
{
    if place == 0 {
        return Time {
            fault: Ok(()),
            said: Said::Nothing,
        };
    }
    let end = value::end(s, place);
    let read = form::moment(s, place, end, shift);
    let Ok(m) = read else {
        return Time {
            fault: read.and(Ok(())),
            said: Said::Nothing,
        };
    };
    Time {
        fault: Ok(()),
        said: Said::Valued(m),
    }
}

// The time of an element, by its tag. Where it is null its flavor says it; what its value is refused for, if it carries one, is told all the
// same.
pub fn time_of(s: &[u8], tag: Tag, shift: Shift) -> Time
    requires { TagIn s.now tag }
    ensures { (l : List Attribute) → Tells s.now l tag.places → (fault_of result.fault ≡ time_fault shift.minutes l) × (said_meant result.said ≡ said_by shift.minutes l) }
{
    let time = time_at(s, tag.places[VALUE], shift);
    let flavor = tag.places[NULL_FLAVOR];
    if flavor == 0 {
        return time;
    }
    Time {
        fault: time.fault,
        said: flavor_said(s, flavor),
    }
}

// What is said, on a side.
pub fn endpoint(said: Said, side: Side) -> Endpoint
    ensures { endpoint_meant result ≡ endpoint_said side (said_meant said) }
{
    match said {
        Said::Valued(m) => Endpoint::Valued(m),
        Said::Below => match side {
            Side::Low => Endpoint::Infinite,
            Side::High => Endpoint::Unknown,
        },
        Said::Above => match side {
            Side::Low => Endpoint::Unknown,
            Side::High => Endpoint::Infinite,
        },
        Said::Nothing => Endpoint::Unknown,
    }
}

// Whether what is said may not stand on a side.
pub fn is_wrong(said: Said, side: Side) -> bool
    ensures { result ≡ wrong_said side (said_meant said) }
{
    match said {
        Said::Valued(_) => false,
        Said::Below => match side {
            Side::Low => false,
            Side::High => true,
        },
        Said::Above => match side {
            Side::Low => true,
            Side::High => false,
        },
        Said::Nothing => false,
    }
}

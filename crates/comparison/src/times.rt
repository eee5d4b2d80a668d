// Comparison of timestamps and of intervals of times.
ghost use Rattle.std.specs.Prelude.{◌≡◌, true, List, ℕ};
ghost use Rattle.rules.specs.Markup.{Element};
ghost use Rattle.rules.specs.Comparison.{compare_moments, compare_endpoints, compare_times, compare_intervals};
ghost use Rattle.rules.specs.Invariants.{valued, infinite};
ghost use Rattle.timestamp.specs.Moments.{moment_of};
ghost use Rattle.element.specs.Tags.{Tells, TagOf, TagIn};
ghost use Rattle.datatype.specs.Bounds.{endpoint_meant};
ghost use Rattle.datatype.specs.Said.{said_meant, endpoint_said};
ghost use Rattle.comparison.specs.Meaning.{answer_meant};
ghost use Rattle.comparison.specs.Sides.{is_valued};

use crate::texts::same_attribute;
use crate::{Answer, also, answer_if};
use datatype::bounds::{Endpoint, Side};
use datatype::said::{Said, endpoint, time_at};
use datatype::sides::read_sides;
use element::name::{HIGH_CLOSED, LOW_CLOSED, VALUE};
use element::tag::Tag;
use timestamp::{Moment, Shift};

// Yes if precision and tick are the same; no if the spans share no tick; else unknown.
fn compare_moments(a: Moment, b: Moment) -> Answer
    ensures { answer_meant result ≡ compare_moments (moment_of a) (moment_of b) }
{
    if (a.precision == b.precision) & (a.start == b.start) {
        return Answer::Yes;
    }
    if (a.start < b.next) & (b.start < a.next) {
        return Answer::Unknown;
    }
    Answer::No
}

// A value against what another side says.
fn compare_valued(a: Moment, b: Endpoint) -> Answer
    ensures { answer_meant result ≡ compare_endpoints true (valued (moment_of a)) (endpoint_meant b) }
{
    match b {
        Endpoint::Valued(m) => compare_moments(a, m),
        Endpoint::Infinite => Answer::No,
        Endpoint::Unknown => Answer::Unknown,
    }
}

// No bound against what another side says.
fn compare_infinite(b: Endpoint) -> Answer
    ensures { answer_meant result ≡ compare_endpoints true infinite (endpoint_meant b) }
{
    match b {
        Endpoint::Valued(_) => Answer::No,
        Endpoint::Infinite => Answer::Yes,
        Endpoint::Unknown => Answer::Unknown,
    }
}

// What two sides say, but for their flags: unbounded equals unbounded and differs from a value; nothing said is unknown.
fn compare_endpoints(a: Endpoint, b: Endpoint) -> Answer
    ensures { answer_meant result ≡ compare_endpoints true (endpoint_meant a) (endpoint_meant b) }
{
    match a {
        Endpoint::Valued(m) => compare_valued(m, b),
        Endpoint::Infinite => compare_infinite(b),
        Endpoint::Unknown => Answer::Unknown,
    }
}

// Whether a side has a value.
fn is_valued(a: Endpoint) -> bool
    ensures { result ≡ is_valued (endpoint_meant a) }
{
    match a {
        Endpoint::Valued(_) => true,
        Endpoint::Infinite => false,
        Endpoint::Unknown => false,
    }
}

// What two sides say, and their flags where both are valued; `flags` says whether the flags are the same.
fn compare_flagged(flags: bool, a: Endpoint, b: Endpoint) -> Answer
    ensures { answer_meant result ≡ compare_endpoints flags (endpoint_meant a) (endpoint_meant b) }
{
    let asked = is_valued(a) & is_valued(b);
    also(compare_endpoints(a, b), answer_if(flags | !asked))
}

// What two elements say on a side; `flags` says whether the flags are the same.
fn compare_said(flags: bool, a: Said, b: Said, side: Side) -> Answer
    ensures { answer_meant result ≡ compare_endpoints flags (endpoint_said side (said_meant a)) (endpoint_said side (said_meant b)) }
{
    compare_flagged(flags, endpoint(a, side), endpoint(b, side))
}

// TS: the values of two elements, by their tags. A value says the same on either side.
pub fn compare_times(s: &[u8], a: Tag, t: &[u8], b: Tag, shift: Shift) -> Answer
    requires fact_1 { TagIn s.now a }
    requires fact_2 { TagIn t.now b }
    ensures { (v w : Element) → Tells s.now v.attrs a.places → Tells t.now w.attrs b.places → answer_meant result ≡ compare_times shift.minutes v w }
{
    let first = time_at(s, a.places[VALUE], shift);
    let second = time_at(t, b.places[VALUE], shift);
    let x = first.said;
    let y = second.said;
    compare_said(true, x, y, Side::Low)
}

// IVL_TS: lows, highs, and flags of sides where both are valued.
pub fn compare_intervals(s: &[u8], a: Tag, t: &[u8], b: Tag, depth: usize, shift: Shift) -> Answer
    requires fact_1 { TagIn s.now a }
    requires fact_2 { TagIn t.now b }
    ensures { (v w : Element) (after rest : List ℕ) → TagOf s.now depth v after a → TagOf t.now depth w rest b → answer_meant result ≡ compare_intervals shift.minutes v w }
{
    let first = read_sides(s, a, depth, shift);
    let second = read_sides(t, b, depth, shift);
    let lows = same_attribute(s, a, t, b, LOW_CLOSED);
    let highs = same_attribute(s, a, t, b, HIGH_CLOSED);
    let x = first.low;
    let y = second.low;
    let low = compare_said(lows, x, y, Side::Low);
    let x = first.high;
    let y = second.high;
    let high = compare_said(highs, x, y, Side::High);
    also(low, high)
}

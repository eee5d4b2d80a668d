// The bounds of an interval of times, and the interval that an element writes.
ghost use Rattle.std.specs.Prelude.{◌≡◌, false, List, ℕ, ◌^◌, ◌≤◌, ltb, length, drop};
ghost use Rattle.rules.specs.Markup.{Element};
ghost use Rattle.rules.specs.Timestamp.{tick_at};
ghost use Rattle.rules.specs.Listing.{bound_at, value_read, bound_read, interval_of};
ghost use Rattle.timestamp.specs.Moments.{moment_of};
ghost use Rattle.interval.specs.Meaning.{bound_of, tick, Ticked};
ghost use Rattle.element.specs.Tags.{TagOf, TagIn};
ghost use Rattle.datatype.specs.Bounds.{side_meant, endpoint_meant};
ghost use Rattle.datatype.specs.Said.{said_meant};
ghost use Rattle.listing.specs.Bounds.{limit_meant, LimitOn, written_meant, IntervalOn, BoundSaid, IntervalSaid};

use datatype::bounds::{Endpoint, Side, is_pushed};
use datatype::places::has_text;
use datatype::said::{Said, endpoint};
use datatype::sides::read_sides;
use element::name::{HIGH_CLOSED, LOW_CLOSED};
use element::tag::Tag;
use interval::{Bound, Interval};
use timestamp::{Moment, Shift};

// An element of an interval: the interval, if its bounds are known, and the position past the element.
#[derive(Clone, Copy)]
pub struct Written {
    pub interval: Option<Interval>,
    pub end: usize,
}

// A bound at a tick.
fn bound_at(tick: u64, closed: bool) -> Bound
    ensures { bound_of result ≡ bound_at closed (tick_at tick) }
{
    if closed {
        return Bound::Closed(tick);
    }
    Bound::Open(tick)
}

// A value as a bound: one that is pushed is of the other kind, at the next unit's start.
fn read_value(m: Moment, side: Side, closed: bool) -> Bound
    ensures { bound_of result ≡ value_read (side_meant side) closed (moment_of m) }
{
    if is_pushed(m, side, closed) {
        return bound_at(m.next, !closed);
    }
    bound_at(m.start, closed)
}

// The bound that a side means, by what it says and whether it is closed, if it is known.
pub fn read_bound(end: Endpoint, side: Side, closed: bool) -> Option<Bound>
    ensures { limit_meant result ≡ bound_read (side_meant side) closed (endpoint_meant end) }
{
    match end {
        Endpoint::Valued(m) => Some(read_value(m, side, closed)),
        Endpoint::Infinite => Some(Bound::Unbounded),
        Endpoint::Unknown => None,
    }
}

// The ticks that sets take are below this, and so is every timestamp's.
const MOST: u64 = 1152921504606846976;

// Whether sets take a bound.
fn is_ticked(b: Bound) -> bool
    ensures { result ≡ ltb (tick b) (2 ^ 60) }
{
    match b {
        Bound::Unbounded => true,
        Bound::Open(t) => t < MOST,
        Bound::Closed(t) => t < MOST,
    }
}

// The bound of what is said on a side, if it is known.
fn bound_of(said: Said, side: Side, closed: bool) -> Option<Bound>
    ensures on { LimitOn result }
    ensures tells { BoundSaid (said_meant said) side closed result }
{
    let end = endpoint(said, side);
    let b = read_bound(end, side, closed)?;
    if is_ticked(b) {
        return Some(b);
    }
    None
}

// The interval of what is said on the two sides of the element of a tag, if both bounds are known.
fn interval_said(s: &[u8], tag: Tag, from: Said, to: Said) -> Option<Interval>
    requires { TagIn s.now tag }
    ensures ticked { IntervalOn result }
    ensures tells { IntervalSaid s.now tag from to result }
{
    let low = bound_of(
        from,
        Side::Low,
        has_text(s, tag.places[LOW_CLOSED], b"true"),
    )?;
    let high = bound_of(
        to,
        Side::High,
        has_text(s, tag.places[HIGH_CLOSED], b"true"),
    )?;
    Some(Interval { low, high })
}

// The interval that the element of a tag writes, where `depth` may be open at once.
pub fn interval_of(s: &[u8], tag: Tag, depth: usize, shift: Shift) -> Written
    requires { TagIn s.now tag }
    ensures ticked { IntervalOn result.interval }
    ensures within { (tag.end ≤ result.end) × (result.end ≤ length s.now) }
    ensures tells { (v : Element) (after : List ℕ) → TagOf s.now depth v after tag → (written_meant result.interval ≡ interval_of shift.minutes v.attrs v.kids) × (after ≡ drop result.end s.now) }
{
    let sides = read_sides(s, tag, depth, shift);
    let from = sides.low;
    let to = sides.high;
    Written {
        interval: interval_said(s, tag, from, to),
        end: sides.end,
    }
}
